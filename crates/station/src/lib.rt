// The library that a station links: all that it calls, on numbers and lent memory alone. A slice passes as a pointer and then a length, an
// array of fixed size as a pointer. No value is required: memory that is too short, and a state that is not a record, are refused by their
// numbers. Of the pointers the header requires what no proof here covers: each is not NULL, is aligned, points to as much memory as its type
// or its length says; nothing that is written overlaps anything else; and during the call nobody else writes to any of this memory, or reads
// what the call writes.
#![tactic(auto)]

ghost use Rattle.std.specs.Prelude.{◌≡◌, length, Option, Float};
ghost use Rattle.timestamp.specs.declared.Timestamp.{Timestamp};
ghost use Rattle.score.specs.declared.Components.{Components};
ghost use Rattle.stream.specs.declared.Sums.{Sums};
ghost use Rattle.content.specs.declared.Detector.{Detector};
ghost use Rattle.adaptive.specs.declared.Detector.{Detector as AdaptiveDetector};
ghost use Rattle.content_words.specs.Record.{content_words};
ghost use Rattle.adaptive_words.specs.Record.{adaptive_words};
ghost use Rattle.cut_list.specs.declared.CutList.{CutList};
ghost use Rattle.cut_list.specs.Record.{places};
ghost use Rattle.cut_list_station.specs.Words.{list_words};
ghost use Rattle.station_answer.specs.Answer.{answer_words};
ghost use Rattle.station_answer.specs.Sizes.{store_bytes, scratch_bytes, magnitudes_count};

pub mod adaptive_exports;
pub mod content_exports;
pub mod list_exports;
pub mod plan_exports;

// The library's version: the major number times 65,536, the minor times 256, the patch.
#[unsafe(no_mangle)]
pub extern "C" fn mw_version() -> u32
    ensures { result ≡ 0x000500 }
{
    0x000500
}

// How many words a content state has.
#[tactic(auto, using(content_words::proofs::Writing::words_length))]
#[unsafe(no_mangle)]
pub extern "C" fn mw_content_words() -> u64
    ensures { (d : Detector) → result ≡ length (content_words d) }
{
    34
}

// How many words an adaptive state has.
#[tactic(auto, using(adaptive_words::proofs::Writing::words_length))]
#[unsafe(no_mangle)]
pub extern "C" fn mw_adaptive_words() -> u64
    ensures { (d : AdaptiveDetector) → result ≡ length (adaptive_words d) }
{
    288
}

// How many words an answer has.
#[tactic(auto, unfolding(station_answer::specs::Answer::answer_words))]
#[unsafe(no_mangle)]
pub extern "C" fn mw_answer_words() -> u64
    ensures { (cut : Option Timestamp) (score : Option Float) (deltas : Components) (sums : Sums) → result ≡ length (answer_words cut score deltas sums) }
{
    13
}

// How many words the record of a list has.
#[tactic(auto, using(cut_list_station::proofs::Laws::words_length))]
#[unsafe(no_mangle)]
pub extern "C" fn mw_list_words() -> u64
    ensures { (l : CutList) → result ≡ length (list_words l) }
{
    3
}

// How many places of its memory a list uses, which is how many stamps it holds at most.
#[unsafe(no_mangle)]
pub extern "C" fn mw_list_places() -> u64
    ensures { result ≡ places }
{
    512
}

// How many bytes the store of a frame of this size has; 0 for a size that every call refuses by 1.
#[unsafe(no_mangle)]
pub extern "C" fn mw_store_bytes(width: u32, height: u32) -> u64
    ensures { result ≡ store_bytes width height }
{
    station_answer::store_bytes(width, height)
}

// How many bytes the scratch of a frame of this size has; 0 for a size that every call refuses by 1.
#[unsafe(no_mangle)]
pub extern "C" fn mw_scratch_bytes(width: u32, height: u32) -> u64
    ensures { result ≡ scratch_bytes width height }
{
    station_answer::scratch_bytes(width, height)
}

// How many numbers of 32 bits the magnitudes of a frame of this size are; 0 for a size that every call refuses by 1.
#[unsafe(no_mangle)]
pub extern "C" fn mw_magnitudes(width: u32, height: u32) -> u64
    ensures { result ≡ magnitudes_count width height }
{
    station_answer::magnitudes_count(width, height)
}
