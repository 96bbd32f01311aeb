// The calls of any detector on lent words, and what they stand on: the memory that a frame needs, an answer in words, settings by numbers,
// and what the readers show.
#![tactic(auto)]

ghost use Rattle.std.specs.Prelude.{◌≡◌};
ghost use Rattle.words.specs.Choices.{tag_of};
ghost use Rattle.stream.specs.Stream.{components_shown};
ghost use Rattle.station_answer.specs.Sizes.{store_bytes, scratch_bytes, magnitudes_count};
ghost use Rattle.station_answer.specs.Answer.{answer_words, ReadAs, score_shown, component_at};
ghost use Rattle.station_answer.specs.Settings.{flag_set, kernel_set};

pub mod calls;

use score::Components;
use stream::Sums;
use timestamp::Timestamp;

// How many bytes the store of a frame of this size has; 0 for a size that every call refuses by 1.
// Kept: these three in 64 bits for C, and those of `stream` in places.
#[tactic(auto, unfolding(crate::specs::Sizes::store_bytes))]
pub fn store_bytes(width: u32, height: u32) -> u64
    ensures { result ≡ store_bytes width height }
{
    if frame::is_too_large(width, height) {
        0
    } else {
        4 * (width as u64 * height as u64)
    }
}

// How many bytes the scratch of a frame of this size has; 0 for a size that every call refuses by 1.
// Kept: as `store_bytes` says.
#[tactic(auto, unfolding(crate::specs::Sizes::scratch_bytes))]
pub fn scratch_bytes(width: u32, height: u32) -> u64
    ensures { result ≡ scratch_bytes width height }
{
    if frame::is_too_large(width, height) {
        0
    } else {
        let w = width as u64;
        let h = height as u64;
        7 * (w * h) + 2 * w.max(h)
    }
}

// How many numbers of 32 bits the magnitudes of a frame of this size are; 0 for a size that every call refuses by 1.
// Kept: as `store_bytes` says.
#[tactic(auto, unfolding(crate::specs::Sizes::magnitudes_count))]
pub fn magnitudes_count(width: u32, height: u32) -> u64
    ensures { result ≡ magnitudes_count width height }
{
    if frame::is_too_large(width, height) {
        0
    } else {
        width as u64 * height as u64
    }
}

// The thirteen words of the answer to an accepted frame, which read back.
#[tactic(auto, using(words::proofs::Made::reads), unfolding(crate::specs::Answer::answer_words))]
pub fn answer_words(
    cut: Option<Timestamp>,
    score: Option<f64>,
    deltas: Components,
    sums: Sums,
) -> [u64; 13]
    ensures { (result ≡ answer_words cut score deltas sums) × ReadAs cut score deltas sums result }
{
    [
        words::tag(cut),
        words::stamp_word(cut),
        words::tag(score),
        words::score_word(score),
        words::float_word(deltas.delta_hue),
        words::float_word(deltas.delta_sat),
        words::float_word(deltas.delta_lum),
        words::float_word(deltas.delta_edges),
        sums.hue as u64,
        sums.saturation as u64,
        sums.luma as u64,
        sums.edges as u64,
        sums.count as u64,
    ]
}

// A flag by a number, as in C.
// Kept: the C interface passes a flag as a number.
pub fn flag_set(n: u32) -> bool
    ensures { result ≡ flag_set n }
{
    n != 0
}

// A kernel's size by two numbers: whether it is set, and the size.
// Kept: the C interface passes a value that may be missing as a flag and a value.
pub fn kernel_set(has: u32, k: u32) -> Option<u32>
    ensures { result ≡ kernel_set has k }
{
    flag_set(has).then_some(k)
}

// Whether a value that may be missing is there, as 1 or 0.
// Kept: the C interface returns whether there is a value, and the value, by two calls.
pub fn has<T: Copy>(o: Option<T>) -> u32
    ensures { result ≡ tag_of o }
{
    u32::from(o.is_some())
}

// A score that may be missing, or 0.0.
#[tactic(auto, using(crate::proofs::Shown::or_zero))]
pub fn score_shown(s: Option<f64>) -> f64
    ensures { result ≡ score_shown s }
{
    s.unwrap_or(0.0)
}

// One of the four components, by its place, or 0.0 where there are none.
// Kept: C passes the place as a number.
#[tactic(auto, using(score::proofs::Literals::literals), unfolding(crate::specs::Answer::component_at))]
pub fn component_at(c: Option<Components>, place: u32) -> f64
    ensures { result ≡ component_at (components_shown c) place }
{
    let shown = stream::components_shown(c);
    match place {
        0 => shown.delta_hue,
        1 => shown.delta_sat,
        2 => shown.delta_lum,
        3 => shown.delta_edges,
        _ => 0.0,
    }
}
