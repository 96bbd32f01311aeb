// Numbers, doubles, stamps and values that may be missing as words of 64 bits, and back: what the records that a station lends are written
// in. Nothing is required of a word: each is read as something. What is written reads back.
// Kept, point 2: a stamp, a score and a kernel's size are three types with a definition each, and a line each here; a trait for them would be longer.
// Kept, point 4: `flag_word` is the name of a definition, and `short_of` names the low 32 bits for three readers.
#![tactic(auto)]

ghost use Rattle.std.specs.Prelude.{◌≡◌, ◌≢◌, true, List, ℕ, ◌<◌, ◌%◌, length};
ghost use Rattle.std.specs.Float.{binary64};
ghost use Rattle.std.specs.Float.Ieee.{to_bits, of_bits};
ghost use Rattle.timestamp.specs.declared.Timestamp.{Timestamp};
ghost use Rattle.frame_call.specs.Call.{PictureAnswer};
ghost use Rattle.words.specs.Choices.{flag_word, flag_of, tag_of, stamp_tag, stamp_word, stamp_of, score_tag, score_word, score_of, kernel_tag, kernel_word, kernel_of, components_of};
ghost use Rattle.words.specs.Stream.{stream_words, is_stream, stream_of};

use detector::Detect;
use score::Components;
use stream::Stream;
use timestamp::Timestamp;

// How a detector's state is held in N words: a type that stands for the layout.
pub trait Recorded<const N: usize> {
    type State: Detect;

    // The words of a state.
    ghost words_of: { Self.State → List ℕ };

    // The state that words hold.
    ghost held_by: { List ℕ → Self.State };

    // The state that a state's words read back as: it may leave out what nothing looks at. What words hold reads back as itself, and so does what a call
    // leaves of it; by that the calls' contracts promise that a state reads back in full.
    ghost tidied: { Self.State → Self.State };

    // The state that the words hold. Any N words are read.
    fn read(w: &[u64; N]) -> Self::State
        ensures { result ≡ held_by w.now };

    // Writes a state, which reads back.
    fn write(d: Self::State, out: &mut [u64; N])
        ensures after { out.new ≡ words_of d }
        ensures back { held_by out.new ≡ tidied d };

    // The answer to an accepted frame has no refusal's number.
    ghost accepted: { (d : Self.State) (ts : Timestamp) (p : PictureAnswer) → (Self.State.stepped d ts p).number ≡ 0 };

    // Words hold a tidied state, and from one a frame and `clear` make one.
    ghost held_tidied: { (w : List ℕ) → tidied (held_by w) ≡ held_by w };

    ghost step_tidied: { (d : Self.State) (ts : Timestamp) (p : PictureAnswer) → tidied d ≡ d
        → tidied (Self.State.stepped d ts p).detector ≡ (Self.State.stepped d ts p).detector };

    ghost clear_tidied: { (d : Self.State) → tidied d ≡ d → tidied (Self.State.cleared d).detector ≡ (Self.State.cleared d).detector };

    // Where `clear` is refused, it gives the state back.
    ghost stays: { (d : Self.State) → (Self.State.cleared d).number ≢ 0 → (Self.State.cleared d).detector ≡ d };
}

// A double's bit pattern. A NaN has one.
#[tactic(auto, using(crate::proofs::Doubles::bits_back))]
pub fn float_word(x: f64) -> u64
    ensures value { result ≡ to_bits binary64 x }
    ensures result_value { of_bits binary64 result ≡ x }
{
    std::num::f64_to_bits_with_nan(x)
}

// The double of a bit pattern. Every NaN's pattern is read as the NaN.
pub fn float_of(w: u64) -> f64
    ensures { result ≡ of_bits binary64 w }
{
    std::num::f64_from_bits_with_nan(w)
}

// The low 32 bits.
pub fn short_of(w: u64) -> u32
    ensures { result ≡ w % 4294967296 }
{
    (w % 4294967296) as u32
}

pub fn flag_word(b: bool) -> u64
    ensures value { result ≡ flag_word b }
    ensures result_value { flag_of result ≡ b }
{
    u64::from(b)
}

pub fn flag_of(w: u64) -> bool
    ensures { result ≡ flag_of w }
{
    w == 1
}

// The tag of a value that may be missing: 1 where it is there, otherwise 0.
// Kept: `station_answer::has` gives it to C in 32 bits, by a line like this one.
pub fn tag<T: Copy>(o: Option<T>) -> u64
    ensures { result ≡ tag_of o }
{
    u64::from(o.is_some())
}

// A stamp that may be missing: its number, or 0.
pub fn stamp_word(t: Option<Timestamp>) -> u64
    ensures value { result ≡ stamp_word t }
    ensures result_value { stamp_of (stamp_tag t) result ≡ t }
{
    t.map_or(0, |ts| ts.micros.cast_unsigned())
}

pub fn stamp_of(tag: u64, w: u64) -> Option<Timestamp>
    ensures { result ≡ stamp_of tag w }
{
    flag_of(tag).then(|| Timestamp {
        micros: w.cast_signed(),
    })
}

// A score that may be missing: its bit pattern, or 0.
pub fn score_word(s: Option<f64>) -> u64
    ensures value { result ≡ score_word s }
    ensures result_value { score_of (score_tag s) result ≡ s }
{
    s.map_or(0, float_word)
}

pub fn score_of(tag: u64, w: u64) -> Option<f64>
    ensures { result ≡ score_of tag w }
{
    flag_of(tag).then(|| float_of(w))
}

// A kernel's size: the size, or 0 where it is not set.
pub fn kernel_word(k: Option<u32>) -> u64
    ensures value { result ≡ kernel_word k }
    ensures result_value { (kernel_of (kernel_tag k) result ≡ k) × (result < 4294967296) }
{
    k.map_or(0, u64::from)
}

pub fn kernel_of(tag: u64, w: u64) -> Option<u32>
    ensures { result ≡ kernel_of tag w }
{
    flag_of(tag).then(|| short_of(w))
}

// Four doubles by their words.
pub fn components_of(hue: u64, sat: u64, lum: u64, edges: u64) -> Components
    ensures { result ≡ components_of hue sat lum edges }
{
    Components {
        delta_hue: float_of(hue),
        delta_sat: float_of(sat),
        delta_lum: float_of(lum),
        delta_edges: float_of(edges),
    }
}

// What both detectors keep of the stream, in ten words.
#[tactic(auto, using(crate::proofs::Made::reads), unfolding(crate::specs::Stream::stream_words, crate::specs::Stream::is_stream, crate::specs::Stream::stream_of))]
pub fn stream_words(s: Stream) -> [u64; 10]
    ensures value { result ≡ stream_words s }
    ensures result_value { (is_stream result ≡ true) × (stream_of result ≡ s) }
{
    let shown = stream::components_shown(s.last_components);
    [
        flag_word(s.has_previous),
        tag(s.last_score),
        score_word(s.last_score),
        tag(s.last_components),
        float_word(shown.delta_hue),
        float_word(shown.delta_sat),
        float_word(shown.delta_lum),
        float_word(shown.delta_edges),
        s.width as u64,
        s.height as u64,
    ]
}

// Whether ten words are those of a stream.
#[tactic(auto, unfolding(crate::specs::Stream::is_stream))]
pub fn is_stream(w: &[u64]) -> bool
    requires { length w.now ≡ 10 }
    ensures { result ≡ is_stream w.now }
{
    (w[0] <= 1) & (w[1] <= 1) & (w[3] <= 1) & (w[8] < 4294967296) & (w[9] < 4294967296)
}

#[tactic(auto, unfolding(crate::specs::Stream::stream_of))]
pub fn stream_of(w: &[u64]) -> Stream
    requires { length w.now ≡ 10 }
    ensures { result ≡ stream_of w.now }
{
    let shown = components_of(w[4], w[5], w[6], w[7]);
    Stream {
        has_previous: flag_of(w[0]),
        last_score: score_of(w[1], w[2]),
        last_components: flag_of(w[3]).then_some(shown),
        width: short_of(w[8]),
        height: short_of(w[9]),
    }
}
