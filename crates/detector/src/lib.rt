// What makes a detector, and the frame calls of any detector (RULES 8.4). Any frame, state record and lent memory is taken: what is wrong
// with it is told by a refusal (RULES 10.5). The memory is lent: a store of the last frame's planes, which is to be handed to the next call
// as this one left it, scratch and magnitudes (RULES 12.1, 12.2). What a frame is to a detector is in the crate `frame_call`; the
// detector's step is added here.
// Kept, point 5: a frame call takes plain parameters, and frame records come after it (RULES 16.1); lent memory goes as three slices, as C lends it
// (RULES 12.1).
// Kept, point 2: luma, BGR and HSV have calls of their own names; what they share is `answer_to`.
#![tactic(auto)]

ghost use Rattle.std.specs.Prelude.{◌≡◌, Bool, Ok};
ghost use Rattle.timestamp.specs.declared.Timestamp.{Timestamp};
ghost use Rattle.stream.specs.declared.Stream.{Stream};
ghost use Rattle.frame_call.specs.declared.PictureOptions.{PictureOptions};
ghost use Rattle.stream.specs.Stream.{components_shown, FromSums};
ghost use Rattle.frame_call.specs.Call.{PictureAnswer, picture_in, answered_by, luma, bgr, hsv, memory, outcome_of, Called};
ghost use Rattle.detector.specs.Answers.{Answer, without_score, answer_in, cleared_in, settled_in};

use frame_call::{Picture, PictureOptions};
use refusal::{Refusal, Refused};
use score::Components;
use stream::{Stream, Sums};
use timestamp::Timestamp;

// What an accepted frame brings besides the memory that its call writes: the state, the cut or none, the score or none, the four
// components, which are 0.0 where there is no score, and the whole sums and the count that they come from, which are 0 there.
#[derive(Clone, Copy, Debug, PartialEq)]
pub struct Step<D> {
    pub detector: D,
    pub cut: Option<Timestamp>,
    pub score: Option<f64>,
    pub components: Components,
    pub sums: Sums,
}

// A detector, by its state: what one call hands to the next.
pub trait Detect: Copy {
    // What the state keeps of the stream of frames.
    ghost stream: { Self → Stream };

    // What a frame's picture is scored by.
    ghost settings: { Self → PictureOptions };

    // No call leaves such a state: refusal 15.
    ghost bad: { Self → Bool };

    // The answer to an accepted frame, by its stamp and what it is to either detector.
    ghost stepped: { Self → Timestamp → PictureAnswer → Answer Self };

    // The answer to `clear`.
    ghost cleared: { Self → Answer Self };

    fn stream(self) -> Stream
        ensures { result ≡ stream self };

    fn picture_options(self) -> PictureOptions
        ensures { result ≡ settings self };

    fn is_bad(self) -> bool
        ensures { result ≡ bad self };

    // An accepted frame. An inner layer of the frame calls, and no call: it tests nothing.
    fn step(self, ts: Timestamp, p: Picture) -> Step<Self>
        ensures { answer_in (Ok result) ≡ stepped self ts (picture_in (stream self) (Ok p)) };

    // `clear` keeps settings and size; all else is as at the start. It refuses by 15 alone.
    fn clear(self) -> Result<Self, Refused<Self>>
        ensures { cleared_in result ≡ cleared self };

    // A step shows the frame's score, components and sums.
    ghost shows: { (d : Self) (ts : Timestamp) (p : PictureAnswer) → (stepped d ts p).score ≡ p.stream.last_score × ((stepped d ts p).components ≡ components_shown p.stream.last_components × (stepped d ts p).sums ≡ p.sums) };
}

// The answer to a frame: the step of an accepted one, or the refusal.
// Kept: by cases, as `answered_by` is.
fn answer_to<D: Detect>(
    d: D,
    ts: Timestamp,
    p: Result<Picture, Refusal>,
) -> Result<Step<D>, Refused<D>>
    ensures value { answer_in result ≡ answered_by (D.stepped d ts) (without_score d) (picture_in (D.stream d) p) }
    ensures number { (answer_in result).number ≡ (picture_in (D.stream d) p).number }
{
    match p {
        Ok(picture) => Ok(d.step(ts, picture)),
        Err(refusal) => Err(Refused { refusal, state: d }),
    }
}

// The state that a frame call leaves.
pub fn state_after<D: Detect>(answer: Result<Step<D>, Refused<D>>) -> D
    ensures { result ≡ (answer_in answer).detector }
{
    match answer {
        Ok(step) => step.detector,
        Err(refused) => refused.state,
    }
}

// The state that a settings call gives.
pub fn state_of<D: Detect>(settled: Result<D, Refused<D>>) -> D
    ensures { result ≡ (settled_in settled).detector }
{
    settled.unwrap_or_else(|refused| refused.state)
}

// A luma frame.
pub fn process_luma<D: Detect>(
    d: D,
    plane: &[u8],
    width: u32,
    height: u32,
    stride: u32,
    ts: Timestamp,
    store: &mut [u8],
    scratch: &mut [u8],
    magnitudes: &mut [i32],
) -> Result<Step<D>, Refused<D>>
    ensures called { Called (outcome_of (D.stream d) (D.settings d) (D.bad d) (D.stepped d) (without_score d) (D.cleared d) (luma plane.now width height stride ts (memory store.old scratch.old magnitudes.old))) (answer_in result) (answer_in result).number (memory store.old scratch.old magnitudes.old) (memory store.new scratch.new magnitudes.new) }
    ensures from_sums { FromSums (D.settings d).weights (answer_in result).score (answer_in result).components (answer_in result).sums }
{
    let p = frame_call::process_luma(
        d.stream(),
        d.picture_options(),
        d.is_bad(),
        plane,
        width,
        height,
        stride,
        store,
        scratch,
        magnitudes,
    );
    answer_to(d, ts, p)
}

// A BGR frame.
pub fn process_bgr<D: Detect>(
    d: D,
    pixels: &[u8],
    width: u32,
    height: u32,
    stride: u32,
    ts: Timestamp,
    store: &mut [u8],
    scratch: &mut [u8],
    magnitudes: &mut [i32],
) -> Result<Step<D>, Refused<D>>
    ensures called { Called (outcome_of (D.stream d) (D.settings d) (D.bad d) (D.stepped d) (without_score d) (D.cleared d) (bgr pixels.now width height stride ts (memory store.old scratch.old magnitudes.old))) (answer_in result) (answer_in result).number (memory store.old scratch.old magnitudes.old) (memory store.new scratch.new magnitudes.new) }
    ensures from_sums { FromSums (D.settings d).weights (answer_in result).score (answer_in result).components (answer_in result).sums }
{
    let p = frame_call::process_bgr(
        d.stream(),
        d.picture_options(),
        d.is_bad(),
        pixels,
        width,
        height,
        stride,
        store,
        scratch,
        magnitudes,
    );
    answer_to(d, ts, p)
}

// An HSV frame.
pub fn process_hsv<D: Detect>(
    d: D,
    hue: &[u8],
    saturation: &[u8],
    value: &[u8],
    width: u32,
    height: u32,
    stride: u32,
    ts: Timestamp,
    store: &mut [u8],
    scratch: &mut [u8],
    magnitudes: &mut [i32],
) -> Result<Step<D>, Refused<D>>
    ensures called { Called (outcome_of (D.stream d) (D.settings d) (D.bad d) (D.stepped d) (without_score d) (D.cleared d) (hsv hue.now saturation.now value.now width height stride ts (memory store.old scratch.old magnitudes.old))) (answer_in result) (answer_in result).number (memory store.old scratch.old magnitudes.old) (memory store.new scratch.new magnitudes.new) }
    ensures from_sums { FromSums (D.settings d).weights (answer_in result).score (answer_in result).components (answer_in result).sums }
{
    let p = frame_call::process_hsv(
        d.stream(),
        d.picture_options(),
        d.is_bad(),
        hue,
        saturation,
        value,
        width,
        height,
        stride,
        store,
        scratch,
        magnitudes,
    );
    answer_to(d, ts, p)
}

// The readers refuse nothing and show the record as it is.
pub fn last_score<D: Detect>(d: D) -> Option<f64>
    ensures { result ≡ (D.stream d).last_score }
{
    d.stream().last_score
}

pub fn last_components<D: Detect>(d: D) -> Option<Components>
    ensures { result ≡ (D.stream d).last_components }
{
    d.stream().last_components
}
