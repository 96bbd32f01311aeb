// The frame calls of any detector on frame records (RULES 2.8). A record is taken apart, and the call on plain parameters is made: it checks
// again, so a record that no constructor made, or that its constructor refused, is refused as its planes are.
// Kept, point 5: lent memory goes as three slices, as in the calls that are made.
// Kept, point 2: each of the three is one call, of other fields.
#![tactic(auto)]

ghost use Rattle.stream.specs.Stream.{FromSums};
ghost use Rattle.frame_call.specs.Call.{luma, bgr, hsv, memory, outcome_of, Called};
ghost use Rattle.detector.specs.Answers.{without_score, answer_in};

use detector::{Detect, Step};
use frame_records::{HsvFrame, LumaFrame, RgbFrame};
use refusal::Refused;

// A luma frame.
pub fn process_luma<D: Detect>(
    d: D,
    frame: LumaFrame<'_>,
    store: &mut [u8],
    scratch: &mut [u8],
    magnitudes: &mut [i32],
) -> Result<Step<D>, Refused<D>>
    ensures called { Called (outcome_of (D.stream d) (D.settings d) (D.bad d) (D.stepped d) (without_score d) (D.cleared d) (luma frame.entry.«data».now frame.entry.width frame.entry.height frame.entry.stride frame.entry.timestamp (memory store.old scratch.old magnitudes.old))) (answer_in result) (answer_in result).number (memory store.old scratch.old magnitudes.old) (memory store.new scratch.new magnitudes.new) }
    ensures from_sums { FromSums (D.settings d).weights (answer_in result).score (answer_in result).components (answer_in result).sums }
{
    detector::process_luma(
        d,
        frame.data,
        frame.width,
        frame.height,
        frame.stride,
        frame.timestamp,
        store,
        scratch,
        magnitudes,
    )
}

// A BGR frame.
pub fn process_bgr<D: Detect>(
    d: D,
    frame: RgbFrame<'_>,
    store: &mut [u8],
    scratch: &mut [u8],
    magnitudes: &mut [i32],
) -> Result<Step<D>, Refused<D>>
    ensures called { Called (outcome_of (D.stream d) (D.settings d) (D.bad d) (D.stepped d) (without_score d) (D.cleared d) (bgr frame.entry.«data».now frame.entry.width frame.entry.height frame.entry.stride frame.entry.timestamp (memory store.old scratch.old magnitudes.old))) (answer_in result) (answer_in result).number (memory store.old scratch.old magnitudes.old) (memory store.new scratch.new magnitudes.new) }
    ensures from_sums { FromSums (D.settings d).weights (answer_in result).score (answer_in result).components (answer_in result).sums }
{
    detector::process_bgr(
        d,
        frame.data,
        frame.width,
        frame.height,
        frame.stride,
        frame.timestamp,
        store,
        scratch,
        magnitudes,
    )
}

// An HSV frame.
pub fn process_hsv<D: Detect>(
    d: D,
    frame: HsvFrame<'_>,
    store: &mut [u8],
    scratch: &mut [u8],
    magnitudes: &mut [i32],
) -> Result<Step<D>, Refused<D>>
    ensures called { Called (outcome_of (D.stream d) (D.settings d) (D.bad d) (D.stepped d) (without_score d) (D.cleared d) (hsv frame.entry.h.now frame.entry.s.now frame.entry.v.now frame.entry.width frame.entry.height frame.entry.stride frame.entry.timestamp (memory store.old scratch.old magnitudes.old))) (answer_in result) (answer_in result).number (memory store.old scratch.old magnitudes.old) (memory store.new scratch.new magnitudes.new) }
    ensures from_sums { FromSums (D.settings d).weights (answer_in result).score (answer_in result).components (answer_in result).sums }
{
    detector::process_hsv(
        d,
        frame.h,
        frame.s,
        frame.v,
        frame.width,
        frame.height,
        frame.stride,
        frame.timestamp,
        store,
        scratch,
        magnitudes,
    )
}
