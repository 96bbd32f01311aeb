// The calls of any detector on lent words: its state is the N words of its record, as a layout R has them, its answer 13. What is not a record
// is refused by 15.
// Kept, point 1: the C interface returns a refusal's number, or 0, and passes the place of a component as a number.
// Kept, point 2: luma, BGR and HSV have calls of their own names, as in C; what they share is `finish`. A reader for each of C's names.
// Kept, point 5: the C interface passes a frame and the lent memory one by one.
ghost use Rattle.std.specs.Prelude.{◌≡◌};
ghost use Rattle.words.specs.Choices.{score_tag, components_tag};
ghost use Rattle.stream.specs.Stream.{components_shown};
ghost use Rattle.frame_call.specs.Call.{luma, bgr, hsv, clear, memory};
ghost use Rattle.detector.specs.Answers.{answer_in, settled_in};
ghost use Rattle.station_answer.specs.Answer.{stamp, answer_words, ReadAs, after, score_shown, component_at};
ghost use Rattle.station_answer.specs.Promises.{FrameContract, ClearContract, SettingsContract};
ghost use Rattle.station_answer.specs.Calls.{layout, brought, started_by};

use detector::{Detect, Step};
use refusal::Refused;
use timestamp::Timestamp;
use words::Recorded;

// An accepted frame: its new state, which reads back, and its answer are written. A refused one changes no word.
fn finish<R: Recorded<N>, const N: usize>(
    state: &mut [u64; N],
    answer: &mut [u64; 13],
    r: Result<Step<R::State>, Refused<R::State>>,
) -> u32
    requires { R.tidied (answer_in r).detector ≡ (answer_in r).detector }
    ensures number { result ≡ (answer_in r).number }
    ensures state_after { state.new ≡ after result (R.words_of (answer_in r).detector) state.old }
    ensures state_back { result ≡ 0 → R.held_by state.new ≡ (answer_in r).detector }
    ensures answer_after { answer.new ≡ after result (answer_words (answer_in r).cut (answer_in r).score (answer_in r).components (answer_in r).sums) answer.old }
    ensures answer_back { result ≡ 0 → ReadAs (answer_in r).cut (answer_in r).score (answer_in r).components (answer_in r).sums answer.new }
{
    match r {
        Ok(step) => {
            R::write(step.detector, state);
            *answer = crate::answer_words(step.cut, step.score, step.components, step.sums);
            0
        }
        Err(refused) => refused.refusal.number(),
    }
}

// A luma frame.
#[tactic(auto, using(crate::proofs::Tidied::answer_tidied))]
pub fn process_luma<R: Recorded<N>, const N: usize>(
    state: &mut [u64; N],
    answer: &mut [u64; 13],
    plane: &[u8],
    width: u32,
    height: u32,
    stride: u32,
    ts: i64,
    store: &mut [u8],
    scratch: &mut [u8],
    magnitudes: &mut [i32],
) -> u32
    ensures { FrameContract (layout R.words_of R.held_by R.State.settings) (brought R.State.stream R.State.settings R.State.bad R.State.stepped R.State.cleared (R.held_by state.old) (luma plane.now width height stride (stamp ts) (memory store.old scratch.old magnitudes.old))) result state.old state.new answer.old answer.new (memory store.old scratch.old magnitudes.old) (memory store.new scratch.new magnitudes.new) }
{
    let r = detector::process_luma(
        R::read(state),
        plane,
        width,
        height,
        stride,
        Timestamp { micros: ts },
        store,
        scratch,
        magnitudes,
    );
    finish::<R, N>(state, answer, r)
}

// A BGR frame.
#[tactic(auto, using(crate::proofs::Tidied::answer_tidied))]
pub fn process_bgr<R: Recorded<N>, const N: usize>(
    state: &mut [u64; N],
    answer: &mut [u64; 13],
    pixels: &[u8],
    width: u32,
    height: u32,
    stride: u32,
    ts: i64,
    store: &mut [u8],
    scratch: &mut [u8],
    magnitudes: &mut [i32],
) -> u32
    ensures { FrameContract (layout R.words_of R.held_by R.State.settings) (brought R.State.stream R.State.settings R.State.bad R.State.stepped R.State.cleared (R.held_by state.old) (bgr pixels.now width height stride (stamp ts) (memory store.old scratch.old magnitudes.old))) result state.old state.new answer.old answer.new (memory store.old scratch.old magnitudes.old) (memory store.new scratch.new magnitudes.new) }
{
    let r = detector::process_bgr(
        R::read(state),
        pixels,
        width,
        height,
        stride,
        Timestamp { micros: ts },
        store,
        scratch,
        magnitudes,
    );
    finish::<R, N>(state, answer, r)
}

// An HSV frame.
#[tactic(auto, using(crate::proofs::Tidied::answer_tidied))]
pub fn process_hsv<R: Recorded<N>, const N: usize>(
    state: &mut [u64; N],
    answer: &mut [u64; 13],
    hue: &[u8],
    saturation: &[u8],
    value: &[u8],
    width: u32,
    height: u32,
    stride: u32,
    ts: i64,
    store: &mut [u8],
    scratch: &mut [u8],
    magnitudes: &mut [i32],
) -> u32
    ensures { FrameContract (layout R.words_of R.held_by R.State.settings) (brought R.State.stream R.State.settings R.State.bad R.State.stepped R.State.cleared (R.held_by state.old) (hsv hue.now saturation.now value.now width height stride (stamp ts) (memory store.old scratch.old magnitudes.old))) result state.old state.new answer.old answer.new (memory store.old scratch.old magnitudes.old) (memory store.new scratch.new magnitudes.new) }
{
    let r = detector::process_hsv(
        R::read(state),
        hue,
        saturation,
        value,
        width,
        height,
        stride,
        Timestamp { micros: ts },
        store,
        scratch,
        magnitudes,
    );
    finish::<R, N>(state, answer, r)
}

// Forgets the stream: settings and size stay, all else is as at the start.
pub fn clear<R: Recorded<N>, const N: usize>(state: &mut [u64; N]) -> u32
    ensures { ClearContract (layout R.words_of R.held_by R.State.settings) (brought R.State.stream R.State.settings R.State.bad R.State.stepped R.State.cleared (R.held_by state.old) clear) result state.old state.new }
{
    match R::read(state).clear() {
        Ok(d) => {
            R::write(d, state);
            0
        }
        Err(kept) => kept.refusal.number(),
    }
}

// What a settings call gives: a fresh state, which reads back, with the defaults where the settings are refused.
pub fn settle<R: Recorded<N>, const N: usize>(
    state: &mut [u64; N],
    r: Result<R::State, Refused<R::State>>,
) -> u32
    requires { R.tidied (settled_in r).detector ≡ (settled_in r).detector }
    ensures { SettingsContract (layout R.words_of R.held_by R.State.settings) (started_by (settled_in r)) result state.new }
{
    match r {
        Ok(d) => {
            R::write(d, state);
            0
        }
        Err(
            Refused {
                refusal,
                state: defaults,
            },
        ) => {
            R::write(defaults, state);
            refusal.number()
        }
    }
}

// The readers refuse nothing and show the record as it is. Whether there is a last score: 1 or 0.
pub fn has_score<R: Recorded<N>, const N: usize>(state: &[u64; N]) -> u32
    ensures { result ≡ score_tag (R.State.stream (R.held_by state.now)).last_score }
{
    crate::has(detector::last_score(R::read(state)))
}

// The last score, or 0.0.
pub fn last_score<R: Recorded<N>, const N: usize>(state: &[u64; N]) -> f64
    ensures { result ≡ score_shown (R.State.stream (R.held_by state.now)).last_score }
{
    crate::score_shown(detector::last_score(R::read(state)))
}

// Whether there are last components: 1 or 0.
pub fn has_components<R: Recorded<N>, const N: usize>(state: &[u64; N]) -> u32
    ensures { result ≡ components_tag (R.State.stream (R.held_by state.now)).last_components }
{
    crate::has(detector::last_components(R::read(state)))
}

// One of the last components, or 0.0: 0 is hue, 1 saturation, 2 luma, 3 edges.
pub fn last_component<R: Recorded<N>, const N: usize>(state: &[u64; N], place: u32) -> f64
    ensures { result ≡ component_at (components_shown (R.State.stream (R.held_by state.now)).last_components) place }
{
    crate::component_at(detector::last_components(R::read(state)), place)
}
