// A list of calls of either detector, run from the fresh state on memory of its own. What each call brings is written out as bytes.
ghost use Rattle.std.specs.Prelude.{◌≡◌, Bool, List, ℕ, Ok};
ghost use Rattle.detector.specs.Answers.{Settled, answer_in, settled_in, without_score};
ghost use Rattle.compare_lists.specs.Records.{given_to, kept_after};
ghost use Rattle.compare_lists.specs.Wrote.{Wrote, Written};

use crate::input::{self, Record, Size};
use crate::memory::{self, Memory, Numbers};
use crate::output::{self, Output, Put};
use detector::{Detect, Step};
use refusal::Refused;
use timestamp::Timestamp;

// What the lists of calls of one detector have of their own.
pub trait Lists<D: Detect>: Copy {
    // What the settings call of a list returns.
    ghost settled: { Self → List ℕ → Settled D };

    // Whether a call of this kind is a `clear`, by its byte r[3].
    ghost clears: { Self → ℕ → ℕ → Bool };

    // A bad record, by the byte r[14] of its call.
    ghost spoiled: { Self → D → ℕ → D };

    fn settled(self, script: &[u8]) -> Result<D, Refused<D>>
        ensures { settled_in result ≡ settled self script.now };

    fn is_clear(self, kind: u32, b: u32) -> bool
        ensures { result ≡ clears self kind b };

    fn spoiled(self, d: D, b: u32) -> D
        ensures { result ≡ spoiled self d b };

    // What is written of the state besides what the readers of both detectors show.
    fn put_state(self, out: &mut Output<'_>, d: D)
        ensures { Written out.old out.new };
}

// A step that shows neither cut, score nor sums.
// Kept: beside `cleared` of `replay_filter`, which does not stand on this crate.
pub(crate) fn quiet<D: Detect>(detector: D) -> Step<D>
    ensures { answer_in (Ok result) ≡ without_score detector 0 }
{
    Step {
        detector,
        cut: None,
        score: None,
        components: stream::components_shown(None),
        sums: stream::no_sums(),
    }
}

// The number of a settings call, and the state that it leaves.
// Kept: both are needed: the number is written down, and the list goes on from the state.
pub fn told<D: Copy>(settled: Result<D, Refused<D>>) -> (u32, D)
    ensures number { result.0 ≡ (settled_in settled).number }
    ensures state { result.1 ≡ (settled_in settled).detector }
{
    match settled {
        Ok(state) => (0, state),
        Err(refused) => (refused.refusal.number(), refused.state),
    }
}

// `clear` as a call like the others.
// Kept: by cases, as `answer_in` is.
fn clear<D: Detect>(d: D) -> Result<Step<D>, Refused<D>>
    ensures { answer_in result ≡ D.cleared d }
{
    match d.clear() {
        Ok(detector) => Ok(quiet(detector)),
        Err(refused) => Err(refused),
    }
}

// A frame call with as much of each memory as the frame lends: kinds to 10 are luma, 11 to 20 BGR and the others HSV.
// Kept: a kind is a byte of the record, whose ranges compare/README.md gives.
fn frame_call<D: Detect>(
    d: D,
    kind: u32,
    f: Numbers,
    ts: Timestamp,
    memory: &mut Memory,
) -> Result<Step<D>, Refused<D>> {
    let hue = &memory.planes.hue[..f.data.min(5120)];
    let saturation = &memory.planes.saturation[..f.saturation.min(5120)];
    let value = &memory.planes.value[..f.value.min(5120)];
    // Kept: each field whole, and then its part: `&mut memory.store[..n]` (tried) is not covered by the checker of borrows.
    let store = &mut memory.store[..];
    let store = &mut store[..f.store.min(6528)];
    let scratch = &mut memory.scratch[..];
    let scratch = &mut scratch[..f.scratch.min(11520)];
    let magnitudes = &mut memory.magnitudes[..];
    let magnitudes = &mut magnitudes[..f.magnitudes.min(1664)];
    match kind {
        0..=10 => detector::process_luma(
            d, hue, f.width, f.height, f.stride, ts, store, scratch, magnitudes,
        ),
        11..=20 => detector::process_bgr(
            d, hue, f.width, f.height, f.stride, ts, store, scratch, magnitudes,
        ),
        _ => detector::process_hsv(
            d, hue, saturation, value, f.width, f.height, f.stride, ts, store, scratch, magnitudes,
        ),
    }
}

// A list on its way: the state, the size of its frames and the clock.
#[derive(Clone, Copy)]
struct List<L, D> {
    lists: L,
    state: D,
    size: Size,
    clock: u64,
}

impl<L: Lists<D>, D: Detect> List<L, D> {
    // The state that a call is handed.
    #[tactic(auto, unfolding(crate::specs::Records::given_to))]
    fn given(self, r: Record<'_>) -> D
        ensures { result ≡ given_to (L.spoiled self.lists) self.state r.entry.script.now r.entry.i }
    {
        if input::is_foreign(r) {
            self.lists.spoiled(self.state, r.byte(14))
        } else {
            self.state
        }
    }

    // The state after a call: what it left, or the one before it where it was handed a bad record.
    #[tactic(auto, unfolding(crate::specs::Records::kept_after))]
    fn kept(self, next: D, r: Record<'_>) -> D
        ensures { result ≡ kept_after self.state next r.entry.script.now r.entry.i }
    {
        if input::is_foreign(r) {
            self.state
        } else {
            next
        }
    }

    // A call: `clear`, or a frame call once the planes are refilled.
    fn call(self, r: Record<'_>, memory: &mut Memory) -> Result<Step<D>, Refused<D>> {
        let kind = r.byte(0) % 32;
        let d = self.given(r);
        if self.lists.is_clear(kind, r.byte(3)) {
            clear(d)
        } else {
            let f = memory::frame(self.size, r);
            memory::refill(
                r,
                f.need,
                &mut memory.planes.hue,
                &mut memory.planes.saturation,
                &mut memory.planes.value,
            );
            frame_call(d, kind, f, input::stamp(self.clock), memory)
        }
    }

    // The answer, what the readers show of the state after the call, and the store.
    fn report(self, answer: Result<Step<D>, Refused<D>>, store: &[u8], out: &mut Output<'_>)
        ensures { Written out.old out.new }
    {
        let (number, step) = match answer {
            Ok(step) => (0, step),
            Err(refused) => (refused.refusal.number(), quiet(refused.state)),
        };
        output::put_answer(
            out,
            number,
            step.cut,
            step.score,
            step.components,
            step.sums,
        );
        let stream = self.state.stream();
        output::put_last(
            out,
            detector::last_score(self.state),
            detector::last_components(self.state),
        );
        self.lists.put_state(out, self.state);
        output::put_store(out, stream.width, stream.height, store);
    }

    // A call, written down.
    fn turn(self, r: Record<'_>, memory: &mut Memory, out: &mut Output<'_>) -> Self
        ensures { Written out.old out.new }
    {
        let before = List {
            size: input::next_size(self.size, r),
            clock: input::next_clock(self.clock, r),
            ..self
        };
        let answer = before.call(r, memory);
        let after = List {
            state: before.kept(detector::state_after(answer), r),
            ..before
        };
        after.report(answer, &memory.store, out);
        after
    }

    // The calls of the list.
    fn calls(self, script: &[u8], out: &mut Output<'_>)
        ensures { Written out.old out.new }
    {
        let mut memory = Memory::new();
        let mut list = self;
        for i in 1..(script.len() / 16).min(65536) {
            list = list.turn(Record { script, i }, &mut memory, out);
        }
    }
}

// Runs a list, of at most 65,536 records. Returns how many bytes of out it wrote: what does not fit is left out, and the others stay.
// Kept: no heap: lent memory, and how much of it is written.
pub fn run<D: Detect, L: Lists<D>>(lists: L, script: &[u8], out: &mut [u8]) -> usize
    ensures { Wrote out.old out.new 0 result }
{
    let (number, state) = told(lists.settled(script));
    let list = List {
        lists,
        state,
        size: input::first_size(script),
        clock: 9223372036854775807,
    };
    let mut out = Output { bytes: out, at: 0 };
    number.put(&mut out);
    list.calls(script, &mut out);
    out.at
}
