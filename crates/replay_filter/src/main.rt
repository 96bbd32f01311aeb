// Lists of calls of the content detector with 1 × 1 luma frames that score high or 0: its answers, cuts and scores, as
// digests, for the comparison with the Rust (RULES 14.3). compare/README.md states the lists.
// Kept, point 1: an action is a number, as compare/README.md has them: 0 `clear`, 1 a stride of 0, else a frame.
#![tactic(auto)]

ghost use Rattle.std.specs.Prelude.{◌≡◌, ◌<◌, ◌≤◌, [], ◌∷◌};
ghost use Rattle.detector.specs.Answers.{answer_in};
ghost use Rattle.content.specs.State.{cleared_answer, settled};
ghost use Rattle.replay.specs.Digest.{fed, least_first};
ghost use Rattle.replay_filter.specs.Lists.{mode_of, weights_of, minimum_of, options_of, stride_of, answered_of, stamp_of, moved_by, outcome_of, run_after, opened_of, list_of, batch_of};
ghost use Rattle.replay_filter.specs.Answers.{bits_of, cut_fed, score_fed, answer_fed};

use content::{Detector, Options};
use detector::{Detect, Step};
use filter::FilterMode;
use refusal::Refused;
use replay::Digest;
use score::Components;
use std::io;
use timestamp::Timestamp;

// A list on its way: the generator's number, the place of the last stamp, the digest and the detector's state.
#[derive(Clone, Copy)]
struct Run {
    x: u32,
    place: usize,
    digest: Digest,
    detector: Detector,
}

// What a call is lent for frames of 1 × 1.
#[derive(Drop)]
struct Memory {
    store: [u8; 4],
    scratch: [u8; 9],
    magnitudes: [i32; 1],
}

impl Memory {
    fn new() -> Self
        ensures { result.store ≡ 0 ∷ 0 ∷ 0 ∷ 0 ∷ [] }
    {
        Memory {
            store: [0; 4],
            scratch: [0; 9],
            magnitudes: [0; 1],
        }
    }
}

const MINIMA: [u64; 8] = [
    0,
    1,
    2,
    400000,
    1000000,
    9223372036854775808,
    18446744073709551614,
    18446744073709551615,
];

const STAMPS: [i64; 16] = [
    -9223372036854775808,
    -9223372036854775807,
    -9223372036853775808,
    -1000000,
    -1,
    0,
    1,
    2,
    3,
    400000,
    1000000,
    1000001,
    2000000,
    2400000,
    9223372036854775806,
    9223372036854775807,
];

// What `clear` or a frame call answers.
type Answer = Result<Step<Detector>, Refused<Detector>>;

// Kept: `compare_content_lists` has the like for a byte of its records, with a definition of its own. This program does not stand on that crate,
// and what the two make of a byte is stated apart.
fn mode(b: u8) -> FilterMode
    ensures { result ≡ mode_of b }
{
    if b % 2 == 0 {
        FilterMode::Suppress
    } else {
        FilterMode::Merge
    }
}

fn weights(b: u8) -> Components
    ensures { result ≡ weights_of b }
{
    if b % 2 == 0 {
        Components::default()
    } else {
        Components::luma_only()
    }
}

fn minimum(b: u8) -> u64
    ensures { result ≡ minimum_of b }
{
    MINIMA[(b % 8) as usize]
}

// The settings of a list, by its first four draws.
fn options(b1: u8, b2: u8, b3: u8, b4: u8) -> Options
    ensures { result ≡ options_of b1 b2 b3 b4 }
{
    Options::new()
        .with_filter_mode(mode(b1))
        .with_initial_cut(b2 % 2 == 1)
        .with_weights(weights(b3))
        .with_min_duration(minimum(b4))
}

// The 64 bits of a stamp.
// Kept: by the name of the definition.
#[tactic(auto, using(crate::proofs::Bits::cast_bits))]
fn stamp_bits(t: Timestamp) -> u64
    ensures { result ≡ bits_of t.micros }
{
    t.micros.cast_unsigned()
}

// Kept: beside `feed_score`, since `cut_fed` and `score_fed` are two definitions: one function would take as a closure how the value is fed, and be longer.
#[tactic(auto, unfolding(crate::specs::Answers::cut_fed))]
fn feed_cut(d: Digest, cut: Option<Timestamp>) -> Digest
    ensures { result ≡ cut_fed d cut }
{
    match cut {
        None => d.step(0),
        Some(t) => d.step(1).long(stamp_bits(t)),
    }
}

#[tactic(auto, unfolding(crate::specs::Answers::score_fed))]
fn feed_score(d: Digest, score: Option<f64>) -> Digest
    ensures { result ≡ score_fed d score }
{
    match score {
        None => d.step(0),
        Some(value) => d.step(1).double(value),
    }
}

// An answer's number, cut and score.
#[tactic(auto, unfolding(crate::specs::Answers::answer_fed))]
fn feed(d: Digest, a: Answer) -> Digest
    ensures { result ≡ answer_fed d (answer_in a) }
{
    match a {
        Ok(step) => feed_score(feed_cut(d.word(0), step.cut), step.score),
        Err(why) => feed_score(feed_cut(d.word(why.refusal.number()), None), None),
    }
}

// A stride of 0 is refused.
fn stride(action: u8) -> u32
    ensures { result ≡ stride_of action }
{
    if action == 1 { 0 } else { 1 }
}

// `clear`, as a call without a cut and a score.
// Kept: beside that of `compare_lists`, on which this program does not stand.
fn cleared(d: Detector) -> Answer
    ensures { answer_in result ≡ cleared_answer d }
{
    Ok(Step {
        detector: d.clear()?,
        cut: None,
        score: None,
        components: stream::components_shown(None),
        sums: stream::no_sums(),
    })
}

// `clear`, or a frame.
fn answered(d: Detector, action: u8, luma: u8, ts: Timestamp, memory: &mut Memory) -> Answer
    ensures value { answer_in result ≡ (answered_of d action luma ts memory.old.store 9 1).answer }
    ensures store_after { memory.new.store ≡ (answered_of d action luma ts memory.old.store 9 1).store }
{
    if action == 0 {
        cleared(d)
    } else {
        detector::process_luma(
            d,
            &[luma],
            1,
            1,
            stride(action),
            ts,
            &mut memory.store,
            &mut memory.scratch,
            &mut memory.magnitudes,
        )
    }
}

// How far the place of the stamp moves.
fn move_by(b: u8, wide: bool) -> usize
    ensures value { result ≡ moved_by b wide }
    ensures upper_bound { result < 16 }
{
    if wide {
        (b % 16) as usize
    } else {
        (b % 4) as usize
    }
}

fn stamp(place: usize) -> Timestamp
    requires { place < 16 }
    ensures { result ≡ stamp_of place }
{
    Timestamp {
        micros: STAMPS[place],
    }
}

// One call: three draws.
fn call(run: Run, wide: bool, memory: &mut Memory) -> Run
    requires { run.place < 16 }
    ensures value { result ≡ run_after wide run (outcome_of wide run memory.old.store) }
    ensures store_after { memory.new.store ≡ (outcome_of wide run memory.old.store).store }
    ensures place_bound { result.place < 16 }
{
    let x1 = replay::next(run.x);
    let x2 = replay::next(x1);
    let x3 = replay::next(x2);
    let place = (run.place + move_by(replay::byte(x2), wide)) % 16;
    let luma = replay::byte(x3) % 2 * 200;
    let answer = answered(
        run.detector,
        replay::byte(x1) % 16,
        luma,
        stamp(place),
        memory,
    );
    Run {
        x: x3,
        place,
        digest: feed(run.digest, answer),
        detector: detector::state_after(answer),
    }
}

// The number of a settings call, and the state that it leaves.
// Kept: beside `told` of `compare_lists`, on which this program does not stand: the number goes into the digest, and the list on from the state.
fn settled(digest: Digest, o: Options) -> (Digest, Detector)
    ensures { (result.0 ≡ fed digest (least_first 4 (settled o).number)) × (result.1 ≡ (settled o).detector) }
{
    match content::try_new(o) {
        Ok(detector) => (digest.word(0), detector),
        Err(why) => (digest.word(why.refusal.number()), why.state),
    }
}

// A fresh state and the number of the settings call, by the first draws of list x.
fn opened(digest: Digest, x: u32) -> Run
    ensures value { result ≡ opened_of digest x }
    ensures place_bound { result.place < 16 }
{
    let x1 = replay::next(x);
    let x2 = replay::next(x1);
    let x3 = replay::next(x2);
    let x4 = replay::next(x3);
    let x5 = replay::next(x4);
    let o = options(
        replay::byte(x1),
        replay::byte(x2),
        replay::byte(x3),
        replay::byte(x4),
    );
    let (digest, detector) = settled(digest, o);
    Run {
        x: x5,
        place: (replay::byte(x5) % 16) as usize,
        digest,
        detector,
    }
}

// List x: 24 calls on one state. Stamps of an odd list jump about, those of an even one mostly rise.
fn list(digest: Digest, x: u32) -> Digest
    ensures { result ≡ list_of digest x }
{
    let mut memory = Memory::new();
    let wide = x % 2 == 1;
    let mut run = opened(digest, x);
    for _ in 0..24u8 {
        run = call(run, wide, &mut memory);
    }
    run.digest
}

// The lists 256b to 256b + 255.
#[tactic(auto, unfolding(crate::specs::Lists::batch_of))]
fn batch(b: u32) -> Digest
    requires { b ≤ 16 }
    ensures { result ≡ batch_of b 256 }
{
    let mut d = Digest::empty();
    for c in 0..256 {
        d = list(d, b * 256 + c);
    }
    d
}

// The batches 0 to 15, a line each.
fn lines(rt: &impl Print, name: &str) -> io::Result<()> {
    for b in 0..16u32 {
        replay::print_line(rt, name, b as u64, batch(b).value())?;
    }
    Ok(())
}

// One frame of a list that has a name.
fn frame(run: Run, luma: u8, micros: i64, memory: &mut Memory) -> Run {
    let answer = answered(run.detector, 2, luma, Timestamp { micros }, memory);
    Run {
        digest: feed(run.digest, answer),
        detector: detector::state_after(answer),
        ..run
    }
}

// A frame of luma 0 at 0, then one more.
fn two(run: Run, luma: u8, micros: i64, memory: &mut Memory) -> Run {
    let first = frame(run, 0, 0, memory);
    frame(first, luma, micros, memory)
}

// Frames at 0, 1, 0 and at `last`, of luma 0, 200, 0 and `luma`.
fn four(o: Options, luma: u8, last: i64, memory: &mut Memory) -> Digest {
    let (digest, detector) = settled(Digest::empty(), o);
    let run = Run {
        x: 0,
        place: 0,
        digest,
        detector,
    };
    let half = two(run, 200, 1, memory);
    two(half, luma, last, memory).digest
}

fn falling(o: Options, luma: u8, last: i64) -> Digest {
    let mut memory = Memory::new();
    four(o, luma, last, &mut memory)
}

// Merge with falling stamps: cuts nearer than the minimum, and a cut before the first allowed stamp.
fn falls(rt: &impl Print) -> io::Result<()> {
    let near = falling(options(1, 1, 1, 0), 0, 0);
    replay::print_line(rt, "near", 4, near.value())?;
    let early = falling(options(1, 0, 1, 1), 200, 1);
    replay::print_line(rt, "early", 4, early.value())
}

fn main(rt: HostRuntime) -> io::Result<()> {
    lines(&rt, "filter")?;
    falls(&rt)
}
