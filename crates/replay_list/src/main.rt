// Lists of operations on the list of a sitting, made by the generator: a digest for each batch of 64 lists. compare/README.md states them:
// "Lists of operations" the records that describe a list, "Replays" what the digest takes.
// Kept, point 5: list, memory and stamps go one by one, as `cut_list` takes them, and the digest beside them.
#![tactic(auto)]

mod input;
mod numbers;
mod starts;

use cut_list::{CutList, StampsWithin};
use input::Kind;
use refusal::{Refusal, Refused};
use replay::Digest;
use std::io;
use timestamp::Timestamp;

// What an operation leaves: why it was refused, if it was, the record, and the digest with number and answer.
// Kept: a reader that is refused hands back no list, and an operation that is refused goes on with one.
#[derive(Clone, Copy)]
struct Done {
    refusal: Option<Refusal>,
    list: CutList,
    digest: Digest,
}

// An operation's number: its refusal's, or 0.
// Kept: beside `replay::number`, of a refusal that may be missing: a reader's value goes on beside it.
fn feed_number(d: Digest, refusal: Option<Refusal>) -> Digest {
    d.word(refusal.map_or(0, |why| why.number()))
}

fn changed(change: Result<CutList, Refused<CutList>>, d: Digest) -> Done {
    let (refusal, list) = match change {
        Ok(list) => (None, list),
        Err(why) => (Some(why.refusal), why.state),
    };
    Done {
        refusal,
        list,
        digest: feed_number(d, refusal),
    }
}

// Kept: beside `feed_cut` of `replay_filter`, which feeds a stamp by its bits, and this one by `raised`.
fn feed_nearest(d: Digest, nearest: Option<Timestamp>) -> Digest {
    match nearest {
        None => d.step(0),
        Some(t) => d.step(1).long(numbers::raised(t)),
    }
}

fn nearest(list: CutList, memory: &[i64], ts: Timestamp, d: Digest) -> Done {
    let answer = cut_list::nearest(list, memory, ts);
    let refusal = answer.err();
    let nearest = answer.unwrap_or(None);
    Done {
        refusal,
        list,
        digest: feed_nearest(feed_number(d, refusal), nearest),
    }
}

fn span(list: CutList, memory: &[i64], from: Timestamp, to: Timestamp, d: Digest) -> Done {
    let answer = cut_list::span(list, memory, from, to);
    let refusal = answer.err();
    let within = answer.unwrap_or(StampsWithin { first: 0, count: 0 });
    let digest = feed_number(d, refusal)
        .long(within.first as u64)
        .long(within.count as u64);
    Done {
        refusal,
        list,
        digest,
    }
}

fn clip(list: CutList, memory: &[i64], ts: Timestamp, d: Digest) -> Done {
    let answer = cut_list::clip(list, memory, ts);
    let refusal = answer.err();
    let clip = answer.unwrap_or(0);
    Done {
        refusal,
        list,
        digest: feed_number(d, refusal).long(clip as u64),
    }
}

// An operation of this kind on the list, with its number and answer in the digest.
fn operate(k: Kind, list: CutList, memory: &mut [i64], a: u64, b: u64, d: Digest) -> Done {
    let ts = numbers::stamp(a);
    match k {
        Kind::Add => changed(cut_list::add(list, memory, ts), d),
        Kind::Remove => changed(cut_list::remove(list, memory, ts), d),
        Kind::Empty => changed(cut_list::empty(list, memory), d),
        Kind::Nearest => nearest(list, memory, ts, d),
        Kind::Span => span(list, memory, ts, numbers::stamp(b), d),
        Kind::Clip => clip(list, memory, ts, d),
    }
}

// The record that an operation leaves, and all places of the memory.
fn feed(d: Digest, list: CutList, memory: &[i64]) -> Digest {
    let mut sums = d.long(list.min_duration).long(list.count as u64);
    for micros in memory {
        sums = sums.long(numbers::raised(Timestamp { micros: *micros }));
    }
    sums
}

// A list of operations on its way: the generator's number, whether stamps are mostly added, the record and the digest.
#[derive(Clone, Copy)]
struct Run {
    x: u32,
    fills: bool,
    list: CutList,
    digest: Digest,
}

// The operation that a record describes, at times with a fault: what it leaves, with the list's record and places in the digest.
fn attempt(run: Run, r: &[u8; 32], memory: &mut [i64; 600]) -> Done {
    let a = input::aimed(r, 8, run.fills, run.list.min_duration, memory);
    let b = input::other(r, a, run.fills, run.list.min_duration, memory);
    let given = input::place_given(r, run.list.min_duration, memory);
    memory[input::faulty_place(r)] = numbers::stamp(given).micros;
    let done = operate(
        input::kind_of(r, run.fills),
        input::given(r, run.list),
        &mut memory[..input::lent(r)],
        a,
        b,
        run.digest,
    );
    Done {
        digest: feed(done.digest, done.list, memory),
        ..done
    }
}

// The same in a list of operations. After a 15 the list goes on from what was there before the fault.
fn operation(run: Run, r: &[u8; 32], memory: &mut [i64; 600]) -> Run {
    let p = input::faulty_place(r);
    let kept = memory[p];
    let done = attempt(run, r, memory);
    let list = if done.refusal == Some(Refusal::BadState) {
        memory[p] = kept;
        run.list
    } else {
        done.list
    };
    Run {
        list,
        digest: done.digest,
        ..run
    }
}

// The next record of the generator, and the operation that it describes.
fn next(run: Run, memory: &mut [i64; 600]) -> Run {
    let mut r = [0u8; 32];
    let x = replay::fill(&mut r, run.x, 0);
    operation(Run { x, ..run }, &r, memory)
}

// The start of a list of operations, by the next record of the generator.
fn start(x: u32, digest: Digest, memory: &mut [i64; 600]) -> Run {
    let mut r = [0u8; 32];
    let x = replay::fill(&mut r, x, 0);
    let minimum = starts::minimum(&r);
    let count = starts::count(&r);
    let step = starts::step(&r, minimum);
    starts::fill(memory, starts::first(&r, step, count), step);
    Run {
        x,
        fills: r[14] % 4 == 0,
        list: starts::opened(minimum, count),
        digest,
    }
}

// A list of n operations.
fn list(x: u32, digest: Digest, n: u32, memory: &mut [i64; 600]) -> Run {
    let mut run = start(x, digest, memory);
    for _ in 0..n {
        run = next(run, memory);
    }
    run
}

// 64 lists, from x: of 24 operations each, and the last of 1,000.
fn batch(x: u32, memory: &mut [i64; 600]) -> Run {
    let mut run = Run {
        x,
        fills: false,
        list: cut_list::new(0),
        digest: Digest::empty(),
    };
    for _ in 0..63 {
        run = list(run.x, run.digest, 24, memory);
    }
    list(run.x, run.digest, 1000, memory)
}

// 16 batches, one after the other.
fn main(rt: HostRuntime) -> io::Result<()> {
    let mut memory = [0i64; 600];
    let mut x = 0;
    for b in 0..16 {
        let run = batch(x, &mut memory);
        x = run.x;
        replay::print_line(&rt, "list", b, run.digest.value())?;
    }
    Ok(())
}
