// Lists of calls made by the generator: a digest for each batch of 256 lists.
ghost use Rattle.std.specs.Prelude.{◌≡◌, length, take};
ghost use Rattle.replay.specs.Digest.{fed};
ghost use Rattle.replay.specs.Generator.{after};
ghost use Rattle.compare_lists.specs.Fed.{FedWritten};

use crate::calls::{self, Lists};
use detector::Detect;
use replay::{Digest, Run};
use std::io;

// The first n bytes of out, or all where there are fewer.
// Kept: no heap: lent memory, and how much of it is written.
fn feed_first(d: Digest, out: &[u8], n: usize) -> Digest
    ensures { result ≡ fed d (take n out.now) }
{
    d.feed(&out[..n.min(out.len())])
}

// One list: the digest goes on with what the calls wrote down, and the generator by the bytes of the script.
fn list<D: Detect, L: Lists<D>>(lists: L, run: Run, script: &mut [u8], out: &mut [u8]) -> Run
    ensures number { result.x ≡ after (length script.old) run.x }
    ensures digest { FedWritten run.digest out.old out.new result.digest }
{
    let x = replay::fill(script, run.x, 0);
    let n = calls::run(lists, script, out);
    Run {
        x,
        digest: feed_first(run.digest, out, n),
    }
}

// 256 lists, from x: their digest, and the generator's number after them. List c has as many calls as `count` says of c, up to 240.
fn batch<D: Detect, L: Lists<D>, C: Fn(usize) -> usize>(
    lists: L,
    count: &C,
    x: u32,
    out: &mut [u8],
) -> Run
    requires { C.IsAlwaysCallable count.now }
{
    let mut script = [0u8; 3856];
    let mut run = Run {
        x,
        digest: Digest::empty(),
    };
    for c in 0..256 {
        let records = count(c).min(240) + 1;
        run = list(lists, run, &mut script[..records * 16], out);
    }
    run
}

// Prints 80 batches, one after the other. It has no `ensures`: what a terminal gets no contract can say.
pub fn print<D: Detect, L: Lists<D>, C: Fn(usize) -> usize>(
    rt: &impl Print,
    lists: L,
    count: C,
) -> io::Result<()>
    requires { C.IsAlwaysCallable count }
{
    let mut out = [0u8; 160000];
    let mut x = 0;
    for b in 0..80 {
        let run = batch(lists, &count, x, &mut out);
        x = run.x;
        replay::print_line(rt, "lists", b, run.digest.value())?;
    }
    Ok(())
}
