// Further inputs of the session, all on standard input as one session: every rule of refusal 16, both ends of the limits. It prints the
// output, and up to which chunk size the output was the same byte for byte.
// Kept, point 6: no heap: a buffer, and how much of it is text.
#![tactic(auto)]

ghost use Rattle.std.specs.Prelude.{◌≤◌, length, IfOk};

use std::io;
use std::io::Read;

// The chunk sizes that are tried, and the room for the input and for each output.
const MOST_SIZE: usize = 300;

const INPUT: usize = 131072;

const OUTPUT: usize = 65536;

// Whether chunks of this size bring the same output.
fn agrees(input: &[u8], size: usize, text: &[u8], other: &mut [u8]) -> bool {
    session::run(input, size, other) == Some(text.len()) && other.starts_with(text)
}

// The first chunk size from 1 on that brings another output, or one more than the most.
// Kept: each size is tried by writing to `other`, and the size after the last is told where all agree.
fn first_other(input: &[u8], text: &[u8], other: &mut [u8]) -> u64 {
    for size in 1..=MOST_SIZE {
        if !agrees(input, size, text, other) {
            return size as u64;
        }
    }
    MOST_SIZE as u64 + 1
}

fn report(rt: &impl Print, input: &[u8], out: &mut [u8], other: &mut [u8]) -> io::Result<()> {
    if let Some(n) = session::run(input, 0, out)
        && let Some(text) = out.get(..n)
    {
        rt.write_all(text)?;
        let size = first_other(input, text, other);
        println!(rt; "the same in chunks of each size below {size}")?;
    }
    Ok(())
}

// Reads until `buf` is full or the input ends, and says how many bytes came.
fn read_full(input: &mut impl Read, buf: &mut [u8]) -> io::Result<usize>
    ensures { IfOk result (λ n. n ≤ length buf.new) }
{
    let mut done = 0;
    // Kept: no `for` fits, since each turn takes as many bytes as a read gave.
    while done < buf.len() {
        let n = input.read(&mut buf[done..])?;
        if n == 0 {
            return Ok(done);
        }
        done += n;
    }
    Ok(done)
}

fn main(rt: HostRuntime) -> io::Result<()> {
    let mut input = [0u8; INPUT];
    let mut out = [0u8; OUTPUT];
    let mut other = [0u8; OUTPUT];
    let n = read_full(&mut rt.stdin(), &mut input)?;
    report(&rt, &input[..n], &mut out, &mut other)
}
