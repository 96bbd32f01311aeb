// Clip cuts (RULES 11): reads frame lines on standard input to its end and writes the answers to standard output as it goes.
#![tactic(auto)]

ghost use Rattle.std.specs.Prelude.{◌≡◌, IfOk, IfSome, OnOk};
ghost use Rattle.session.specs.Feeding.{fed};
ghost use Rattle.session.specs.Sessions.{state_of, last_state};
ghost use Rattle.cuts.specs.Reads.{goes_on, AfterRead, FedSome};

use session::{ROOM, Session};
use std::io;
use std::io::Read;

// A proved loop has to end, and nothing says that an input does: no run makes so many reads.
const MOST_READS: u64 = u64::MAX;

// The length of a chunk, and of the buffer of the text.
const BUFFER: usize = 65536;

// Feeds a whole chunk: where the text of its lines fills `out`, it is written, and the rest of the chunk is fed again. Where a write fails,
// any state is right, since the run ends: its error is handed on to `main`, which says it. Any content of `out` is right, here and below.
fn feed_chunk(
    rt: &impl Print,
    session: &mut Session,
    chunk: &[u8],
    out: &mut [u8; BUFFER],
) -> io::Result<()>
    ensures { OnOk result (state_of session.new ≡ fed (state_of session.old) chunk.now) }
{
    let mut taken = 0;
    // Kept: how much of the rest is taken each time is told by `feed` alone, so that no range or iterator is plainer.
    while taken < chunk.len() {
        let f = session.feed(&chunk[taken..], out);
        rt.write_all(&out[..f.written])?;
        taken += f.taken;
    }
    Ok(())
}

// The end of the input: the last line, if no line feed ended it.
fn finish(rt: &impl Print, session: &mut Session) -> io::Result<()>
    ensures { state_of session.new ≡ last_state (state_of session.old) }
{
    let mut out = [0u8; ROOM];
    let written = session.finish(&mut out);
    rt.write_all(&out[..written])
}

// What follows a read that gave `got`, none where it failed, and left its bytes at the start of `chunk`: all of them are fed, and never more
// than there are. Where nothing came the input has ended; where the read failed, nothing is fed. Gives how many came.
#[tactic(auto, unfolding(crate::specs::Reads::after_read))]
fn take_read(
    rt: &impl Print,
    session: &mut Session,
    got: Option<usize>,
    chunk: &[u8],
    out: &mut [u8; BUFFER],
) -> io::Result<usize>
    ensures { IfOk result (λ count. AfterRead (state_of session.old) got chunk.now (state_of session.new) count) }
{
    let Some(n) = got else { return Ok(0) };
    let count = n.min(chunk.len());
    if count == 0 {
        finish(rt, session)?;
    } else {
        feed_chunk(rt, session, &chunk[..count], out)?;
    }
    Ok(count)
}

// Reads into the start of `chunk`: how many bytes came, or none where the read failed, and says why it did.
fn read_chunk(rt: &impl Eprint, input: &mut impl Read, chunk: &mut [u8]) -> Option<usize> {
    match input.read(chunk) {
        Ok(n) => Some(n),
        Err(e) => {
            let _ = eprintln!(rt; "standard input: {e}");
            None
        }
    }
}

// Reads once. What came is the input's: no contract can say that `got` is what the read gave.
fn read_some(
    rt: &(impl Print + Eprint),
    input: &mut impl Read,
    session: &mut Session,
    chunk: &mut [u8],
    out: &mut [u8; BUFFER],
) -> io::Result<usize>
    ensures { IfOk result (λ count. FedSome (state_of session.old) chunk.new (state_of session.new) count) }
{
    let got = read_chunk(rt, input, chunk);
    take_read(rt, session, got, chunk, out)
}

// Whether to read again after a read: until one gives no bytes, or a write fails.
fn goes_on(read: &io::Result<usize>) -> bool
    ensures { result ≡ goes_on read.now }
{
    match read {
        Ok(count) => *count > 0,
        Err(_) => false,
    }
}

// Writes the first line, then reads and feeds to the end of the input. Gives after how many reads there is more to read, none where the input
// has ended: there is more only after the most reads. What was read before is overwritten, so this contract cannot speak of the whole input;
// `session::run` does, on memory.
fn run(
    rt: &(impl Print + Eprint),
    input: &mut impl Read,
    chunk: &mut [u8],
    out: &mut [u8; BUFFER],
) -> io::Result<Option<u64>>
    ensures { IfOk result (λ more. IfSome more (λ reads. reads ≡ 18446744073709551615)) }
{
    rt.write_all(&session::header())?;
    let mut session = Session::new();
    // Kept: `for _ in reads.by_ref()` of a range and its `start` in place of this count was tried, and the proof of the last `start` did not close.
    let mut reads = 0;
    for _ in 0..MOST_READS {
        let read = read_some(rt, input, &mut session, chunk, out);
        reads += 1;
        if !goes_on(&read) {
            return read.map(|_| None);
        }
    }
    Ok(Some(reads))
}

fn main(rt: HostRuntime) -> io::Result<()> {
    let mut chunk = [0u8; BUFFER];
    let mut out = [0u8; BUFFER];
    match run(&rt, &mut rt.stdin(), &mut chunk, &mut out) {
        Ok(None) => Ok(()),
        Ok(Some(_)) => eprintln!(rt; "standard input: too many reads"),
        Err(e) => {
            let _ = eprintln!(rt; "standard output: {e}");
            Ok(())
        }
    }
}
