// The session program on slices (RULES 11): bytes of frame lines in, bytes of answers out. The input comes in chunks of any sizes; a
// session owns its memory, and is left by each call as the next one takes it.
// Kept, point 5: each function asks for its own room, of 64, 21 or 0 bytes, which a ghost field could not say.
// Kept, point 6: no heap: lent memory, and how much of it is text.
#![tactic(auto)]

ghost use Rattle.std.specs.Prelude.{◌≡◌, [], ◌∷◌, ◌++◌, ◌+◌, ◌-◌, ◌*◌, ◌≤◌, ◌<◌, length, take};
ghost use Rattle.decimal.specs.Placed.{HasRoom, Wrote};
ghost use Rattle.decimal.specs.Writing.{decimal};
ghost use Rattle.detector.specs.Answers.{answer_in};
ghost use Rattle.session.specs.Output.{line_call, after, next_number, cut_text, line_text, header};
ghost use Rattle.session.specs.Feeding.{fed, fed_text, last_text, before_feed, chunk_end};
ghost use Rattle.session.specs.Sessions.{new_session, place_of, state_of, frame_call_of, last_state};
ghost use Rattle.session.specs.Promises.{Calls, Ends, Holds, Takes, Feeds, Filled, Finishes, IsOutput};

use content::Detector;
use decimal::Writer;
use detector::Step;
use frame_line::FrameLine;
use refusal::{Refusal, Refused};
use timestamp::Timestamp;

// The bytes that are held of a line: one more than a frame line may have, so that a longer one is told.
pub const HELD: usize = 8193;

// The most pixels of a line's frame: so many luma values and magnitudes there are.
pub const PIXELS: usize = 1024;

// The bytes of the store and of the scratch, enough for each frame of a line that 1 does not refuse.
pub const STORE: usize = 4096;

pub const SCRATCH: usize = 9216;

// The bytes of the header.
pub const HEADER: usize = 17;

// The room that is asked for a line's text, which has at most 53 bytes.
pub const ROOM: usize = 64;

// What the call of a line brings.
type Answer = Result<Step<Detector>, Refused<Detector>>;

// A session between two chunks: the detector, the number of the current line, how many bytes of it `line` holds, and the memory. Any bytes
// of `line` from there on are right, and so is any content of the luma values, the scratch and the magnitudes.
// Kept: no heap: the line's bytes, and how many of them are held.
#[derive(Clone, Copy, Debug, PartialEq)]
pub struct Session {
    pub detector: Detector,
    pub number: u64,
    pub length: usize,
    pub line: [u8; HELD],
    pub luma: [u8; PIXELS],
    pub store: [u8; STORE],
    pub scratch: [u8; SCRATCH],
    pub magnitudes: [i32; PIXELS],
}

// What feeding brings: how many bytes of the chunk were taken, and how many bytes of text were written.
#[derive(Clone, Copy, Debug, PartialEq, Eq)]
pub struct Fed {
    pub taken: usize,
    pub written: usize,
}

// `frame,answer,cut` and a line feed.
pub fn header() -> [u8; HEADER]
    ensures { result ≡ header }
{
    *b"frame,answer,cut\n"
}

// The cut or `-`.
fn put_cut(text: &mut Writer<'_>, cut: Option<Timestamp>)
    requires { HasRoom text.old 21 }
    ensures { Wrote text.old (cut_text cut) text.new }
{
    match cut {
        None => text.put_byte(b'-'),
        Some(t) => text.put_stamp(t),
    }
}

// A number and a comma.
// Kept: beside `put_cell` of `marks`; a method of the writer for both, with a contract of its own, would not be shorter than these two lines.
fn put_field(text: &mut Writer<'_>, n: u64)
    requires { HasRoom text.old 21 }
    ensures { Wrote text.old (decimal n ++ (44 ∷ [])) text.new }
{
    text.put_number(n);
    text.put_byte(b',');
}

// The text of a line: number, answer, cut or `-`.
#[tactic(auto, using(crate::proofs::Texts::field_length, crate::proofs::Texts::cut_length))]
fn put_line(text: &mut Writer<'_>, number: u64, answer: Answer)
    requires { HasRoom text.old 64 }
    ensures { Wrote text.old (line_text number (answer_in answer)) text.new }
{
    let (code, cut) = match answer {
        Ok(step) => (0, step.cut),
        Err(refused) => (refused.refusal.number(), None),
    };
    put_field(text, number);
    put_field(text, u64::from(code));
    put_cut(text, cut);
    text.put_byte(b'\n');
}

// The end of the chunk of `size` bytes that starts at place a of n bytes; of a size of 0, their end.
#[tactic(auto, unfolding(crate::specs::Feeding::chunk_end))]
fn chunk_end(a: usize, size: usize, n: usize) -> usize
    requires { a < n }
    ensures value { result ≡ chunk_end a size n }
    ensures lower_bound { (a < result) × (result ≤ n) }
{
    if size == 0 {
        n
    } else {
        n.min(a.saturating_add(size))
    }
}

impl Session {
    // A session before the first byte: the store is zeros, and the rest of the memory could hold anything.
    pub fn new() -> Session
        ensures { result ≡ new_session }
    {
        Session {
            detector: detector::state_of(content::try_new(content::Options::new())),
            number: 0,
            length: 0,
            line: [0; HELD],
            luma: [0; PIXELS],
            store: [0; STORE],
            scratch: [0; SCRATCH],
            magnitudes: [0; PIXELS],
        }
    }

    // The luma call of a frame line whose values are the first of `luma`.
    fn call_frame(&mut self, f: FrameLine) -> Answer
        requires { f.width * f.height ≤ 1024 }
        ensures { Calls self.old (frame_call_of self.old f) (answer_in result) self.new }
    {
        let n = f.width as usize * f.height as usize;
        detector::process_luma(
            self.detector,
            &self.luma[..n],
            f.width,
            f.height,
            f.width,
            f.stamp,
            &mut self.store,
            &mut self.scratch,
            &mut self.magnitudes,
        )
    }

    // What the line brings that is held.
    fn call_line(&mut self) -> Answer
        ensures { Calls self.old (line_call (place_of self.old) (take self.old.length self.old.line)) (answer_in result) self.new }
    {
        let held = self.length.min(HELD);
        match frame_line::read_line(&self.line[..held], &mut self.luma) {
            Some(f) => self.call_frame(f),
            None => Err(Refused {
                refusal: Refusal::NotAFrameLine,
                state: self.detector,
            }),
        }
    }

    // The end of the line that is held.
    #[tactic(auto, using(crate::proofs::Feeding::line_ends))]
    fn end_line(&mut self, text: &mut Writer<'_>)
        requires { HasRoom text.old 64 }
        ensures { Ends self.old text.old self.new text.new }
    {
        let answer = self.call_line();
        put_line(text, self.number, answer);
        self.detector = detector::state_after(answer);
        // The last number of 64 bits stays, which no input that a machine holds meets (proofs/Numbers.antt).
        self.number = self.number.saturating_add(1);
        self.length = 0;
    }

    // More bytes of the line: of a line that is too long only the first 8,193 are held.
    fn hold(&mut self, bytes: &[u8])
        ensures { Holds self.old bytes.now self.new }
    {
        let held = self.length.min(HELD);
        let end = held + bytes.len().min(HELD - held);
        self.line[held..end].copy_from_slice(&bytes[..end - held]);
        self.length = end;
    }

    // Bytes with no line feed but the last one, if that is one.
    fn feed_line(&mut self, bytes: &[u8], text: &mut Writer<'_>)
        requires { (length bytes.now ≤ before_feed bytes.now + 1) × HasRoom text.old 64 }
        ensures state { state_of self.new ≡ fed (state_of self.old) bytes.now }
        ensures text { Wrote text.old (fed_text (state_of self.old) bytes.now) text.new }
    {
        match bytes.strip_suffix(b"\n") {
            Some(line) => {
                self.hold(line);
                self.end_line(text);
            }
            None => self.hold(bytes),
        }
    }

    // Takes the chunk, or as much of it as there is room for the text of.
    fn feed_to(&mut self, chunk: &[u8], text: &mut Writer<'_>) -> usize
        requires { HasRoom text.old 0 }
        ensures { Takes (state_of self.old) chunk.now text.old (state_of self.new) text.new result }
    {
        let mut taken = 0;
        for bytes in chunk.split_inclusive(|b| *b == b'\n') {
            if text.out.len() - text.at < ROOM {
                return taken;
            }
            self.feed_line(bytes, text);
            taken += bytes.len();
        }
        taken
    }

    // Takes the chunk, or as much of it as `out` has room for the text of, 64 bytes for a line: the caller hands in the rest again. Bytes are
    // left only where fewer than 64 bytes of `out` are; how many more are taken then is left open, and of an `out` under 64 bytes it may be
    // that nothing is taken.
    pub fn feed(&mut self, chunk: &[u8], out: &mut [u8]) -> Fed
        ensures feeds { Feeds (state_of self.old) chunk.now out.old 0 (state_of self.new) out.new result.taken result.written }
        ensures filled { Filled chunk.now out.old 0 result.taken result.written }
    {
        let mut text = Writer { out, at: 0 };
        let taken = self.feed_to(chunk, &mut text);
        Fed {
            taken,
            written: text.at,
        }
    }

    // The end of the input: the text of the line that no line feed ended, if there is one.
    fn finish_to(&mut self, text: &mut Writer<'_>)
        requires { HasRoom text.old 64 }
        ensures state { state_of self.new ≡ last_state (state_of self.old) }
        ensures text { Wrote text.old (last_text (state_of self.old)) text.new }
        ensures line_stays { self.new.line ≡ self.old.line }
    {
        if self.length > 0 {
            self.end_line(text);
        }
    }

    // The end of the input: the text of the line that no line feed ended, if there is one, and how many bytes of it were written.
    pub fn finish(&mut self, out: &mut [u8; ROOM]) -> usize
        ensures line_stays { self.new.line ≡ self.old.line }
        ensures finishes { Finishes (state_of self.old) out.old 0 (state_of self.new) out.new result }
    {
        let mut text = Writer { out, at: 0 };
        self.finish_to(&mut text);
        text.at
    }

    // The input in chunks of `size` bytes, the last one shorter: `feed_to` promises the same of one chunk.
    fn feed_chunks(&mut self, input: &[u8], size: usize, text: &mut Writer<'_>) -> usize
        requires { HasRoom text.old 0 }
        ensures { Takes (state_of self.old) input.now text.old (state_of self.new) text.new result }
    {
        let mut taken = 0;
        // Kept: a size of 0 means all at once, which `chunks` refuses, and `chunk_end` is what promises where a chunk ends (docs/PROOFS.md).
        while taken < input.len() {
            let end = chunk_end(taken, size, input.len());
            taken += self.feed_to(&input[taken..end], text);
            if taken < end {
                return taken;
            }
        }
        taken
    }
}

// The whole session: the output of the input, which is fed in chunks of `size` bytes (0: all of it at once), and its length. 64 bytes more
// than the output are always room enough. Of a shorter `out` it is left open whether it has room: where it has none, nothing is told, and of
// the bytes of `out` nothing is promised.
pub fn run(input: &[u8], size: usize, out: &mut [u8]) -> Option<usize>
    ensures { IsOutput input.now out.old out.new result }
{
    if out.len() < HEADER {
        return None;
    }
    let mut session = Session::new();
    let mut text = Writer { out, at: 0 };
    text.put_text(&header());
    let taken = session.feed_chunks(input, size, &mut text);
    if taken < input.len() || text.out.len() - text.at < ROOM {
        return None;
    }
    session.finish_to(&mut text);
    Some(text.at)
}
