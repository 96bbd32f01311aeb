// Decimal numbers and stamps, read from text (RULES 11.2) and written as text (RULES 11.6).
#![tactic(auto)]

ghost use Rattle.std.specs.Prelude.{◌≡◌, ◌&&◌, [], ◌∷◌, ◌+◌, ◌-◌, ◌*◌, leb, length};
ghost use Rattle.decimal.specs.Reading.{is_digit, number_if, number_read, stamp_read};
ghost use Rattle.decimal.specs.Writing.{decimal, stamp_text};
ghost use Rattle.decimal.specs.Placed.{HasRoom, Wrote};

use itoa::Buffer;
use timestamp::Timestamp;

// A text that is being written to lent memory: what comes next is put at place `at`.
// Kept: no heap: lent memory, and how much of it is text. `compare_lists::Output` leaves out what does not fit, and this one asks for room.
#[derive(Drop)]
pub struct Writer<'a> {
    pub out: &'a mut [u8],
    pub at: usize,
}

// The writer is an inner layer: its callers see to the room before a line's text is written, so each method asks for the
// room that it may need. It puts its text at the place, changes nothing else, and the place is then the one after it.
impl Writer<'_> {
    // A text as it is.
    pub fn put_text(&mut self, text: &[u8])
        requires { HasRoom self.old (length text.now) }
        ensures { Wrote self.old text.now self.new }
    {
        let end = self.at + text.len();
        self.out[self.at..end].copy_from_slice(text);
        self.at = end;
    }

    // One byte.
    pub fn put_byte(&mut self, b: u8)
        requires { HasRoom self.old 1 }
        ensures { Wrote self.old (b ∷ []) self.new }
    {
        self.out[self.at] = b;
        self.at += 1;
    }

    // n in decimal: 20 digits at most.
    // Kept: beside `put_stamp`, as it says there.
    pub fn put_number(&mut self, n: u64)
        requires { HasRoom self.old 20 }
        ensures { Wrote self.old (decimal n) self.new }
    {
        let mut buffer = Buffer::new();
        self.put_text(buffer.format(n).as_bytes());
    }

    // A stamp in decimal, after a minus where it is below 0.
    // Kept: beside `put_number`, since a stamp's text has a definition of its own.
    pub fn put_stamp(&mut self, ts: Timestamp)
        requires { HasRoom self.old 21 }
        ensures { Wrote self.old (stamp_text ts.micros) self.new }
    {
        let mut buffer = Buffer::new();
        self.put_text(buffer.format(ts.micros).as_bytes());
    }
}

// `value` and then the digit `b`, where that is a digit and the number stays within `most`.
// Kept: std's `parse` takes text and a plus before a number, which RULES 11.2 refuses: two tests more than to read digit by digit.
fn with_digit(value: u64, b: u8, most: u64) -> Option<u64>
    ensures { result ≡ number_if (is_digit b && leb (10 * value + (b - 48)) most) (10 * value + (b - 48)) }
{
    if !b.is_ascii_digit() {
        return None;
    }
    let n = value.checked_mul(10)?.checked_add((b - b'0') as u64)?;
    (n <= most).then_some(n)
}

// The number that the text is, where it is one of at most `most`.
pub fn read_number(part: &[u8], most: u64) -> Option<u64>
    ensures { result ≡ number_read most part.now }
{
    if part.is_empty() {
        return None;
    }
    let mut value = 0;
    for b in part {
        value = with_digit(value, *b, most)?;
    }
    Some(value)
}

// The stamp that the text is, where it is one.
pub fn read_stamp(part: &[u8]) -> Option<Timestamp>
    ensures { result ≡ stamp_read part.now }
{
    let micros = match part.strip_prefix(b"-") {
        Some(digits) => 0i64.checked_sub_unsigned(read_number(digits, u64::MAX)?)?,
        None => 0i64.checked_add_unsigned(read_number(part, u64::MAX)?)?,
    };
    Some(Timestamp { micros })
}
