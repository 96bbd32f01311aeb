// The text of a light plan (RULES 18): read from any bytes, and written to lent memory.
#![tactic(auto)]

ghost use Rattle.std.specs.Prelude.{◌≡◌, ◌≤◌, [], ◌∷◌, ◌++◌, length, take, IfOk, Some};
ghost use Rattle.refusal.specs.Refusal.{number_in};
ghost use Rattle.decimal.specs.Placed.{placed, HasRoom, Wrote};
ghost use Rattle.decimal.specs.Writing.{decimal};
ghost use Rattle.light_plan.specs.Plan.{rows_of, plan_of, tidied};
ghost use Rattle.plan_text.specs.Text.{leading_zero, field_read, row_read, rows_read, rows_in, plan_read, text_refusal, row_text, rows_text};

use decimal::Writer;
use itoa::Buffer;
use light_plan::{MOST_ROWS, Plan, Row};
use refusal::Refusal;

// The most bytes of a plan's text: those of 16 rows `255,255,255`, each with its line feed.
pub const MOST_BYTES: usize = 192;

// The greatest number of a row.
const MOST_VALUE: u64 = u8::MAX as u64;

// Whether a `0` stands before another byte.
fn leads_with_zero(field: &[u8]) -> bool
    ensures { result ≡ leading_zero field.now }
{
    matches!(field, [b'0', _, ..])
}

// The number that a field is, where it is one of at most 255 without a leading zero.
// Kept: std's `parse` takes a plus and leading zeros, and `decimal::read_number` takes leading zeros: one test before it.
fn read_field(field: &[u8]) -> Option<u8>
    ensures { result ≡ field_read field.now }
{
    if leads_with_zero(field) {
        return None;
    }
    let n = decimal::read_number(field, MOST_VALUE)?;
    Some(n as u8)
}

// The row that a line is, its line feed left out, where it is one.
fn read_row(line: &[u8]) -> Option<Row>
    ensures { result ≡ row_read line.now }
{
    let mut fields = line.split(|b| *b == b',');
    let from = read_field(fields.next()?)?;
    let to = read_field(fields.next()?)?;
    let threshold = read_field(fields.next()?)?;
    if fields.next().is_some() {
        return None;
    }
    Some(Row {
        from,
        to,
        threshold,
    })
}

// The plan of a text's rows: none where one of them has another shape, or where there are more than 16. It reads no further than there.
// Kept: no heap: an array of rows, and how many of them were read.
fn read_plan(text: &[u8]) -> Option<Plan>
    ensures { result ≡ plan_read text.now }
{
    let mut rows = [Row {
        from: 0,
        to: 0,
        threshold: 0,
    }; MOST_ROWS];
    let mut n = 0;
    for line in text.split_inclusive(|b| *b == b'\n') {
        let line = line.strip_suffix(b"\n")?;
        let row = read_row(line)?;
        if n == MOST_ROWS {
            return None;
        }
        rows[n] = row;
        n += 1;
    }
    Plan::of(&rows[..n])
}

// The plan that a text says, or its refusal by 20 to 22. The places past its rows are 0.
pub fn read(text: &[u8]) -> Result<Plan, Refusal>
    ensures number { number_in result ≡ text_refusal text.now }
    ensures value { IfOk result (λ p. p ≡ plan_of (rows_in text.now)) }
{
    let plan = read_plan(text).ok_or(Refusal::NotAPlan)?;
    plan.check()?;
    Ok(plan)
}

// A number of at most three digits, and the byte that ends it.
// Kept: beside `put_cell` of `marks`, which asks for 21 bytes of room: the last number of the longest text has 4.
fn put_cell(text: &mut Writer<'_>, n: u8, end: u8)
    requires { HasRoom text.old 4 }
    ensures { Wrote text.old (decimal n ++ (end ∷ [])) text.new }
{
    let mut buffer = Buffer::new();
    text.put_text(buffer.format(n).as_bytes());
    text.put_byte(end);
}

// A row: three cells, so three times their room.
fn put_row(text: &mut Writer<'_>, row: Row)
    requires { HasRoom text.old 12 }
    ensures { Wrote text.old (row_text row) text.new }
{
    put_cell(text, row.from, b',');
    put_cell(text, row.to, b',');
    put_cell(text, row.threshold, b'\n');
}

// The rows of a plan, of which there are at most 16.
fn put_rows(text: &mut Writer<'_>, plan: Plan)
    requires { HasRoom text.old 192 }
    ensures { Wrote text.old (rows_text (rows_of plan)) text.new }
{
    for i in 0..plan.rows() {
        put_row(text, plan.row(i));
    }
}

// Writes the text of the rows that a plan holds to the start of `text`; the bytes after it stay. How many bytes it has. It reads back as these rows,
// and, where the plan has at most 16, as the plan with 0 in the places past them.
pub fn write(plan: Plan, text: &mut [u8; MOST_BYTES]) -> usize
    ensures value { result ≡ length (rows_text (rows_of plan)) }
    ensures after { text.new ≡ placed text.old 0 (rows_text (rows_of plan)) }
    ensures back { rows_read (take result text.new) ≡ Some (rows_of plan) }
    ensures plan_back { plan.count ≤ 16 → plan_read (take result text.new) ≡ Some (tidied plan) }
{
    let mut writer = Writer { out: text, at: 0 };
    put_rows(&mut writer, plan);
    writer.at
}
