// Prints the table of marks (RULES 5.14): a header, then the low and the high mark of each median.
// Kept, point 6: no heap: a buffer, and how much of it is text.
#![tactic(auto)]

ghost use Rattle.std.specs.Prelude.{◌≡◌, [], ◌∷◌, ◌++◌, ◌≤◌, length};
ghost use Rattle.decimal.specs.Placed.{placed, HasRoom, Wrote};
ghost use Rattle.decimal.specs.Writing.{decimal};
ghost use Rattle.marks.specs.Text.{row_text, rows_text, table_text};

use decimal::Writer;
use std::io;

// Room for the text: 16 bytes of the header and at most 12 of each row, and what a writer asks for after its place.
const TABLE_ROOM: usize = 4096;

// A number, and the byte that ends it. `put_number` asks for 20 bytes, whatever the number.
// Kept: beside `put_field` of `session`; a method of the writer for both, with a contract of its own, would not be shorter than these two lines.
fn put_cell(text: &mut Writer<'_>, n: u8, end: u8)
    requires { HasRoom text.old 21 }
    ensures { Wrote text.old (decimal n ++ (end ∷ [])) text.new }
{
    text.put_number(u64::from(n));
    text.put_byte(end);
}

// The row of a median: three cells, so three times their room.
fn put_row(text: &mut Writer<'_>, median: u8)
    requires { HasRoom text.old 63 }
    ensures { Wrote text.old (row_text median) text.new }
{
    let low = canny_marks::low_threshold(median);
    let high = canny_marks::high_threshold(median);
    put_cell(text, median, b',');
    put_cell(text, low, b',');
    put_cell(text, high, b'\n');
}

// The rows of all medians. The last one starts after at most 255 × 12 bytes.
fn put_rows(text: &mut Writer<'_>)
    requires { HasRoom text.old 3123 }
    ensures { Wrote text.old (rows_text 256) text.new }
{
    for m in 0..=u8::MAX {
        put_row(text, m);
    }
}

// The whole text, at the start of `out`, and its length. The bytes after it stay.
fn put_table(out: &mut [u8]) -> usize
    requires { 4096 ≤ length out.old }
    ensures { (out.new ≡ placed out.old 0 table_text) × (result ≡ length table_text) }
{
    let mut text = Writer { out, at: 0 };
    text.put_text(b"median,low,high\n");
    put_rows(&mut text);
    text.at
}

fn main(rt: HostRuntime) -> io::Result<()> {
    let mut out = [0u8; TABLE_ROOM];
    let n = put_table(&mut out);
    if let Err(e) = rt.write_all(&out[..n]) {
        eprintln!(rt; "standard output: {e}")?;
    }
    Ok(())
}
