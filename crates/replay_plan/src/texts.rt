// The text of a light plan that a record of 16 bytes describes: a whole plan, one without a row or with a row twice, and changed bytes.
ghost use Rattle.std.specs.Prelude.{◌≡◌, ◌<◌, ◌≤◌, ◌%◌, length, take, slice_index};
ghost use Rattle.light_plan.specs.Plan.{plan_of};
ghost use Rattle.replay_plan.specs.Texts.{count_of, row_of, turned_rows, kept_of, alphabet, changed_at};

use arrayvec::ArrayVec;
use light_plan::{Plan, Row};

// A text that is being made. The longest of seventeen rows has 204 bytes.
pub type Text = ArrayVec<u8, 256>;

// How many rows a whole plan has.
fn count(r: &[u8; 16]) -> usize
    ensures value { result ≡ count_of r.now }
    ensures some { 0 < result }
    ensures most { result ≤ 16 }
{
    (r[0] % 16 + 1) as usize
}

// Row i of n.
fn row(n: usize, b: u8, i: usize) -> Row
    requires some { 0 < n }
    requires within { i < 16 }
    ensures { result ≡ row_of n b i }
{
    Row {
        from: (256 * i / n % 256) as u8,
        to: ((256 * (i + 1) / n + 255) % 256) as u8,
        threshold: ((b as usize + 17 * i) % 256) as u8,
    }
}

// Sixteen rows, the first of which are a whole plan.
#[tactic(auto, unfolding(crate::specs::Texts::turned_rows))]
fn rows(r: &[u8; 16]) -> [Row; 16]
    ensures { result ≡ turned_rows r.now }
{
    let n = count(r);
    let mut rows = [row(1, 0, 0); 16];
    for j in 0..16 {
        rows[j] = row(n, r[2], (j + r[1] as usize) % n);
    }
    rows
}

// The plan whose text is made.
#[tactic(auto, unfolding(crate::specs::Texts::kept_of))]
pub fn plan(r: &[u8; 16]) -> Plan
    ensures { result ≡ plan_of (take (kept_of r.now) (turned_rows r.now)) }
{
    let kept = if r[3] % 8 == 0 {
        count(r) - 1
    } else {
        count(r)
    };
    Plan::of(&rows(r)[..kept]).unwrap_or(Plan::none())
}

// The plan of its first row alone.
pub fn first_row(r: &[u8; 16]) -> Plan
    ensures { result ≡ plan_of (take 1 (turned_rows r.now)) }
{
    Plan::of(&rows(r)[..1]).unwrap_or(Plan::none())
}

const ALPHABET: [u8; 32] = *b"0123456789012345,,,,\n\n\n\n -+.\r\0a\xff";

// A byte that is put into a text.
#[tactic(auto, unfolding(crate::specs::Texts::alphabet))]
pub fn put_in(b: u8) -> u8
    ensures { result ≡ slice_index alphabet (b % 32) }
{
    ALPHABET[(b % 32) as usize]
}

// Changes the text at a place.
#[tactic(auto, unfolding(crate::specs::Texts::changed_at))]
pub fn change(text: &mut Text, kind: u8, place: usize, byte: u8)
    requires { place ≤ length text.old.items }
    ensures { text.new.items ≡ changed_at text.old.items kind place byte }
{
    match kind {
        0..=3 => {
            if let Some(b) = text.get_mut(place) {
                *b = byte;
            }
        }
        4 | 5 => {
            let _ = text.try_insert(place, byte);
        }
        6 => {
            let _ = text.pop_at(place);
        }
        _ => text.truncate(place),
    }
}
