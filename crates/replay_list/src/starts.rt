// The list that a start describes: its record, and the memory before the first operation.
// Kept, point 5: a record is the generator's 32 bytes; as methods of a struct of them the functions would read the same.
ghost use Rattle.std.specs.Prelude.{◌≡◌};
ghost use Rattle.cut_list.specs.Record.{cut_list};
ghost use Rattle.replay_list.specs.Fill.{back_of, filled_of};
ghost use Rattle.replay_list.specs.Starts.{minimum_of, count_by, count_of, step_by, step_of, first_of};

use crate::numbers;
use cut_list::CutList;

const MINIMA: [u64; 16] = [
    0,
    1,
    2,
    3,
    10,
    100,
    1000,
    65536,
    1000000,
    4294967296,
    18014398509481984,
    4611686018427387904,
    9223372036854775807,
    9223372036854775808,
    18446744073709551614,
    18446744073709551615,
];

// The minimum of the list.
#[tactic(auto, unfolding(crate::specs::Starts::minimum_of))]
pub fn minimum(r: &[u8; 32]) -> u64
    ensures { result ≡ minimum_of r.now }
{
    MINIMA[(r[0] % 16) as usize]
}

#[tactic(auto, unfolding(crate::specs::Starts::count_by))]
fn count_by(kind: u8, b: u8) -> usize
    ensures { result ≡ count_by kind b }
{
    match kind {
        0..=3 => 0,
        4 => 1,
        5..=7 => 2,
        8 => 3,
        9 => b as usize,
        10 => 256 + b as usize,
        11 => 505 + (b % 8) as usize,
        12 => 511,
        _ => 512,
    }
}

// How many stamps a list starts with.
#[tactic(auto, unfolding(crate::specs::Starts::count_of))]
pub fn count(r: &[u8; 32]) -> usize
    ensures { result ≡ count_of r.now }
{
    count_by(r[12] % 16, r[13])
}

#[tactic(auto, unfolding(crate::specs::Starts::step_by))]
fn step_by(kind: u8, b: u8, minimum: u64) -> u64
    ensures { result ≡ step_by kind b minimum }
{
    match kind {
        0..=8 => minimum.max(1),
        9 | 10 => minimum.wrapping_add(1),
        11 => minimum.wrapping_sub(1),
        12 => 0,
        13 => u64::MAX - b as u64,
        14 => 18014398509481984,
        _ => 256 * b as u64 + 1,
    }
}

// How far one place of the first memory is past the one before it.
#[tactic(auto, unfolding(crate::specs::Starts::step_of))]
pub fn step(r: &[u8; 32], minimum: u64) -> u64
    ensures { result ≡ step_of r.now minimum }
{
    step_by(r[1] % 16, r[2], minimum)
}

// The number from which the last of n places with this step is 2^64 - 1.
// Kept: counted back step by step, as the definition does.
fn back(step: u64, n: usize) -> u64
    ensures { result ≡ back_of step n }
{
    let mut first = u64::MAX;
    for _ in 1..n {
        first = numbers::less(first, step);
    }
    first
}

// The number of the first place.
// Kept: the count is how many stamps the list starts with, no length of r: the last of them is to be the greatest.
#[tactic(auto, unfolding(crate::specs::Starts::first_of))]
pub fn first(r: &[u8; 32], step: u64, count: usize) -> u64
    ensures { result ≡ first_of r.now step count }
{
    match r[3] % 8 {
        0 | 1 => 0,
        2..=4 => back(step, count),
        5 => 9223372036854775808,
        _ => numbers::wide(r, 4),
    }
}

// All places of the memory, from a first one on.
pub fn fill(memory: &mut [i64; 600], first: u64, step: u64)
    ensures { memory.new ≡ filled_of 600 first step }
{
    let mut n = first;
    for micros in memory.iter_mut() {
        *micros = numbers::stamp(n).micros;
        n = n.wrapping_add(step);
    }
}

// A new list, or one that holds stamps already.
#[tactic(auto, unfolding(cut_list::specs::Record::new_list))]
pub fn opened(minimum: u64, count: usize) -> CutList
    ensures { result ≡ cut_list minimum count }
{
    CutList {
        count,
        ..cut_list::new(minimum)
    }
}
