// The operation that a record of 32 bytes describes: its kind, its stamps, what it is lent and its fault.
// Kept, point 5: a record is the generator's 32 bytes; as methods of a struct of them the functions would read the same; minimum
// and memory are the list's.
ghost use Rattle.std.specs.Prelude.{◌≡◌, ◌<◌, ◌≤◌};
ghost use Rattle.replay_list.specs.Input.{place_of, kind_of, lent_of, given_of, faulty_of, moved_by, moved_of, broken_of, aimed_of, other_of, place_given};

use crate::numbers;
use cut_list::CutList;

const ENDS: [u64; 8] = [
    0,
    1,
    9223372036854775807,
    9223372036854775808,
    9223372036854775809,
    18446744073709551613,
    18446744073709551614,
    18446744073709551615,
];

// A place of the memory: one of the first 16, or any of the first 512.
#[tactic(auto, unfolding(crate::specs::Input::place_of))]
fn place(a: u8, b: u8) -> usize
    ensures value { result ≡ place_of a b }
    ensures upper_bound { result < 512 }
{
    if b % 2 == 0 {
        (a % 16) as usize
    } else {
        2 * a as usize + (b / 2 % 2) as usize
    }
}

// Kept: the minimum and two bytes as parameters, here, of `moved` and of `broken`: `how` has a meaning of its own in each of the three,
// so that a struct of them would have a field that its users read in three ways.
#[tactic(auto, unfolding(crate::specs::Input::moved_by))]
fn moved_by(minimum: u64, how: u8, by: u8) -> u64
    ensures { result ≡ moved_by minimum how by }
{
    match how {
        3 => 1,
        4 => minimum,
        5 => numbers::less(minimum, 1),
        6 => minimum / 2,
        _ => by as u64,
    }
}

// A number that is moved by the minimum, or nearly so, or by half of it, or by a little.
#[tactic(auto, unfolding(crate::specs::Input::moved_of))]
fn moved(n: u64, minimum: u64, how: u8, by: u8) -> u64
    ensures { result ≡ moved_of n minimum how by }
{
    if how <= 5 {
        n
    } else if how % 2 == 0 {
        n.wrapping_add(moved_by(minimum, how / 2, by))
    } else {
        numbers::less(n, moved_by(minimum, how / 2, by))
    }
}

// The number of the stamp that twelve bytes of a record describe.
// Kept: `at` says where the twelve bytes begin. As an array of their own they would be cut out of the record by a conversion at each call,
// and the definitions name bytes by their place in the record.
#[tactic(auto, unfolding(crate::specs::Input::aimed_of, crate::specs::Input::aimed_by, crate::specs::Input::end_list))]
pub fn aimed(r: &[u8; 32], at: usize, fills: bool, minimum: u64, memory: &[i64; 600]) -> u64
    requires { at ≤ 20 }
    ensures { result ≡ aimed_of r.now at fills minimum memory.now }
{
    if fills && 64 <= r[at] {
        return numbers::wide(r, at + 4);
    }
    match r[at] % 16 {
        0..=9 => {
            let n = numbers::raised_at(memory, place(r[at + 1], r[at + 2]));
            moved(n, minimum, r[at + 3] % 16, r[at + 4])
        }
        10 | 11 => ENDS[(r[at + 1] % 8) as usize],
        12 | 13 => 9223372036854773760 + 16 * r[at + 1] as u64 + (r[at + 2] % 16) as u64,
        _ => numbers::wide(r, at + 4),
    }
}

// The other end of a span.
#[tactic(auto, unfolding(crate::specs::Input::other_of))]
pub fn other(r: &[u8; 32], ts: u64, fills: bool, minimum: u64, memory: &[i64; 600]) -> u64
    ensures { result ≡ other_of r.now ts fills minimum memory.now }
{
    if r[31] % 8 == 0 {
        ts
    } else {
        aimed(r, 20, fills, minimum, memory)
    }
}

#[derive(Clone, Copy)]
pub enum Kind {
    Add,
    Remove,
    Empty,
    Nearest,
    Span,
    Clip,
}

#[tactic(auto, unfolding(crate::specs::Input::kind_of, crate::specs::Input::kind_by))]
pub fn kind_of(r: &[u8; 32], fills: bool) -> Kind
    ensures { result ≡ kind_of r.now fills }
{
    if fills && 32 <= r[0] {
        return Kind::Add;
    }
    match r[0] % 16 {
        0..=4 => Kind::Add,
        5..=7 => Kind::Remove,
        8 | 9 => Kind::Nearest,
        10..=12 => Kind::Span,
        13 | 14 => Kind::Clip,
        _ if r[1] % 4 == 0 => Kind::Empty,
        _ => Kind::Add,
    }
}

// How many places an operation is lent.
#[tactic(auto, unfolding(crate::specs::Input::lent_of))]
pub fn lent(r: &[u8; 32]) -> usize
    ensures value { result ≡ lent_of r.now }
    ensures upper_bound { result ≤ 600 }
{
    match r[3] % 64 {
        2 => 511,
        3 => r[4] as usize,
        _ => match r[2] % 8 {
            0..=3 => 512,
            4 | 5 => 513,
            _ => 600,
        },
    }
}

// The record that an operation is handed, at times with a fault.
#[tactic(auto, unfolding(crate::specs::Input::given_of))]
pub fn given(r: &[u8; 32], list: CutList) -> CutList
    ensures { result ≡ given_of r.now list }
{
    match r[3] % 64 {
        0 => CutList { count: 513, ..list },
        1 => CutList {
            count: usize::MAX - r[4] as usize,
            ..list
        },
        4 => CutList {
            min_duration: list.min_duration.wrapping_add(1),
            ..list
        },
        5 => CutList {
            count: list.count.wrapping_add(1),
            ..list
        },
        _ => list,
    }
}

// What stands where a stamp should: the number of the one before, one before that, or one that is too close to it.
#[tactic(auto, unfolding(crate::specs::Input::broken_of))]
fn broken(before: u64, minimum: u64, how: u8, by: u8) -> u64
    ensures { result ≡ broken_of before minimum how by }
{
    match how {
        0 => before,
        1 => numbers::less(before, by as u64 + 1),
        2 => before.wrapping_add(minimum / 2),
        _ => numbers::less(before.wrapping_add(minimum), 1),
    }
}

// A place that has one before it.
#[tactic(auto, unfolding(crate::specs::Input::faulty_of))]
pub fn faulty_place(r: &[u8; 32]) -> usize
    ensures value { result ≡ faulty_of r.now }
    ensures upper_bound { result < 512 }
    ensures result_nonzero { 0 < result }
{
    place(r[6], r[7]) % 511 + 1
}

// The faulty place: as it is, or with a fault.
#[tactic(auto, unfolding(crate::specs::Input::place_given))]
pub fn place_given(r: &[u8; 32], minimum: u64, memory: &[i64; 600]) -> u64
    ensures { result ≡ place_given r.now minimum memory.now }
{
    let p = faulty_place(r);
    if r[3] % 64 == 6 {
        broken(numbers::raised_at(memory, p - 1), minimum, r[4] % 4, r[5])
    } else {
        numbers::raised_at(memory, p)
    }
}
