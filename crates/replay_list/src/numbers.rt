// Numbers by the bytes of a record, and stamps by numbers of 64 bits.
ghost use Rattle.std.specs.Prelude.{◌≡◌, ◌<◌, ◌≤◌, pos, slice_index_or};
ghost use Rattle.replay_list.specs.Numbers.{pushed_of, wide_of, less_of, stamp_of, raised_of};

use timestamp::Timestamp;

// a less b, around 2^64.
// Kept: `wrapping_sub` by a name, whose contract is the definition's: it is proved here once, and not at each of the places that cite `less_of`.
pub fn less(a: u64, b: u64) -> u64
    ensures { result ≡ less_of a b }
{
    a.wrapping_sub(b)
}

// n without its least byte, and b as the greatest.
fn pushed(n: u64, b: u8) -> u64
    ensures { result ≡ pushed_of n b }
{
    n / 256 + b as u64 * 72057594037927936
}

// The eight bytes of a record from `at` on, least first.
// Kept: `u64::from_le_bytes` wants the eight bytes as an array. To cut one out at a place takes a conversion whose failure has to be ruled out,
// and a lemma that the definition's steps give the same number: no plainer than these.
pub fn wide(r: &[u8; 32], at: usize) -> u64
    requires { at ≤ 24 }
    ensures { result ≡ wide_of r.now at }
{
    let mut n = 0;
    for i in 0..8 {
        n = pushed(n, r[at + i]);
    }
    n
}

// The stamp n - 2^63: numbers of 64 bits are stamps in their order.
#[tactic(auto, unfolding(crate::specs::Numbers::stamp_of))]
pub fn stamp(n: u64) -> Timestamp
    ensures { result.micros ≡ stamp_of n }
{
    Timestamp {
        micros: i64::MIN.saturating_add_unsigned(n),
    }
}

// The number that `stamp` takes to ts.
// Kept: beside that of `compare_lists`, as it says there.
#[tactic(auto, unfolding(timestamp::specs::Stamps::distance))]
pub fn raised(ts: Timestamp) -> u64
    ensures { result ≡ raised_of ts.micros }
{
    ts.micros.abs_diff(i64::MIN)
}

// The number of the stamp at a place.
pub fn raised_at(memory: &[i64; 600], i: usize) -> u64
    requires { i < 600 }
    ensures { result ≡ raised_of (slice_index_or memory.now i (pos 0)) }
{
    raised(Timestamp { micros: memory[i] })
}
