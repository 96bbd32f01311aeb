// Settings, sizes and stamps from the bytes of a list. Record 0 is the settings, record i the i-th call, 16 bytes each.
// Kept, point 5: the settings are in the record at place 0, which is made where it is read.
ghost use Rattle.std.specs.Prelude.{◌≡◌, ◌<◌, get_or};
ghost use Rattle.std.specs.Float.{nan};
ghost use Rattle.compare_lists.specs.Records.{byte_of, threshold_of, weight_list, weight_of, weights_of, kernel_by, kernel_of, minimum_of, initial_cut_of, side_of, first_size, next_size, turned_to, next_clock, stamp_of, is_foreign};

use score::Components;
use timestamp::Timestamp;

// Record i of a list: r[0] to r[15], as compare/README.md names its bytes.
#[derive(Clone, Copy)]
pub struct Record<'a> {
    pub script: &'a [u8],
    pub i: usize,
}

impl<'a> Record<'a> {
    // Byte k, or 0 where there is none.
    #[tactic(auto, unfolding(crate::specs::Records::byte_of))]
    pub fn byte(self, k: usize) -> u32
        ensures value { result ≡ byte_of self.entry.script.now self.entry.i k }
        ensures upper_bound { result < 256 }
    {
        if self.i < self.script.len() / 16 && k < 16 {
            self.script[self.i * 16 + k] as u32
        } else {
            0
        }
    }
}

// A threshold by its kind: one of the odd ones, or the other.
#[tactic(auto, unfolding(crate::specs::Records::threshold_of))]
pub fn threshold(kind: u32, other: f64) -> f64
    ensures { result ≡ threshold_of kind other }
{
    match kind {
        0 => f64::NAN,
        1 => f64::INFINITY,
        2 => f64::NEG_INFINITY,
        3 => -0.0,
        4 => 27.0,
        _ => other,
    }
}

const WEIGHTS: [f64; 14] = [
    0.0, -0.0, 1.0, -1.0, 0.5, 0.1, 0.2, 0.3, 0.7, 2.0, -3.25, 1048576.0, -1048576.0, 1e-300,
];

fn listed(i: usize) -> f64
    requires { i < 14 }
    ensures { result ≡ get_or weight_list i nan }
{
    WEIGHTS[i]
}

#[tactic(auto, unfolding(crate::specs::Records::weight_of))]
fn weight(b: u32) -> f64
    ensures { result ≡ weight_of b }
{
    match b {
        252 => f64::NAN,
        253 => f64::INFINITY,
        254 => f64::NEG_INFINITY,
        255 => 1048577.0,
        _ => listed((b % 14) as usize),
    }
}

#[tactic(auto, unfolding(crate::specs::Records::weights_of))]
pub fn weights(script: &[u8]) -> Components
    ensures { result ≡ weights_of script.now }
{
    let r = Record { script, i: 0 };
    let edges = weight(r.byte(6));
    match r.byte(2) % 8 {
        0 => Components::default(),
        1 => Components::luma_only(),
        2 => Components::new(1.0, 1.0, 1.0, edges),
        3 => Components::new(0.0, -0.0, 0.0, edges),
        _ => Components::new(
            weight(r.byte(3)),
            weight(r.byte(4)),
            weight(r.byte(5)),
            edges,
        ),
    }
}

#[tactic(auto, unfolding(crate::specs::Records::kernel_by))]
fn kernel_size(kind: u32, b: u32) -> Option<u32>
    requires { b < 256 }
    ensures { result ≡ kernel_by kind b }
{
    match kind {
        0..=3 => None,
        4 => Some(u32::MAX),
        5 => Some(b),
        _ => Some(2 * (b % 32) + 1),
    }
}

pub fn kernel(script: &[u8]) -> Option<u32>
    ensures { result ≡ kernel_of script.now }
{
    let r = Record { script, i: 0 };
    kernel_size(r.byte(8) % 8, r.byte(9))
}

// The least distance of two cuts.
#[tactic(auto, unfolding(crate::specs::Records::minimum_of))]
pub fn minimum(script: &[u8]) -> u64
    ensures { result ≡ minimum_of script.now }
{
    let r = Record { script, i: 0 };
    match r.byte(10) % 16 {
        0 => 0,
        1 => 1,
        2 => 1000000,
        3 => u64::MAX,
        _ => r.byte(11) as u64 * 1000,
    }
}

pub fn initial_cut(script: &[u8]) -> bool
    ensures { result ≡ initial_cut_of script.now }
{
    Record { script, i: 0 }.byte(7) / 2 % 2 == 0
}

#[derive(Clone, Copy)]
pub struct Size {
    pub width: u32,
    pub height: u32,
}

// Sides are small more often than not.
#[tactic(auto, unfolding(crate::specs::Records::side_of))]
fn side(b: u32) -> u32
    ensures { result ≡ side_of b }
{
    if b < 192 { b % 13 } else { b % 41 }
}

pub fn first_size(script: &[u8]) -> Size
    ensures { result ≡ first_size script.now }
{
    let r = Record { script, i: 0 };
    Size {
        width: side(r.byte(12)),
        height: side(r.byte(13)),
    }
}

// One call in sixteen changes the size.
#[tactic(auto, unfolding(crate::specs::Records::next_size))]
pub fn next_size(size: Size, r: Record<'_>) -> Size
    ensures { result ≡ next_size size r.entry.script.now r.entry.i }
{
    if r.byte(3) % 16 == 0 {
        Size {
            width: side(r.byte(4)),
            height: side(r.byte(5)),
        }
    } else {
        size
    }
}

// The clock is how far the stamp is before 2^63 - 1. It goes on as a rule, and is set back or to an edge at times.
#[tactic(auto, unfolding(crate::specs::Records::turned_to))]
fn turned(clock: u64, kind: u32, step: u64) -> u64
    ensures { result ≡ turned_to clock kind step }
{
    match kind {
        0 => u64::MAX,
        1 => 0,
        2 => 9223372036854775807,
        3..=6 => clock.checked_add(step).unwrap_or(clock),
        _ => clock.checked_sub(step).unwrap_or(clock),
    }
}

pub fn next_clock(clock: u64, r: Record<'_>) -> u64
    ensures { result ≡ next_clock clock r.entry.script.now r.entry.i }
{
    turned(clock, r.byte(1) % 32, r.byte(2) as u64 * 1000)
}

pub fn stamp(clock: u64) -> Timestamp
    ensures { result ≡ stamp_of clock }
{
    timestamp::saturating_sub_duration(Timestamp { micros: i64::MAX }, clock)
}

// Whether a call is handed a bad record.
pub fn is_foreign(r: Record<'_>) -> bool
    ensures { result ≡ is_foreign r.entry.script.now r.entry.i }
{
    r.byte(13) % 32 == 1
}
