// What a call brings, written down as bytes from a place on. What does not fit is left out.
ghost use Rattle.std.specs.Prelude.{◌≡◌};
ghost use Rattle.compare_lists.specs.Records.{raised_of};
ghost use Rattle.compare_lists.specs.Wrote.{Written};

use crate::memory;
use score::Components;
use std::num::f64_to_bits_with_nan;
use stream::Sums;
use timestamp::Timestamp;

// The memory that is written to, and the place of the next byte.
// Kept: no heap: lent memory, and how much of it is written. `decimal::Writer` asks for room, and this one leaves out what does not fit.
#[derive(Drop)]
pub struct Output<'a> {
    pub bytes: &'a mut [u8],
    pub at: usize,
}

impl<'a> Output<'a> {
    fn push(&mut self, byte: u8)
        ensures { Written self.old self.new }
    {
        if self.at < self.bytes.len() {
            self.bytes[self.at] = byte;
            self.at += 1;
        }
    }

    fn extend(&mut self, bytes: &[u8])
        ensures { Written self.old self.new }
    {
        for b in bytes {
            self.push(*b);
        }
    }
}

// A value that is written down.
pub trait Put: Copy {
    fn put(self, out: &mut Output<'_>)
        ensures { Written out.old out.new };
}

impl Put for u8 {
    fn put(self, out: &mut Output<'_>) {
        out.push(self);
    }
}

// Least byte first.
impl Put for u32 {
    // Kept: beside that of u64, since `to_le_bytes` is a method of each type and of no trait.
    fn put(self, out: &mut Output<'_>) {
        out.extend(&self.to_le_bytes());
    }
}

// Least byte first.
impl Put for u64 {
    // Kept: beside that of u32, for the same reason.
    fn put(self, out: &mut Output<'_>) {
        out.extend(&self.to_le_bytes());
    }
}

// Its bits.
impl Put for f64 {
    fn put(self, out: &mut Output<'_>) {
        f64_to_bits_with_nan(self).put(out);
    }
}

impl Put for Components {
    fn put(self, out: &mut Output<'_>) {
        self.delta_hue.put(out);
        self.delta_sat.put(out);
        self.delta_lum.put(out);
        self.delta_edges.put(out);
    }
}

// The four sums and the count, 32 bits each.
impl Put for Sums {
    fn put(self, out: &mut Output<'_>) {
        self.hue.put(out);
        self.saturation.put(out);
        self.luma.put(out);
        self.edges.put(out);
        self.count.put(out);
    }
}

// How far a stamp is past -2^63.
// Kept: beside that of `replay_list`; each is stated by a definition of its own crate.
fn raised(t: Timestamp) -> u64
    ensures { result ≡ raised_of t }
{
    timestamp::duration_since(t, Timestamp { micros: i64::MIN }).unwrap_or(0)
}

impl Put for Timestamp {
    fn put(self, out: &mut Output<'_>) {
        raised(self).put(out);
    }
}

// 0, or 1 and the value.
impl<T: Put> Put for Option<T> {
    fn put(self, out: &mut Output<'_>) {
        match self {
            None => 0u8.put(out),
            Some(value) => {
                1u8.put(out);
                value.put(out);
            }
        }
    }
}

// The four planes of a frame of this size, and 16 bytes behind them.
pub fn put_store(out: &mut Output<'_>, width: u32, height: u32, store: &[u8])
    ensures { Written out.old out.new }
{
    let n = 4 * memory::area(width, height) + 16;
    out.extend(&store[..n.min(store.len())]);
}

// What a call answers besides the state, its number in front.
pub fn put_answer(
    out: &mut Output<'_>,
    number: u32,
    cut: Option<Timestamp>,
    score: Option<f64>,
    components: Components,
    sums: Sums,
)
    ensures { Written out.old out.new }
{
    number.put(out);
    cut.put(out);
    score.put(out);
    components.put(out);
    sums.put(out);
}

// What the readers of both detectors show.
pub fn put_last(out: &mut Output<'_>, score: Option<f64>, components: Option<Components>)
    ensures { Written out.old out.new }
{
    score.put(out);
    components.put(out);
}
