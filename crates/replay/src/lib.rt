// The generator, the digest and the printed line of the replays, as compare/README.md states them.
// Kept, point 1: the kinds have numbers in compare/README.md, which a second model reads too.
#![tactic(auto)]

ghost use Rattle.std.specs.Prelude.{◌≡◌, length};
ghost use Rattle.std.specs.Float.{binary64};
ghost use Rattle.std.specs.Float.Ieee.{to_bits};
ghost use Rattle.refusal.specs.Refusal.{number_in};
ghost use Rattle.replay.specs.Generator.{next_of, byte_of, shade_of, after, shades};
ghost use Rattle.replay.specs.Digest.{step_of, fed, fed_signed, least_first, value_of};
ghost use Rattle.replay.specs.Digest.{empty as Digest·empty};

use refusal::Refusal;
use std::convert::AsSlice;
use std::io;
use std::num::f64_to_bits_with_nan;

// The generator's next number.
// Kept: the formula of the definition and of compare/README.md.
pub fn next(x: u32) -> u32
    ensures { result ≡ next_of x }
{
    ((x as u64 * 1664525 + 1013904223) % 4294967296) as u32
}

// The byte that a number of the generator gives.
pub fn byte(x: u32) -> u8
    ensures { result ≡ byte_of x }
{
    (x / 65536 % 256) as u8
}

// A byte on the levels of a kind.
#[tactic(auto, unfolding(crate::specs::Generator::shade_of))]
pub fn shade(b: u8, kind: u32) -> u8
    ensures { result ≡ shade_of b kind }
{
    match kind {
        0 => b,
        1 => b % 2 * 255,
        2 => b % 3 * 127,
        3 => b % 6 * 51,
        4 => 96 + b / 4,
        _ => 131 + b % 2 * 62,
    }
}

// Fills dst with a generated run from x, and returns the generator's number after it.
pub fn fill(dst: &mut [u8], x: u32, kind: u32) -> u32
    ensures value { result ≡ after (length dst.old) x }
    ensures dst_after { dst.new ≡ shades (length dst.old) x kind }
{
    let mut now = x;
    for place in dst.iter_mut() {
        now = next(now);
        *place = shade(byte(now), kind);
    }
    now
}

// Adler-32's two sums.
#[derive(Clone, Copy, Debug, PartialEq, Eq)]
pub struct Digest {
    pub a: u32,
    pub b: u32,
}

impl Digest {
    // The digest of no bytes.
    pub fn empty() -> Self
        ensures { result ≡ Digest·empty }
    {
        Digest { a: 1, b: 0 }
    }

    // One byte more.
    #[tactic(auto, unfolding(crate::specs::Digest::step_of))]
    pub fn step(self, byte: u8) -> Self
        ensures { result ≡ step_of self byte }
    {
        let a = (self.a as u64 + byte as u64) % 65521;
        let b = (self.b as u64 + a) % 65521;
        Digest {
            a: a as u32,
            b: b as u32,
        }
    }

    // The bytes of s, in order.
    // Kept: beside `feed_signed`, as it says there.
    #[tactic(auto, using(std::proofs::lemmas::List::Sums::fold_more))]
    pub fn feed(self, s: &[u8]) -> Self
        ensures { result ≡ fed self s.now }
    {
        let mut d = self;
        for byte in s {
            d = d.step(*byte);
        }
        d
    }

    // A number of 32 bits, least byte first.
    // Kept: beside `long`, since `to_le_bytes` is a method of each type and of no trait.
    #[tactic(auto, using(crate::proofs::Steps::four_bytes))]
    pub fn word(self, word: u32) -> Self
        ensures { result ≡ fed self (least_first 4 word) }
    {
        self.feed(&word.to_le_bytes())
    }

    // A number of 64 bits, least byte first.
    // Kept: beside `word`, as it says there.
    #[tactic(auto, using(crate::proofs::Steps::eight_bytes))]
    pub fn long(self, long: u64) -> Self
        ensures { result ≡ fed self (least_first 8 long) }
    {
        self.feed(&long.to_le_bytes())
    }

    // A double's bit pattern, least byte first. A NaN has one.
    pub fn double(self, x: f64) -> Self
        ensures { result ≡ fed self (least_first 8 (to_bits binary64 x)) }
    {
        self.long(f64_to_bits_with_nan(x))
    }

    // Signed numbers of 32 bits, in order, each least byte first.
    // Kept: beside `feed`, of numbers of 32 bits, by a definition of its own.
    #[tactic(auto, using(std::proofs::lemmas::List::Sums::fold_more))]
    pub fn feed_signed(self, s: &[i32]) -> Self
        ensures { result ≡ fed_signed self s.now }
    {
        let mut d = self;
        for z in s {
            d = d.word(z.cast_unsigned());
        }
        d
    }

    // The digest as one number.
    pub fn value(self) -> u64
        ensures { result ≡ value_of self }
    {
        self.b as u64 * 65536 + self.a as u64
    }
}

// A batch on its way: the generator's number, and the digest of what came so far.
#[derive(Clone, Copy, Debug, PartialEq, Eq)]
pub struct Run {
    pub x: u32,
    pub digest: Digest,
}

// Prints a name, a number and a number, separated by spaces, and a line feed. No contract can say what is written.
pub fn print_line(
    rt: &impl Print,
    name: impl AsSlice<u8> + Copy,
    n: u64,
    value: u64,
) -> io::Result<()> {
    rt.write_all(name.as_slice())?;
    println!(rt; " {n} {value}")
}

// The number by which a check answers: 0 where it passes.
// Kept: beside `feed_number` of `replay_list`, as it says there.
pub fn number(answer: Result<(), Refusal>) -> u32
    ensures { result ≡ number_in answer }
{
    answer.err().map_or(0, |refusal| refusal.number())
}
