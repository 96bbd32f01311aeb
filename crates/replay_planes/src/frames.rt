// Frame checks about each bound.
// Kept, point 2: luma, BGR and HSV frames by their names; what they share is `around`.
// Kept, point 5: the checks take sides and stride in 32 bits, and `Rows` has them as lengths: a method for each of the three casts would be longer.
ghost use Rattle.std.specs.Prelude.{◌≡◌, ℕ, ◌+◌, ◌-◌, ◌<◌, ◌≤◌};
ghost use Rattle.refusal.specs.Refusal.{number_in};
ghost use Rattle.frame.specs.Checks.{luma_refusal, bgr_refusal};
ghost use Rattle.replay_planes.specs.Stages.{answered, luma_around, bgr_around, hsv_around, hsv_short, checked};
ghost use Rattle.replay_planes.specs.Batches.{side_of, no_bytes, sides_of};

use crate::cases::{Case, Rows};
use refusal::Refusal;
use replay::{Digest, Run};

// An answer's number.
#[tactic(auto, unfolding(crate::specs::Stages::answered))]
fn answered(d: Digest, answer: Result<(), Refusal>) -> Digest
    ensures { result ≡ answered d (number_in answer) }
{
    d.word(replay::number(answer))
}

// A check with a byte less than needed, as many, and one more.
fn around<F: Fn(usize) -> Result<(), Refusal>>(d: Digest, need: usize, check: F) -> Digest
    requires fits { need ≤ 4920 }
    requires callable { (n : ℕ) → n ≤ need + 1 → F.pre check n }
    ensures { (h : ℕ → ℕ) → ((n : ℕ) (r : _) → n ≤ need + 1 → F.post check n r → number_in r ≡ h n) → result ≡ answered (answered (answered d (h (need - 1))) (h need)) (h (need + 1)) }
{
    let less = check(need.saturating_sub(1));
    let full = check(need);
    let more = check(need + 1);
    answered(answered(answered(d, less), full), more)
}

// `check_luma` about the bytes needed.
fn luma(d: Digest, rows: Rows) -> Digest
    ensures { result ≡ luma_around d rows.case.w rows.case.h rows.stride }
{
    let data = [0u8; 4921];
    let w = rows.case.w as u32;
    let h = rows.case.h as u32;
    let stride = rows.stride as u32;
    around(
        d,
        rows.bytes(),
        |n: usize| -> Result<(), Refusal>
            requires { n ≤ 4921 }
            ensures { number_in result ≡ luma_refusal n w h stride }
        { frame::check_luma(&data[..n], w, h, stride) },
    )
}

// `check_bgr` likewise.
fn bgr(d: Digest, rows: Rows) -> Digest
    ensures { result ≡ bgr_around d rows.case.w rows.case.h rows.stride }
{
    let data = [0u8; 4921];
    let w = rows.case.w as u32;
    let h = rows.case.h as u32;
    let stride = rows.stride as u32;
    around(
        d,
        rows.bytes(),
        |n: usize| -> Result<(), Refusal>
            requires { n ≤ 4921 }
            ensures { number_in result ≡ bgr_refusal n w h stride }
        { frame::check_bgr(&data[..n], w, h, stride) },
    )
}

// `check_hsv` with no plane short, then each.
#[tactic(auto, unfolding(crate::specs::Stages::hsv_short))]
fn hsv(d: Digest, rows: Rows) -> Digest
    ensures { result ≡ hsv_around d rows.case.w rows.case.h rows.stride }
{
    let data = [0u8; 4920];
    let w = rows.case.w as u32;
    let h = rows.case.h as u32;
    let stride = rows.stride as u32;
    let need = rows.bytes();
    let full = &data[..need];
    let short = &data[..need.saturating_sub(1)];
    let none = frame::check_hsv(full, full, full, w, h, stride);
    let hue = frame::check_hsv(short, full, full, w, h, stride);
    let saturation = frame::check_hsv(full, short, full, w, h, stride);
    let value = frame::check_hsv(full, full, short, w, h, stride);
    answered(
        answered(answered(answered(d, none), hue), saturation),
        value,
    )
}

// One case of the stage.
#[tactic(auto, unfolding(crate::specs::Stages::checked))]
pub fn frame(run: Run, case: Case) -> Run
    ensures { result ≡ checked run case.w case.h case.kind }
{
    let kind = case.kind as usize;
    let wide = Rows {
        case,
        stride: case.w + kind,
    };
    let tight = Rows {
        case,
        stride: case.w.saturating_sub(1),
    };
    let wide_bgr = Rows {
        case,
        stride: 3 * case.w + kind,
    };
    let tight_bgr = Rows {
        case,
        stride: (3 * case.w).saturating_sub(1),
    };
    let d = hsv(luma(run.digest, wide), wide);
    let d = hsv(luma(d, tight), tight);
    Run {
        digest: bgr(bgr(d, wide_bgr), tight_bgr),
        ..run
    }
}

// Sides about 4,096 and about 2^32.
const SIDES: [u32; 7] = [0, 1, 4095, 4096, 4097, 1431655766, 4294967295];

fn side(i: usize) -> u32
    requires { i < 7 }
    ensures { result ≡ side_of i }
{
    SIDES[i]
}

// The three checks of a frame with no bytes.
#[tactic(auto, unfolding(crate::specs::Batches::no_bytes))]
fn checks(d: Digest, w: u32, h: u32, stride: u32) -> Digest
    ensures { result ≡ no_bytes d w h stride }
{
    let luma = frame::check_luma(&[], w, h, stride);
    let bgr = frame::check_bgr(&[], w, h, stride);
    let hsv = frame::check_hsv(&[], &[], &[], w, h, stride);
    answered(answered(answered(d, luma), bgr), hsv)
}

// Every width, height and stride of `side`, the stride fastest.
#[tactic(auto, unfolding(crate::specs::Batches::sides_of))]
pub fn sides() -> Digest
    ensures { result ≡ sides_of 343 }
{
    let mut d = Digest::empty();
    for c in 0..343 {
        d = checks(d, side(c / 49), side(c / 7 % 7), side(c % 7));
    }
    d
}
