// One case of each stage that works on planes, in memory of its own.
// Kept, point 2: each stage by its name in the definitions, with planes of its own.
ghost use Rattle.std.specs.Prelude.{◌≡◌, ◌+◌, ◌*◌};
ghost use Rattle.replay_planes.specs.Stages.{copied, converted, differed, sobeled};

use crate::cases::{Case, Rows};
use replay::Run;

#[tactic(auto, unfolding(crate::specs::Stages::copied))]
pub fn copy_plane(run: Run, case: Case) -> Run
    ensures { result ≡ copied run ((case.w + case.kind) * case.h) case.w case.h (case.w + case.kind) case.kind }
{
    let mut src = [0u8; 4920];
    let mut out = [0u8; 4920];
    let rows = Rows {
        case,
        stride: case.w + case.kind as usize,
    };
    let src = &mut src[..rows.bytes()];
    let out = &mut out[..case.pixels()];
    let x = replay::fill(src, run.x, case.kind);
    arch_planes::copy_plane(out, src, case.w, case.h, rows.stride);
    Run {
        x,
        digest: run.digest.feed(out),
    }
}

#[tactic(auto, unfolding(crate::specs::Stages::converted))]
pub fn bgr_to_hsv_planes(run: Run, case: Case) -> Run
    ensures { result ≡ converted run ((3 * case.w + case.kind) * case.h) case.w case.h (3 * case.w + case.kind) case.kind }
{
    let mut src = [0u8; 4920];
    let mut out = [0u8; 14760];
    let rows = Rows {
        case,
        stride: 3 * case.w + case.kind as usize,
    };
    let src = &mut src[..rows.bytes()];
    let out = &mut out[..3 * case.pixels()];
    let x = replay::fill(src, run.x, case.kind);
    arch_hsv::bgr_to_hsv_planes(out, src, case.w, case.h, rows.stride);
    Run {
        x,
        digest: run.digest.feed(out),
    }
}

#[tactic(auto, unfolding(crate::specs::Stages::differed, crate::specs::Stages::fed_difference))]
pub fn mean_abs_diff(run: Run, case: Case) -> Run
    ensures { result ≡ differed run (case.w * case.h) case.kind }
{
    let mut a = [0u8; 4920];
    let mut b = [0u8; 4920];
    let n = case.pixels();
    let a = &mut a[..n];
    let b = &mut b[..n];
    let y = replay::fill(a, run.x, case.kind);
    let x = replay::fill(b, y, 0);
    let found = arch_planes::mean_abs_diff(a, b);
    Run {
        x,
        digest: run
            .digest
            .word(found.sum)
            .word(found.count)
            .double(found.mean),
    }
}

#[tactic(auto, unfolding(crate::specs::Stages::sobeled))]
pub fn sobel(run: Run, case: Case) -> Run
    ensures { result ≡ sobeled run (case.w * case.h) case.w case.h case.kind }
{
    let mut luma = [0u8; 4920];
    let mut mag = [0i32; 4920];
    let mut dir = [0u8; 4920];
    let n = case.pixels();
    let luma = &mut luma[..n];
    let mag = &mut mag[..n];
    let dir = &mut dir[..n];
    let x = replay::fill(luma, run.x, case.kind);
    arch_sobel::sobel(luma, mag, dir, case.w, case.h);
    Run {
        x,
        digest: run.digest.feed_signed(mag).feed(dir),
    }
}
