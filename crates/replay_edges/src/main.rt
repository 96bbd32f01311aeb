// Edge planes of generated frames and of two that show a trap, the marks of all medians, and windows by frame size:
// digests, as compare/README.md states.
// Kept, point 2: `batch` and `lines` as in the other replays, over bounds of their own; a batch promises a definition of this program.
#![tactic(auto)]

mod cases;

ghost use Rattle.std.specs.Prelude.{◌≡◌, ◌*◌, ◌≤◌, ◌<◌, length};
ghost use Rattle.canny.specs.Edges.{edge_plane};
ghost use Rattle.replay.specs.Digest.{empty, fed};
ghost use Rattle.replay_edges.specs.Edges.{edged, side_of, batch_of, marks_of, windows_of};

use cases::Case;
use replay::{Digest, Run};
use std::io;

// One height and kind, with a window of k × k.
#[tactic(auto, unfolding(crate::specs::Edges::edged))]
fn one(run: Run, case: Case, k: u32) -> Run
    ensures { result ≡ edged run (case.w * case.h) case.w case.h k case.kind }
{
    let mut luma = [0u8; 600];
    let mut mag = [0i32; 600];
    let mut edges = [0u8; 600];
    let n = case.pixels();
    let luma = &mut luma[..n];
    let edges = &mut edges[..n];
    let x = replay::fill(luma, run.x, case.kind);
    canny::edge_plane(luma, None, &mut mag[..n], edges, case.w, case.h, k);
    Run {
        x,
        digest: run.digest.feed(edges),
    }
}

const SIDES: [u32; 4] = [3, 5, 13, 101];

fn side(i: usize) -> u32
    requires { i < 4 }
    ensures { result ≡ side_of i }
{
    SIDES[i]
}

// The heights from 0 on, six kinds and four windows each.
#[tactic(auto, unfolding(crate::specs::Edges::batch_of))]
fn batch(w: usize, heights: usize) -> Digest
    requires w_bound { w ≤ 100 }
    requires heights_bound { heights ≤ 25 }
    requires small { w * heights ≤ 600 }
    ensures { result ≡ (batch_of w (heights * 24)).digest }
{
    let mut run = Run {
        x: w as u32,
        digest: Digest::empty(),
    };
    for c in 0..heights * 24 {
        let case = Case {
            w,
            h: c / 24,
            kind: (c / 4 % 6) as u32,
        };
        run = one(run, case, side(c % 4));
    }
    run.digest
}

// The widths 0 to 24, a line each.
fn lines(rt: &impl Print, name: &str) -> io::Result<()> {
    for w in 0..=24usize {
        replay::print_line(rt, name, w as u64, batch(w, 25).value())?;
    }
    Ok(())
}

// The widths 25 to 100, a line each, of few heights: rows of up to four blocks of places that are thinned together, and of up to two that are searched
// for weak pixels.
fn wide_lines(rt: &impl Print, name: &str) -> io::Result<()> {
    for w in 25..=100usize {
        replay::print_line(rt, name, w as u64, batch(w, 6).value())?;
    }
    Ok(())
}

// One frame, with a window of 3 × 3.
fn frame<const N: usize>(luma: &[u8; N], w: usize, h: usize) -> Digest
    requires w_bound { (w ≤ 24) × (h ≤ 24) }
    requires luma_len { N ≡ w * h }
    ensures { result ≡ fed empty (edge_plane luma.now w h 3) }
{
    let mut mag = [0i32; N];
    let mut edges = [0u8; N];
    canny::edge_plane(luma, None, &mut mag, &mut edges, w, h, 3);
    Digest::empty().feed(&edges)
}

// 7 × 4: sweeping until still would give more edges.
const STILL: [u8; 28] = [
    193, 131, 131, 131, 131, 193, 131, 131, 193, 131, 131, 131, 131, 193, 131, 131, 131, 131, 131,
    131, 193, 131, 131, 131, 193, 131, 131, 193,
];

// 3 × 4: thinning on magnitudes capped at 255 would give other edges.
const CAPPED: [u8; 12] = [150, 171, 187, 167, 194, 166, 158, 56, 180, 158, 56, 56];

// The low and the high mark of each median.
#[tactic(auto, unfolding(crate::specs::Edges::marks_of))]
fn marks() -> Digest
    ensures { result ≡ marks_of 256 }
{
    let mut d = Digest::empty();
    for m in 0..256u32 {
        let low = canny_marks::low_threshold(m as u8);
        let high = canny_marks::high_threshold(m as u8);
        d = d.step(low).step(high);
    }
    d
}

// The windows of 65,536 frame sizes.
fn windows() -> Digest
    ensures { result ≡ windows_of 65536 }
{
    let mut d = Digest::empty();
    for c in 0..65536 {
        d = d.word(canny_marks::auto_kernel_size(c / 16, c % 16 * 273));
    }
    d
}

fn main(rt: HostRuntime) -> io::Result<()> {
    lines(&rt, "edges")?;
    wide_lines(&rt, "wide")?;
    replay::print_line(&rt, "still", 28, frame(&STILL, 7, 4).value())?;
    replay::print_line(&rt, "capped", 12, frame(&CAPPED, 3, 4).value())?;
    replay::print_line(&rt, "marks", 256, marks().value())?;
    replay::print_line(&rt, "auto_kernel_size", 65536, windows().value())
}
