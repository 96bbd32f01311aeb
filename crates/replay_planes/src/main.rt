// Plane conversions, differences, Sobel's planes and frame checks over generated planes: a digest for each width of
// each, as compare/README.md states.
// Kept, point 2: `batch` and `lines` as in the other replays, over bounds of their own; a batch promises a definition of this program.
#![tactic(auto)]

use cases::Case;
use replay::{Digest, Run};
use std::io;

mod cases;
mod frames;
mod planes;

ghost use Rattle.std.specs.Prelude.{◌≡◌, ◌≤◌};
ghost use Rattle.replay_planes.specs.Batches.{one_of, batch_of};

// The batch's stages, in the order in which they are printed.
// Kept: the definitions name the stages, and a batch's contract is by them: with a closure it would be stated by `F.post` for any step, and be longer.
#[derive(Clone, Copy)]
pub enum Stage {
    CopyPlane,
    BgrToHsvPlanes,
    MeanAbsDiff,
    Sobel,
    Frame,
}

impl Stage {
    // One case of a batch.
    #[tactic(auto, unfolding(crate::specs::Batches::one_of))]
    fn run(self, run: Run, case: Case) -> Run
        ensures { result ≡ one_of self run case.w case.h case.kind }
    {
        match self {
            Stage::CopyPlane => planes::copy_plane(run, case),
            Stage::BgrToHsvPlanes => planes::bgr_to_hsv_planes(run, case),
            Stage::MeanAbsDiff => planes::mean_abs_diff(run, case),
            Stage::Sobel => planes::sobel(run, case),
            Stage::Frame => frames::frame(run, case),
        }
    }
}

// The heights 0 to 40, four kinds each.
#[tactic(auto, unfolding(crate::specs::Batches::batch_of))]
fn batch(stage: Stage, w: usize) -> Digest
    requires { w ≤ 40 }
    ensures { result ≡ (batch_of stage w 164).digest }
{
    let mut run = Run {
        x: w as u32,
        digest: Digest::empty(),
    };
    for c in 0..164usize {
        let case = Case {
            w,
            h: c / 4,
            kind: (c % 4) as u32,
        };
        run = stage.run(run, case);
    }
    run.digest
}

// The widths 0 to 40, a line each.
fn lines(rt: &impl Print, name: &str, stage: Stage) -> io::Result<()> {
    for w in 0..=40usize {
        replay::print_line(rt, name, w as u64, batch(stage, w).value())?;
    }
    Ok(())
}

// The sample of RULES 13.2: a 3 x 2 luma frame with stride 4, of so many bytes.
fn sample(rt: &impl Print, bytes: usize) -> io::Result<()>
    requires { bytes ≤ 8 }
{
    let answer = frame::check_luma(&[0; 8][..bytes], 3, 2, 4);
    replay::print_line(rt, "sample", bytes as u64, replay::number(answer) as u64)
}

fn main(rt: HostRuntime) -> io::Result<()> {
    lines(&rt, "copy_plane", Stage::CopyPlane)?;
    lines(&rt, "bgr_to_hsv_planes", Stage::BgrToHsvPlanes)?;
    lines(&rt, "mean_abs_diff", Stage::MeanAbsDiff)?;
    lines(&rt, "sobel", Stage::Sobel)?;
    lines(&rt, "frame", Stage::Frame)?;
    replay::print_line(&rt, "sides", 343, frames::sides().value())?;
    sample(&rt, 8)?;
    sample(&rt, 7)
}
