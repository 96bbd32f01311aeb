// The luma median of a frame, by which a light plan's row is found (RULES 18.5): for whoever writes a plan and must know the medians of the room.
// Kept, point 5: plain parameters, as the checks of frames have (RULES 16.1).
#![tactic(auto)]

ghost use Rattle.std.specs.Prelude.{◌≡◌, ℕ, ◌+◌, ◌*◌, ◌^◌, ◌<◌, ◌≤◌, eqb, length, get_or, IfOk};
ghost use Rattle.laws.specs.Lists.{tabulate};
ghost use Rattle.refusal.specs.Refusal.{number_in};
ghost use Rattle.frame.specs.Checks.{luma_refusal};
ghost use Rattle.arch_planes.specs.Packed.{packed};
ghost use Rattle.canny_marks.specs.Median.{count, median_of};

use canny_marks::{median_of_histogram, median_u8};
use refusal::Refusal;

// A row's bytes are counted too: each count grows by how many bytes of its value the row has.
fn add_row(counts: &mut [usize; 256], row: &[u8])
    requires { (v : ℕ) → v < 256 → get_or counts.old v 0 + length row.now < 2 ^ 64 }
    ensures { counts.new ≡ tabulate 256 (λ v. get_or counts.old v 0 + count (λ b. eqb b v) row.now) }
{
    for &b in row {
        counts[usize::from(b)] += 1;
    }
}

// How many bytes there are of each value in h rows of w bytes, of which row y starts at y * stride.
fn count_rows(plane: &[u8], w: usize, h: usize, stride: usize) -> [usize; 256]
    requires size { w * h < 2 ^ 64 }
    requires by_index { (y : ℕ) → y < h → y * stride + w ≤ length plane.now }
    ensures { result ≡ tabulate 256 (λ v. count (λ b. eqb b v) (packed plane.now w h stride)) }
{
    let mut counts = [0; 256];
    for y in 0..h {
        let start = y * stride;
        add_row(&mut counts, &plane[start..start + w]);
    }
    counts
}

// The median of a luma frame, refused by 1 to 3. Rows without padding are counted as one.
pub fn luma_median(plane: &[u8], width: u32, height: u32, stride: u32) -> Result<u8, Refusal>
    ensures number { number_in result ≡ luma_refusal (length plane.now) width height stride }
    ensures value { IfOk result (λ m. m ≡ median_of (packed plane.now width height stride)) }
{
    frame::check_luma(plane, width, height, stride)?;
    let w = width as usize;
    let h = height as usize;
    let pixels = w * h;
    if stride == width {
        return Ok(median_u8(&plane[..pixels]));
    }
    let counts = count_rows(plane, w, h, stride as usize);
    Ok(median_of_histogram(&counts, pixels))
}
