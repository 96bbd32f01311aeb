// Planes of bytes: rows of a strided plane packed, how much two planes differ, and planes that take the place of others.
// Kept, point 5: plain parameters, as the functions under the frame records have (RULES 16.1).
#![tactic(auto)]

ghost use Rattle.std.specs.Prelude.{◌≡◌, ℕ, ◌+◌, ◌*◌, ◌^◌, ◌<◌, ◌≤◌, length};
ghost use Rattle.laws.specs.Lists.{tabulate};
ghost use Rattle.arch_planes.specs.Packed.{packed};
ghost use Rattle.arch_planes.specs.Difference.{sum_abs_diff, mean_of, mean_abs_diff};

// How much two planes of bytes differ: the whole sum of the absolute differences, the number of pixels, and the mean, which is the sum
// over that number by one division, 0.0 for no pixels.
#[derive(Clone, Copy)]
pub struct PlaneDifference {
    pub sum: u32,
    pub count: u32,
    pub mean: f64,
}

// Packs h rows of w bytes into dst, which is w * h bytes long, from parts of src: row y is the part that starts at
// y * stride. All of dst is written, and nothing else.
pub fn copy_plane(dst: &mut [u8], src: &[u8], w: usize, h: usize, stride: usize)
    requires dst_len { length dst.old ≡ w * h }
    requires by_index { (y : ℕ) → y < h → y * stride + w ≤ length src.now }
    ensures { dst.new ≡ packed src.now w h stride }
{
    // Kept: rows by their places: `chunks_exact_mut` refuses a width of 0, and rows of `src` may overlap.
    for y in 0..h {
        let start = y * w;
        let from = y * stride;
        dst[start..start + w].copy_from_slice(&src[from..from + w]);
    }
}

// How many bytes are summed in one go.
const BLOCK: usize = 32;

// The whole sum of the absolute differences of the bytes of a and b. 2^24 bytes are the most of a frame, and
// 255 * 2^24 fits a u32.
// Kept: differences in i32, which the compiler sums sixteen at a time; those of `u8::abs_diff` (tried) it sums one by one.
fn block_sum(a: &[u8], b: &[u8]) -> u32
    requires a_len { length a.now ≡ length b.now }
    requires a_len_bound { length a.now ≤ 2 ^ 24 }
    ensures value { result ≡ sum_abs_diff a.now b.now }
    ensures bound { result ≤ 255 * length a.now }
{
    a.iter()
        .zip(b)
        .map(|(x, y)| (*x as i32 - *y as i32).unsigned_abs())
        .sum()
}

// The same, block by block and then what is left: the compiler knows how long a block is, and sums it without a loop.
fn sum_abs_diff(a: &[u8], b: &[u8]) -> u32
    requires a_len { length a.now ≡ length b.now }
    requires a_len_bound { length a.now ≤ 2 ^ 24 }
    ensures value { result ≡ sum_abs_diff a.now b.now }
    ensures bound { result ≤ 255 * length a.now }
{
    let mut total = 0;
    // Kept: blocks by their places: of `chunks_exact` zipped, a proof has only the list of what was yielded, and not where it stands in a and b.
    for i in 0..a.len() / BLOCK {
        let at = BLOCK * i;
        total += block_sum(&a[at..at + BLOCK], &b[at..at + BLOCK]);
    }
    let whole = a.len() / BLOCK * BLOCK;
    total + block_sum(&a[whole..], &b[whole..])
}

// dst becomes src. The whole sum of the absolute differences of src and of what dst had.
fn replace_row(dst: &mut [u8], src: &[u8]) -> u32
    requires dst_len { length dst.old ≡ length src.now }
    requires dst_len_bound { length dst.old ≤ 2 ^ 24 }
    ensures value { result ≡ sum_abs_diff src.now dst.old }
    ensures bound { result ≤ 255 * length src.now }
    ensures replaced { dst.new ≡ src.now }
{
    let sum = sum_abs_diff(src, dst);
    dst.copy_from_slice(src);
    sum
}

// dst becomes the rows of src, packed as by `copy_plane`. The whole sum of their differences with what dst had, taken row by row, so that a
// row is still at hand when it is copied.
fn replace_rows(dst: &mut [u8], src: &[u8], w: usize, h: usize, stride: usize) -> u32
    requires dst_len { length dst.old ≡ w * h }
    requires dst_len_bound { w * h ≤ 2 ^ 24 }
    requires by_index { (y : ℕ) → y < h → y * stride + w ≤ length src.now }
    ensures value { result ≡ sum_abs_diff (packed src.now w h stride) dst.old }
    ensures bound { result ≤ 255 * (w * h) }
    ensures replaced { dst.new ≡ packed src.now w h stride }
{
    let mut total = 0;
    // Kept: rows by their places, as in `copy_plane`.
    for y in 0..h {
        let start = y * w;
        let from = y * stride;
        total += replace_row(&mut dst[start..start + w], &src[from..from + w]);
    }
    total
}

// How many bytes of what lies in one piece are taken as a row: few enough that they are still at hand when they are copied, and enough that
// what a row costs by itself is small beside them. Runs of 2048 and of 4096 (tried) are slower for wide planes.
const RUN: usize = 1024;

// dst becomes src, run by run and then what is left. The whole sum of the absolute differences of src and of what dst had.
fn replace_runs(dst: &mut [u8], src: &[u8]) -> u32
    requires dst_len { length dst.old ≡ length src.now }
    requires dst_len_bound { length dst.old ≤ 2 ^ 24 }
    ensures value { result ≡ sum_abs_diff src.now dst.old }
    ensures replaced { dst.new ≡ src.now }
{
    let runs = src.len() / RUN;
    let whole = RUN * runs;
    let total = replace_rows(&mut dst[..whole], src, RUN, runs, RUN);
    total + replace_row(&mut dst[whole..], &src[whole..])
}

// dst becomes the rows of src, packed as by `copy_plane`. The whole sum of their differences with what dst had. Rows that lie one after the
// other are one piece.
pub fn replace_plane(dst: &mut [u8], src: &[u8], w: usize, h: usize, stride: usize) -> u32
    requires dst_len { length dst.old ≡ w * h }
    requires dst_len_bound { w * h ≤ 2 ^ 24 }
    requires by_index { (y : ℕ) → y < h → y * stride + w ≤ length src.now }
    ensures value { result ≡ sum_abs_diff (packed src.now w h stride) dst.old }
    ensures replaced { dst.new ≡ packed src.now w h stride }
{
    if stride == w {
        replace_runs(dst, &src[..w * h])
    } else {
        replace_rows(dst, src, w, h, stride)
    }
}

// A run of zeros.
static ZEROS: [u8; RUN] = [0; RUN];

// dst becomes 0 throughout: each of its runs, and what is left, takes the same zeros. The whole sum of the differences with what it had.
pub fn clear_plane(dst: &mut [u8], w: usize, h: usize) -> u32
    requires dst_len { length dst.old ≡ w * h }
    requires sides { (w ≤ 4096) × (h ≤ 4096) }
    ensures value { result ≡ sum_abs_diff (tabulate (w * h) (λ _. 0)) dst.old }
    ensures cleared { dst.new ≡ tabulate (w * h) (λ _. 0) }
{
    let runs = w * h / RUN;
    let whole = RUN * runs;
    let total = replace_rows(&mut dst[..whole], &ZEROS, RUN, runs, 0);
    let rest = w * h - whole;
    total + replace_row(&mut dst[whole..], &ZEROS[..rest])
}

// A whole sum over a count of pixels, by one division; 0.0 for no pixels.
pub fn mean_of(total: u32, n: u32) -> f64
    ensures { result ≡ mean_of total n }
{
    if n == 0 { 0.0 } else { total as f64 / n as f64 }
}

// The difference of the planes a and b: whole sum, count and mean.
pub fn mean_abs_diff(a: &[u8], b: &[u8]) -> PlaneDifference
    requires a_len { length a.now ≡ length b.now }
    requires a_len_bound { length a.now ≤ 2 ^ 24 }
    ensures { result ≡ mean_abs_diff a.now b.now }
{
    let sum = sum_abs_diff(a, b);
    let count = a.len() as u32;
    PlaneDifference {
        sum,
        count,
        mean: mean_of(sum, count),
    }
}
