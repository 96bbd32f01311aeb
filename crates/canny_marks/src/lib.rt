// What the edges take from the luma plane as a whole: its median, the low and the high mark, and the side of the dilation's window.
#![tactic(auto)]

ghost use Rattle.std.specs.Prelude.{◌≡◌, List, ℕ, ◌+◌, ◌^◌, ◌<◌, [], eqb, length, get_or, sum};
ghost use Rattle.std.specs.List.{concat};
ghost use Rattle.laws.specs.Lists.{tabulate};
ghost use Rattle.canny_marks.specs.Median.{count, median_of};
ghost use Rattle.canny_marks.specs.Marks.{low_mark, high_mark};
ghost use Rattle.canny_marks.specs.Kernel.{auto_kernel_size};

mod table;

// How many bytes there are of each value in groups of four, as four counts, one for each place in a group. Most pictures have runs of equal
// bytes, and with one count for all places each byte would wait for what the one before it writes. The four counts of a value stand side by
// side: in four tables they would lie a multiple of 2048 bytes apart, which on common processors costs waits again.
fn count_fours(fours: &[[u8; 4]]) -> [[usize; 4]; 256]
    ensures { (v : ℕ) → v < 256 → sum (get_or result v []) ≡ count (λ b. eqb b v) (concat fours.now) }
{
    let mut counts = [[0; 4]; 256];
    for [a, b, c, d] in fours {
        counts[usize::from(*a)][0] += 1;
        counts[usize::from(*b)][1] += 1;
        counts[usize::from(*c)][2] += 1;
        counts[usize::from(*d)][3] += 1;
    }
    counts
}

// The sum of the counts of each value.
fn sums(counts: &[[usize; 4]; 256]) -> [usize; 256]
    requires { (v : ℕ) → v < 256 → sum (get_or counts.now v []) < 2 ^ 64 }
    ensures { (v : ℕ) → v < 256 → get_or result v 0 ≡ sum (get_or counts.now v []) }
{
    let mut sums = [0; 256];
    // Kept: an index beside the one iterator. With `iter_mut().zip(counts)` (tried here) a proof knows no element written.
    for (v, n) in sums.iter_mut().enumerate() {
        *n = counts[v].iter().sum();
    }
    sums
}

// How many bytes there are of each value: those in groups of four, and then the up to three that are left.
fn histogram(buf: &[u8]) -> [usize; 256]
    ensures { result ≡ tabulate 256 (λ v. count (λ b. eqb b v) buf.now) }
{
    let (fours, rest) = buf.as_chunks::<4>();
    let mut hist = sums(&count_fours(fours));
    for &b in rest {
        hist[usize::from(b)] += 1;
    }
    hist
}

// The median of n bytes, by how many there are of each value: of whatever bytes have these counts.
pub fn median_of_histogram(hist: &[usize; 256], n: usize) -> u8
    ensures { (luma : List ℕ)
        → ((i : ℕ) → i < length luma → get_or luma i 0 < 256)
        → hist.now ≡ tabulate 256 (λ v. count (λ b. eqb b v) luma)
        → n ≡ length luma
        → result ≡ median_of luma }
{
    // How many of the bytes from v on stand before the median.
    let mut before = n / 2;
    for (v, &count) in hist.iter().enumerate() {
        if before < count {
            return v as u8;
        }
        before -= count;
    }
    255
}

// The value at place floor(n / 2) of the sorted bytes, counted from 0; 255 for none (RULES 5.3).
// Not inlined: the counts take 12 KiB of stack, which a caller would then hold while it calls other functions.
#[inline(never)]
pub fn median_u8(buf: &[u8]) -> u8
    ensures { result ≡ median_of buf.now }
{
    median_of_histogram(&histogram(buf), buf.len())
}

// The low mark of a median (RULES 5.4).
pub fn low_threshold(median: u8) -> u8
    ensures { result ≡ low_mark median }
{
    table::LOW_MARKS[usize::from(median)]
}

// The high mark of a median (RULES 5.5).
pub fn high_threshold(median: u8) -> u8
    ensures { result ≡ high_mark median }
{
    table::HIGH_MARKS[usize::from(median)]
}

// The side k of the window for a frame of this size, where no k is set (RULES 5.13).
pub fn auto_kernel_size(width: u32, height: u32) -> u32
    ensures { result ≡ auto_kernel_size width height }
{
    let n = u64::from(width) * u64::from(height);
    // d is 0, and k is 4 plus 1.
    if n < 9216 {
        return 5;
    }
    // n / 96²: its root, rounded down, is 2d - 1 or 2d.
    let square = n / 9216;
    // The root is at least `root`, and less than root + gap: at first the powers of two that half the bits of `square` give.
    // Kept: `isqrt` takes 32 rounds for every frame. These are few for one of few pixels.
    let mut root = 1 << (square.ilog2() / 2);
    let mut gap = root;
    while 1 < gap {
        let half = gap / 2;
        if (root + half) * (root + half) <= square {
            root += half;
        }
        gap -= half;
    }
    let d = (root + 1) / 2;
    let k = 4 + d as u32;
    if k % 2 == 0 { k + 1 } else { k }
}
