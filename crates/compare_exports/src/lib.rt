// The leaves, callable from other languages: compare/ holds them against the Rust. A slice passes as a pointer and then a length.
// Nothing is asked of a caller: what a leaf requires is tested here, and a call that fails the test writes nothing.
// Kept, point 1: the C interface returns a refusal's number, or 0.
// Kept, point 2: each C name is a function of its own, with the tests of its own lengths.
#![tactic(auto)]

ghost use Rattle.std.specs.Prelude.{◌≡◌, ◌&&◌, ◌*◌, ◌<◌, eqb, length};
ghost use Rattle.frame.specs.Checks.{luma_refusal, bgr_refusal, hsv_refusal};
ghost use Rattle.arch_hsv.specs.Hsv.{hue, saturation, value, hsv_planes};
ghost use Rattle.arch_planes.specs.Packed.{packed};
ghost use Rattle.arch_sobel.specs.Sobel.{sobel_mag, sobel_dir};
ghost use Rattle.canny_marks.specs.Median.{median_of};
ghost use Rattle.canny_marks.specs.Marks.{low_mark, high_mark};
ghost use Rattle.canny_marks.specs.Kernel.{auto_kernel_size};
ghost use Rattle.canny.specs.Edges.{edge_plane};
ghost use Rattle.timestamp.specs.Stamps.{duration_since, saturating_sub};
ghost use Rattle.compare_exports.specs.Guard.{number, after, difference_of, packed24, micros_of, earlier_of};
ghost use Rattle.compare_lists.specs.Wrote.{Wrote};

use std::num::f64_to_bits_with_nan;
use timestamp::Timestamp;

// The answer where a lent buffer's length is not that of the result.
const OTHER_LENGTH: u32 = 12;

// The check of a luma frame.
// Kept: a plane, its sides and its stride by themselves, here and below: the C interface passes slices and numbers, and no structs of the library's.
#[unsafe(no_mangle)]
pub extern "C" fn mw_check_luma(plane: &[u8], width: u32, height: u32, stride: u32) -> u32
    ensures { result ≡ luma_refusal (length plane.now) width height stride }
{
    replay::number(frame::check_luma(plane, width, height, stride))
}

// The check of a BGR frame.
// Kept: pixels, sides and stride by themselves, for the C interface.
#[unsafe(no_mangle)]
pub extern "C" fn mw_check_bgr(pixels: &[u8], width: u32, height: u32, stride: u32) -> u32
    ensures { result ≡ bgr_refusal (length pixels.now) width height stride }
{
    replay::number(frame::check_bgr(pixels, width, height, stride))
}

// The check of an HSV frame.
// Kept: planes, sides and stride by themselves, for the C interface.
#[unsafe(no_mangle)]
pub extern "C" fn mw_check_hsv(
    hue: &[u8],
    saturation: &[u8],
    value: &[u8],
    width: u32,
    height: u32,
    stride: u32,
) -> u32
    ensures { result ≡ hsv_refusal (length hue.now) (length saturation.now) (length value.now) width height stride }
{
    replay::number(frame::check_hsv(hue, saturation, value, width, height, stride))
}

// Packs the rows of a luma plane into out, whose length is width * height.
#[tactic(auto, using(refusal::proofs::Numbers::positive, crate::proofs::Guarded::refused, crate::proofs::Guarded::done_one, crate::proofs::Guarded::misfit_one))]
#[unsafe(no_mangle)]
pub extern "C" fn mw_copy_plane(
    out: &mut [u8],
    plane: &[u8],
    width: u32,
    height: u32,
    stride: u32,
) -> u32
    ensures value { result ≡ number (luma_refusal (length plane.now) width height stride) (eqb (length out.old) (width * height)) }
    ensures out_after { out.new ≡ after result (packed plane.now width height stride) out.old }
{
    if let Err(refusal) = frame::check_luma(plane, width, height, stride) {
        return refusal.number();
    }
    let w = width as usize;
    let h = height as usize;
    if out.len() != w * h {
        return OTHER_LENGTH;
    }
    arch_planes::copy_plane(out, plane, w, h, stride as usize);
    0
}

// One pixel: hue * 65536 + saturation * 256 + value.
// Kept: three bytes by themselves, for the C interface.
#[tactic(auto, unfolding(arch_hsv::specs::Hsv::hsv_of))]
#[unsafe(no_mangle)]
pub extern "C" fn mw_bgr_to_hsv_pixel(b: u8, g: u8, r: u8) -> u32
    ensures { result ≡ packed24 (hue b g r) (saturation b g r) (value b g r) }
{
    let p = arch_hsv::bgr_to_hsv_pixel(b, g, r);
    p.h as u32 * 65536 + p.s as u32 * 256 + p.v as u32
}

// The hue, saturation and value planes of a BGR frame, one after the other in out, whose length is 3 * width * height.
#[tactic(auto, using(refusal::proofs::Numbers::positive, crate::proofs::Guarded::refused, crate::proofs::Guarded::done_one, crate::proofs::Guarded::misfit_one))]
#[unsafe(no_mangle)]
pub extern "C" fn mw_bgr_to_hsv_planes(
    out: &mut [u8],
    pixels: &[u8],
    width: u32,
    height: u32,
    stride: u32,
) -> u32
    ensures value { result ≡ number (bgr_refusal (length pixels.now) width height stride) (eqb (length out.old) (3 * (width * height))) }
    ensures out_after { out.new ≡ after result (hsv_planes pixels.now width height stride) out.old }
{
    if let Err(refusal) = frame::check_bgr(pixels, width, height, stride) {
        return refusal.number();
    }
    let w = width as usize;
    let h = height as usize;
    if out.len() != 3 * (w * h) {
        return OTHER_LENGTH;
    }
    arch_hsv::bgr_to_hsv_planes(out, pixels, w, h, stride as usize);
    0
}

// The difference of two planes of one length, of 2^24 bytes at most, as three words; three zeros for others.
fn difference(a: &[u8], b: &[u8]) -> [u64; 3]
    ensures { result ≡ difference_of a.now b.now }
{
    if a.len() == b.len() && a.len() <= 16777216 {
        let found = arch_planes::mean_abs_diff(a, b);
        [
            found.sum as u64,
            found.count as u64,
            f64_to_bits_with_nan(found.mean),
        ]
    } else {
        [0, 0, 0]
    }
}

// Writes the whole sum, the count and the bits of the mean.
#[unsafe(no_mangle)]
pub extern "C" fn mw_mean_abs_diff(out: &mut [u64; 3], a: &[u8], b: &[u8])
    ensures { out.new ≡ difference_of a.now b.now }
{
    *out = difference(a, b);
}

// Sobel's magnitude and direction planes of a packed luma plane, all three of width * height places.
#[tactic(auto, using(refusal::proofs::Numbers::positive, crate::proofs::Guarded::refused, crate::proofs::Guarded::done_three, crate::proofs::Guarded::misfit_three))]
#[unsafe(no_mangle)]
pub extern "C" fn mw_sobel(
    mag: &mut [i32],
    dir: &mut [u8],
    luma: &[u8],
    width: u32,
    height: u32,
) -> u32
    ensures value { result ≡ number (luma_refusal (length luma.now) width height width) (eqb (length luma.now) (width * height) && (eqb (length mag.old) (width * height) && eqb (length dir.old) (width * height))) }
    ensures mag_after { mag.new ≡ after result (sobel_mag luma.now width height) mag.old }
    ensures dir_after { dir.new ≡ after result (sobel_dir luma.now width height) dir.old }
{
    if let Err(refusal) = frame::check_luma(luma, width, height, width) {
        return refusal.number();
    }
    let w = width as usize;
    let h = height as usize;
    let n = w * h;
    if luma.len() != n || mag.len() != n || dir.len() != n {
        return OTHER_LENGTH;
    }
    arch_sobel::sobel(luma, mag, dir, w, h);
    0
}

// The median of a luma plane, 255 of an empty one.
#[unsafe(no_mangle)]
pub extern "C" fn mw_median(luma: &[u8]) -> u8
    ensures { result ≡ median_of luma.now }
{
    canny_marks::median_u8(luma)
}

// The low mark of a median.
#[unsafe(no_mangle)]
pub extern "C" fn mw_low_threshold(median: u8) -> u8
    ensures { result ≡ low_mark median }
{
    canny_marks::low_threshold(median)
}

// The high mark of a median.
#[unsafe(no_mangle)]
pub extern "C" fn mw_high_threshold(median: u8) -> u8
    ensures { result ≡ high_mark median }
{
    canny_marks::high_threshold(median)
}

// The side of the window where none is set.
#[unsafe(no_mangle)]
pub extern "C" fn mw_auto_kernel_size(width: u32, height: u32) -> u32
    ensures { result ≡ auto_kernel_size width height }
{
    canny_marks::auto_kernel_size(width, height)
}

// The edge plane of a packed luma plane with a window of k × k; all three of width * height places. Of mag, which is scratch, an
// accepted call keeps the length alone.
#[tactic(auto, using(refusal::proofs::Numbers::positive, crate::proofs::Guarded::refused, crate::proofs::Guarded::done_three, crate::proofs::Guarded::misfit_three))]
#[unsafe(no_mangle)]
pub extern "C" fn mw_edge_plane(
    edges: &mut [u8],
    mag: &mut [i32],
    luma: &[u8],
    width: u32,
    height: u32,
    k: u32,
) -> u32
    ensures value { result ≡ number (luma_refusal (length luma.now) width height width) (eqb (length luma.now) (width * height) && (eqb (length mag.old) (width * height) && eqb (length edges.old) (width * height))) }
    ensures edges_after { edges.new ≡ after result (edge_plane luma.now width height k) edges.old }
    ensures mag_len_unchanged { (length mag.new ≡ length mag.old) × (0 < result → mag.new ≡ mag.old) }
{
    if let Err(refusal) = frame::check_luma(luma, width, height, width) {
        return refusal.number();
    }
    let w = width as usize;
    let h = height as usize;
    let n = w * h;
    if luma.len() != n || mag.len() != n || edges.len() != n {
        return OTHER_LENGTH;
    }
    canny::edge_plane(luma, None, mag, edges, w, h, k);
    0
}

// How far ts is past earlier, in microseconds; 0 where it is before it.
#[unsafe(no_mangle)]
pub extern "C" fn mw_duration_since(ts: i64, earlier: i64) -> u64
    ensures { result ≡ micros_of (duration_since (record { micros = ts }) (record { micros = earlier })) }
{
    timestamp::duration_since(Timestamp { micros: ts }, Timestamp { micros: earlier }).unwrap_or(0)
}

// 1 where ts is before earlier, and else 0.
#[unsafe(no_mangle)]
pub extern "C" fn mw_is_earlier(ts: i64, earlier: i64) -> u32
    ensures { result ≡ earlier_of (duration_since (record { micros = ts }) (record { micros = earlier })) }
{
    timestamp::duration_since(
        Timestamp { micros: ts },
        Timestamp { micros: earlier },
    ).is_none() as u32
}

// ts less d, stopping at -2^63.
#[unsafe(no_mangle)]
pub extern "C" fn mw_saturating_sub_duration(ts: i64, d: u64) -> i64
    ensures { result ≡ (saturating_sub (record { micros = ts }) d).micros }
{
    timestamp::saturating_sub_duration(Timestamp { micros: ts }, d).micros
}

// Runs the list of content calls that script describes (compare/README.md), on memory of its own, and writes what each call brings to
// out. Returns how many bytes it wrote; the others stay. What is written no contract says: the calls' own contracts say what they
// bring.
// Kept: beside `mw_adaptive_list`, since a C name stands for each detector.
#[unsafe(no_mangle)]
pub extern "C" fn mw_content_list(script: &[u8], out: &mut [u8]) -> u64
    ensures { Wrote out.old out.new 0 result }
{
    compare_content_lists::run(script, out) as u64
}

// The same for a list of adaptive calls.
// Kept: beside `mw_content_list`, since a C name stands for each detector.
#[unsafe(no_mangle)]
pub extern "C" fn mw_adaptive_list(script: &[u8], out: &mut [u8]) -> u64
    ensures { Wrote out.old out.new 0 result }
{
    compare_adaptive_lists::run(script, out) as u64
}
