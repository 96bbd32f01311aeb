// What both detectors do with a frame's pixels: its packed planes (RULES 2.7), the sums of their differences with those of the store
// (RULES 4.3, 4.4), and the store after it (RULES 12.3). A plane takes its place in the store row by row, and its differences with what
// stood there are summed at the same time.
// Kept, point 5: the frame's numbers are plain parameters (RULES 16.1). That `planes` is three planes long is asked by three functions,
// each with one or two callers.
// Kept, point 2: luma, BGR and HSV planes come in three ways, a function for each.
#![tactic(auto)]

ghost use Rattle.std.specs.Prelude.{◌≡◌, cond, ℕ, ◌+◌, ◌*◌, ◌<◌, ◌≤◌, length, IfSome};
ghost use Rattle.scoring.specs.Planes.{joined, luma_frame, bgr_frame, hsv_frame, luma_part, edge_part};
ghost use Rattle.scoring.specs.Sums.{plane_sums, kernel_of};
ghost use Rattle.scoring.specs.Replaced.{with_edge_plane, with_edge_sum};
ghost use Rattle.arch_planes.specs.Difference.{sum_abs_diff};
ghost use Rattle.stream.specs.Stream.{no_sums};
ghost use Rattle.canny_marks.specs.Median.{median_of};
ghost use Rattle.canny.specs.Edges.{edge_plane};

use stream::Sums;

// The planes of a luma frame take the place of those in `planes`, which is 3 * w * h bytes long. The sums of their differences; the edge
// sum is 0.
#[tactic(auto, using(crate::proofs::Parts::last_of_three), unfolding(crate::specs::Planes::luma_frame))]
pub fn replace_luma(planes: &mut [u8], plane: &[u8], w: usize, h: usize, stride: usize) -> Sums
    requires planes_len { length planes.old ≡ 3 * (w * h) }
    requires sides { (w ≤ 4096) × (h ≤ 4096) }
    requires by_index { (y : ℕ) → y < h → y * stride + w ≤ length plane.now }
    ensures value { result ≡ plane_sums (w * h) (luma_frame plane.now w h stride) 0 planes.old }
    ensures replaced { planes.new ≡ joined (luma_frame plane.now w h stride) }
{
    let n = w * h;
    let (hue, rest) = planes.split_at_mut(n);
    let (saturation, luma) = rest.split_at_mut(n);
    Sums {
        hue: arch_planes::clear_plane(hue, w, h),
        saturation: arch_planes::clear_plane(saturation, w, h),
        luma: arch_planes::replace_plane(luma, plane, w, h, stride),
        edges: 0,
        count: n as u32,
    }
}

// The same with the planes of an HSV frame.
#[tactic(auto, using(crate::proofs::Parts::last_of_three), unfolding(crate::specs::Planes::hsv_frame))]
pub fn replace_hsv(
    planes: &mut [u8],
    hue: &[u8],
    saturation: &[u8],
    value: &[u8],
    w: usize,
    h: usize,
    stride: usize,
) -> Sums
    requires planes_len { length planes.old ≡ 3 * (w * h) }
    requires sides { (w ≤ 4096) × (h ≤ 4096) }
    requires by_index { (y : ℕ) → y < h → y * stride + w ≤ length hue.now }
    requires by_index_2 { (y : ℕ) → y < h → y * stride + w ≤ length saturation.now }
    requires by_index_3 { (y : ℕ) → y < h → y * stride + w ≤ length value.now }
    ensures value { result ≡ plane_sums (w * h) (hsv_frame hue.now saturation.now value.now w h stride) 0 planes.old }
    ensures replaced { planes.new ≡ joined (hsv_frame hue.now saturation.now value.now w h stride) }
{
    let n = w * h;
    let (stored_hue, rest) = planes.split_at_mut(n);
    let (stored_saturation, stored_luma) = rest.split_at_mut(n);
    Sums {
        hue: arch_planes::replace_plane(stored_hue, hue, w, h, stride),
        saturation: arch_planes::replace_plane(stored_saturation, saturation, w, h, stride),
        luma: arch_planes::replace_plane(stored_luma, value, w, h, stride),
        edges: 0,
        count: n as u32,
    }
}

// The same with the planes that a BGR frame is converted to, in `made`, which is as long as `planes`.
#[tactic(auto, using(crate::proofs::Parts::made_frame, crate::proofs::Parts::converted))]
pub fn replace_bgr(
    planes: &mut [u8],
    made: &mut [u8],
    pixels: &[u8],
    w: usize,
    h: usize,
    stride: usize,
) -> Sums
    requires planes_len { length planes.old ≡ 3 * (w * h) }
    requires made_len { length made.old ≡ 3 * (w * h) }
    requires sides { (w ≤ 4096) × (h ≤ 4096) }
    requires by_index { (y : ℕ) → y < h → y * stride + 3 * w ≤ length pixels.now }
    ensures value { result ≡ plane_sums (w * h) (bgr_frame pixels.now w h stride) 0 planes.old }
    ensures replaced { planes.new ≡ joined (bgr_frame pixels.now w h stride) }
    ensures made { made.new ≡ joined (bgr_frame pixels.now w h stride) }
{
    arch_hsv::bgr_to_hsv_planes(made, pixels, w, h, stride);
    let n = w * h;
    let (hue, rest) = made.split_at(n);
    let (saturation, value) = rest.split_at(n);
    replace_hsv(planes, hue, saturation, value, w, h, w)
}

// The edge plane of the stored luma takes the place of the fourth plane of the store. The sum of their differences.
fn replace_edges(
    store: &mut [u8],
    scratch: &mut [u8],
    mag: &mut [i32],
    w: usize,
    h: usize,
    k: u32,
    median: Option<u8>,
) -> u32
    requires sides { (w ≤ 4096) × (h ≤ 4096) }
    requires store_room { w * h + (w * h + (w * h + w * h)) ≤ length store.old }
    requires known { IfSome median (λ m. m ≡ median_of (luma_part (w * h) store.old)) }
    requires scratch_room { w * h ≤ length scratch.old }
    requires mag_room { w * h ≤ length mag.old }
    ensures value { result ≡ sum_abs_diff (edge_plane (luma_part (w * h) store.old) w h k) (edge_part (w * h) store.old) }
    ensures replaced { store.new ≡ with_edge_plane (w * h) (edge_plane (luma_part (w * h) store.old) w h k) store.old }
{
    let n = w * h;
    let (planes, rest) = store.split_at_mut(n + (n + n));
    let (stored, _) = rest.split_at_mut(n);
    let made = &mut scratch[..n];
    canny::edge_plane(&planes[n + n..], median, &mut mag[..n], made, w, h, k);
    arch_planes::replace_plane(stored, made, w, h, w)
}

// k as set, or by the frame's size.
pub fn kernel(kernel_size: Option<u32>, width: u32, height: u32) -> u32
    ensures { result ≡ kernel_of kernel_size width height }
{
    kernel_size.unwrap_or_else(|| canny_marks::auto_kernel_size(width, height))
}

// How a frame is scored: whether edges are on, the side k of the window around an edge, whether a frame of the same size came before it
// in the stretch, which it is compared with (RULES 6.5), and the median of its luma plane, where it is known already.
#[derive(Clone, Copy)]
pub struct FrameScoring {
    pub edges: bool,
    pub k: u32,
    pub scored: bool,
    pub median: Option<u8>,
}

// These sums of a scored frame, and none of another.
fn sums_if(scored: bool, sums: Sums) -> Sums
    ensures { result ≡ cond scored sums no_sums }
{
    if scored { sums } else { stream::no_sums() }
}

// The sums of a frame whose planes took the place of the first three in the store, with these sums: with the edge sum, if edges are on, and
// none of a frame that is not scored. The store gets its edge plane too, if edges are on. Of what the scratch and the magnitudes then hold
// nothing is promised: any content is right.
pub fn frame_sums(
    store: &mut [u8],
    scratch: &mut [u8],
    mag: &mut [i32],
    w: usize,
    h: usize,
    how: FrameScoring,
    sums: Sums,
) -> Sums
    requires sides { (w ≤ 4096) × (h ≤ 4096) }
    requires store_room { w * h + (w * h + (w * h + w * h)) ≤ length store.old }
    requires scratch_room { w * h ≤ length scratch.old }
    requires mag_room { w * h ≤ length mag.old }
    requires known { IfSome how.median (λ m. m ≡ median_of (luma_part (w * h) store.old)) }
    ensures value { result ≡ cond how.scored (cond how.edges (with_edge_sum sums (sum_abs_diff (edge_plane (luma_part (w * h) store.old) w h how.k) (edge_part (w * h) store.old))) sums) no_sums }
    ensures store_after { store.new ≡ cond how.edges (with_edge_plane (w * h) (edge_plane (luma_part (w * h) store.old) w h how.k) store.old) store.old }
{
    if how.edges {
        let edges = replace_edges(store, scratch, mag, w, h, how.k, how.median);
        sums_if(how.scored, Sums { edges, ..sums })
    } else {
        sums_if(how.scored, sums)
    }
}
