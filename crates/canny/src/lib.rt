// The edge plane of a luma plane: `compute_edges`.
// Kept, point 5: plain parameters, as the functions under the frame records have (RULES 16.1).
#![tactic(auto)]

ghost use Rattle.std.specs.Prelude.{◌≡◌, ◌*◌, ◌≤◌, length, IfSome};
ghost use Rattle.canny_marks.specs.Median.{median_of};
ghost use Rattle.canny.specs.Edges.{strong_plane, edge_plane};

// The strong pixels, 255 each. The median is counted where it is not known yet. What mag holds afterwards is not promised.
#[tactic(auto, unfolding(crate::specs::Edges::strong_plane, crate::specs::Edges::class_plane))]
fn strong_plane(
    luma: &[u8],
    median: Option<u8>,
    mag: &mut [i32],
    edges: &mut [u8],
    w: usize,
    h: usize,
)
    requires w_bound { (w ≤ 4096) × (h ≤ 4096) }
    requires luma_len { length luma.now ≡ w * h }
    requires known { IfSome median (λ m. m ≡ median_of luma.now) }
    requires mag_len { (length mag.old ≡ w * h) × (length edges.old ≡ w * h) }
    ensures { edges.new ≡ strong_plane luma.now w h }
{
    let median = median.unwrap_or_else(|| canny_marks::median_u8(luma));
    let low = canny_marks::low_threshold(median);
    let high = canny_marks::high_threshold(median);
    canny_thin::non_max_suppress(luma, mag, edges, w, h, low, high);
    canny_hysteresis::hysteresis(edges, mag, w, h);
}

// The edge plane, with a window of k × k. A caller that knows the luma's median passes it. mag is scratch: it keeps its length, and its contents
// afterwards are left open.
#[tactic(auto, using(crate::proofs::Composed::branches))]
pub fn edge_plane(
    luma: &[u8],
    median: Option<u8>,
    mag: &mut [i32],
    edges: &mut [u8],
    w: usize,
    h: usize,
    k: u32,
)
    requires w_bound { (w ≤ 4096) × (h ≤ 4096) }
    requires luma_len { length luma.now ≡ w * h }
    requires known { IfSome median (λ m. m ≡ median_of luma.now) }
    requires mag_len { (length mag.old ≡ w * h) × (length edges.old ≡ w * h) }
    ensures edges_after { edges.new ≡ edge_plane luma.now w h k }
    ensures mag_len_unchanged { length mag.new ≡ length mag.old }
{
    if w < 3 || h < 3 {
        edges.fill(0);
    } else {
        strong_plane(luma, median, mag, edges, w, h);
        dilate::dilate(edges, w, h, k);
    }
}
