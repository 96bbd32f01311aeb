// BGR bytes to hue, saturation and value, in whole numbers.
#![tactic(auto)]

ghost use Rattle.std.specs.Prelude.{◌≡◌, ℕ, ◌+◌, ◌*◌, ◌/◌, ◌<◌, ◌≤◌, min, length};
ghost use Rattle.arch_hsv.specs.Hsv.{rounded, value, delta, hsv_of, hsv_planes};
ghost use Rattle.arch_hsv.specs.Rows.{of_pixel, row_stored};
ghost use Rattle.arch_hsv.specs.Blocks.{sixths, FirstAre, Bounded, parts_stored};

mod table;

use table::Divider;

// Hue in half degrees, at most 179; saturation and value to 255.
#[derive(Clone, Copy)]
pub struct Hsv {
    pub h: u8,
    pub s: u8,
    pub v: u8,
}

// S, by V and D.
fn saturation(divider: &Divider, v: u8, d: u8) -> u8
    requires { d ≤ v }
    ensures { result ≡ rounded (255 * d) v }
{
    divider.nearest(255 * d as u32, v) as u8
}

// H, by D and the sixths. Above 179 it is 179.
fn hue(divider: &Divider, k: u16, d: u8) -> u8
    requires { k ≤ 6 * d }
    ensures { result ≡ min 179 (rounded (30 * k) d) }
{
    divider.nearest(30 * k as u32, d).min(179) as u8
}

// Hue in sixths of the circle, times D, by V and D. Each of the three cases is worked out, and one picked.
#[tactic(auto, using(crate::proofs::Reading::spread))]
fn sixths(b: u32, g: u32, r: u32, v: u32, d: u32) -> u32
    requires small { v ≤ 255 }
    requires largest { v ≡ value b g r }
    requires spread { d ≡ delta b g r }
    ensures value { result ≡ sixths b g r }
    ensures bound { result ≤ 1530 }
{
    let red = choose::pick(b <= g, 0, 6 * d) + g - b;
    let green = 2 * d + b - r;
    let blue = 4 * d + r - g;
    choose::pick(v == r, red, choose::pick(v == g, green, blue))
}

// What hue and saturation are worked out from: V, D and the sixths.
#[derive(Clone, Copy)]
struct Measured {
    v: u8,
    d: u8,
    k: u16,
}

#[tactic(auto, unfolding(crate::specs::Hsv::value, crate::specs::Hsv::delta))]
fn parts(b: u8, g: u8, r: u8) -> Measured
    ensures v { result.v ≡ value b g r }
    ensures d { result.d ≡ delta b g r }
    ensures k { result.k ≡ sixths b g r }
{
    let v = b.max(g).max(r);
    let d = v - b.min(g).min(r);
    let k = sixths(b as u32, g as u32, r as u32, v as u32, d as u32);
    Measured { v, d, k: k as u16 }
}

// One pixel.
// Kept: RULES 3 calls the three bytes B, G and R; an array would only number them.
#[tactic(auto, using(crate::proofs::ByCases::of_parts))]
pub fn bgr_to_hsv_pixel(b: u8, g: u8, r: u8) -> Hsv
    ensures { result ≡ hsv_of b g r }
{
    let divider = Divider::new();
    let p = parts(b, g, r);
    Hsv {
        h: hue(&divider, p.k, p.d),
        s: saturation(&divider, p.v, p.d),
        v: p.v,
    }
}

// The parts of up to 256 pixels.
// Kept: three arrays, and not one of `Measured`, of which the compiler works 4 pixels at a time in place of 8: the same loops in C took
// 1.11 to 1.15 times as long so.
#[derive(Drop)]
struct Block {
    v: [u8; 256],
    d: [u8; 256],
    k: [u16; 256],
}

impl Block {
    // The parts of the pixels of row. No table is read here, so that the compiler works several pixels at a time.
    fn measure(&mut self, row: &[u8])
        requires { length row.now ≤ 768 }
        ensures v { FirstAre (of_pixel value row.now) (length row.now / 3) self.new.v }
        ensures d { FirstAre (of_pixel delta row.now) (length row.now / 3) self.new.d }
        ensures k { FirstAre (of_pixel sixths row.now) (length row.now / 3) self.new.k }
    {
        let (pixels, _) = row.as_chunks::<3>();
        // Kept: three arrays are written at one place, so by an index and not by three iterators.
        for (x, [b, g, r]) in pixels.iter().enumerate() {
            let p = parts(*b, *g, *r);
            self.v[x] = p.v;
            self.d[x] = p.d;
            self.k[x] = p.k;
        }
    }

    // The first m pixels, stored from place first of the three planes of n bytes.
    // Kept: the number m beside the arrays, since memory is fixed: a row's last block is shorter.
    fn store(&self, divider: &Divider, m: usize, out: &mut [u8], first: usize, n: usize)
        requires m_bound { m ≤ 256 }
        requires out_len { length out.old ≡ 3 * n }
        requires inside { first + m ≤ n }
        requires by_index { (x : ℕ) → x < m → Bounded self.now.v self.now.d self.now.k x }
        ensures { out.new ≡ parts_stored out.old self.now.v self.now.d self.now.k first n m }
    {
        // Kept: three arrays are read and three planes written at one place.
        for x in 0..m {
            let a = first + x;
            out[a] = hue(divider, self.k[x], self.d[x]);
            out[n + a] = saturation(divider, self.v[x], self.d[x]);
            out[n + (n + a)] = self.v[x];
        }
    }
}

// The pixels of row, stored from place first of the three planes of n bytes, 256 of them at a time.
// Kept: the place and n are of the output, not of the row, whose length is its own.
fn bgr_to_hsv_row(divider: &Divider, out: &mut [u8], row: &[u8], first: usize, n: usize)
    requires out_len { length out.old ≡ 3 * n }
    requires whole { length row.now ≡ 3 * (length row.now / 3) }
    requires inside { first + length row.now / 3 ≤ n }
    ensures { out.new ≡ row_stored out.old row.now first n (length row.now / 3) }
{
    let mut block = Block {
        v: [0; 256],
        d: [0; 256],
        k: [0; 256],
    };
    let mut at = first;
    // Kept: the place beside the parts: by `enumerate` it would be counted in blocks.
    for part in row.chunks(768) {
        let m = part.len() / 3;
        block.measure(part);
        block.store(divider, m, out, at, n);
        at += m;
    }
}

// The hue, saturation and value planes of w columns and h rows, one after the other.
pub fn bgr_to_hsv_planes(out: &mut [u8], src: &[u8], w: usize, h: usize, stride: usize)
    requires out_len { length out.old ≡ 3 * (w * h) }
    requires by_index { (y : ℕ) → y < h → y * stride + 3 * w ≤ length src.now }
    ensures { out.new ≡ hsv_planes src.now w h stride }
{
    let divider = Divider::new();
    // Kept: rows by their places: `chunks_exact` refuses a stride of 0, and rows of `src` may overlap.
    for y in 0..h {
        let from = y * stride;
        bgr_to_hsv_row(&divider, out, &src[from..from + 3 * w], y * w, w * h);
    }
}
