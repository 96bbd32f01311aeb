// The Sobel operator over a plane of bytes, `sobel` of arch.rs.
// Kept, point 5: plain parameters, as the functions under the frame records have (RULES 16.1).
#![tactic(auto)]

ghost use Rattle.std.specs.Prelude.{◌≡◌, pos, ◌+◌, ◌*◌, ◌<◌, ◌≤◌, nat_abs, length};
ghost use Rattle.laws.specs.Lists.{tabulate};
ghost use Rattle.arch_sobel.specs.Sobel.{grad_x, grad_y, dir_of, mag_at, dir_at, sobel_mag, sobel_dir};
ghost use Rattle.arch_sobel.specs.Inner.{smooth, grad, Inner, InnerPart};

// Three bytes with Sobel's weights 1, 2, 1: that at place i, and those a step before and a step after it.
fn smooth(s: &[u8], i: usize, step: usize) -> u32
    requires before { step ≤ i }
    requires after { i + step < length s.now }
    ensures value { result ≡ smooth s.now i step }
    ensures bound { result ≤ 1020 }
{
    s[i - step] as u32 + 2 * s[i] as u32 + s[i + step] as u32
}

// The gradient at place i: what is a step on less what is a step back, each smoothed by steps the other way.
fn grad(s: &[u8], i: usize, step: usize, other: usize) -> i32
    requires before { step + other ≤ i }
    requires after { i + step + other < length s.now }
    ensures value { result ≡ grad s.now i step other }
    ensures bound { nat_abs result ≤ 1020 }
{
    smooth(s, i + step, other) as i32 - smooth(s, i - step, other) as i32
}

// |g|.
// Kept: RULES 16.1 wants the size of a gradient as a negation, and no call of `unsigned_abs`.
fn size(g: i32) -> u32
    requires { nat_abs g ≤ 1020 }
    ensures { result ≡ nat_abs g }
{
    if g < 0 { (-g) as u32 } else { g as u32 }
}

// The direction of a gradient, by its sizes and then by its signs.
// Kept: a number, since the directions are a plane of lent bytes (RULES 12.1).
fn direction(gx: i32, gy: i32) -> u8
    requires gx_bound { nat_abs gx ≤ 1020 }
    requires gy_bound { nat_abs gy ≤ 1020 }
    ensures { result ≡ dir_of gx gy }
{
    let ax = size(gx);
    let ay = size(gy);
    let slant = choose::pick(gx.signum() == gy.signum(), 1, 3);
    let steep = choose::pick(2414 * ax < 1000 * ay, 2, slant);
    choose::pick(1000 * ay < 414 * ax, 0, steep)
}

// The gradient at an inner place: gx across, gy down.
#[derive(Clone, Copy)]
struct Gradient {
    gx: i32,
    gy: i32,
    ghost gx_bound: { nat_abs gx ≤ 1020 },
    ghost gy_bound: { nat_abs gy ≤ 1020 },
}

impl Gradient {
    // |gx| + |gy|
    fn magnitude(self) -> i32
        ensures { result ≡ pos (nat_abs self.gx + nat_abs self.gy) }
    {
        let sum = size(self.gx) + size(self.gy);
        sum as i32
    }
}

// A plane of bytes of w columns and h rows, row after row.
#[derive(Clone, Copy)]
pub struct Plane<'a> {
    pub bytes: &'a [u8],
    pub w: usize,
    pub h: usize,
    ghost packed: { length bytes.now ≡ w * h },
}

impl Plane<'_> {
    // The gradient at an inner place.
    fn gradient(self, x: usize, y: usize) -> Gradient
        requires { Inner self.w self.h x y }
        ensures gx { result.gx ≡ grad_x self.entry.bytes.now self.entry.w x y }
        ensures gy { result.gy ≡ grad_y self.entry.bytes.now self.entry.w x y }
    {
        let i = y * self.w + x;
        let gx = grad(self.bytes, i, 1, self.w);
        let gy = grad(self.bytes, i, self.w, 1);
        Gradient { gx, gy }
    }

    // The magnitudes of row y, 0 at the border. The inner places are written by a loop without a test, which the compiler works several
    // places at a time.
    pub fn magnitudes(self, mag: &mut [i32], y: usize)
        requires y_lt_h { y < self.h }
        requires mag_len { length mag.old ≡ self.w }
        ensures { mag.new ≡ tabulate self.entry.w (λ x. mag_at self.entry.bytes.now self.entry.w self.entry.h x y) }
    {
        if y == 0 || self.h <= y + 1 || self.w < 2 {
            mag.fill(0);
            return;
        }
        let last = self.w - 1;
        mag[0] = 0;
        // Kept: three rows are read about a place: an index says it plainer than five iterators.
        for x in 1..last {
            mag[x] = self.gradient(x, y).magnitude();
        }
        mag[last] = 0;
    }

    // The directions at inner places of row y from column x on, as many as out has.
    pub fn directions(self, out: &mut [u8], x: usize, y: usize)
        requires { InnerPart self.w self.h (length out.old) x y }
        ensures { out.new ≡ tabulate (length out.old) (λ j. dir_at self.entry.bytes.now self.entry.w self.entry.h (x + j) y) }
    {
        for (j, d) in out.iter_mut().enumerate() {
            let g = self.gradient(x + j, y);
            *d = direction(g.gx, g.gy);
        }
    }

    // The directions of row y, 0 at the border.
    fn direction_row(self, dir: &mut [u8], y: usize)
        requires y_lt_h { y < self.h }
        requires dir_len { length dir.old ≡ self.w }
        ensures { dir.new ≡ tabulate self.entry.w (λ x. dir_at self.entry.bytes.now self.entry.w self.entry.h x y) }
    {
        if y == 0 || self.h <= y + 1 || self.w < 2 {
            dir.fill(0);
            return;
        }
        let last = self.w - 1;
        dir[0] = 0;
        self.directions(&mut dir[1..last], 1, y);
        dir[last] = 0;
    }
}

// The magnitude and the direction of the gradient at each pixel of a plane of w columns and h rows; 0 at the border.
// Both planes are written whole.
pub fn sobel(input: &[u8], mag: &mut [i32], dir: &mut [u8], w: usize, h: usize)
    requires input_len { length input.now ≡ w * h }
    requires mag_len { (length mag.old ≡ w * h) × (length dir.old ≡ w * h) }
    ensures mag_after { mag.new ≡ sobel_mag input.now w h }
    ensures dir_after { dir.new ≡ sobel_dir input.now w h }
{
    let plane = Plane { bytes: input, w, h };
    // Kept: rows by their places: `chunks_exact_mut` refuses a width of 0.
    for y in 0..h {
        let start = y * w;
        let end = start + w;
        plane.magnitudes(&mut mag[start..end], y);
        plane.direction_row(&mut dir[start..end], y);
    }
}
