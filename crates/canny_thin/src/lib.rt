// Thinning and classes: from the luma plane to its magnitudes and to the plane of pixels that are weak (1), strong (2) or neither (0).
// Kept, point 5: plain parameters, as the functions under the frame records have (RULES 16.1).
#![tactic(auto)]

ghost use Rattle.std.specs.Prelude.{◌≡◌, ℕ, cond, ◌+◌, ◌*◌, ◌<◌, ◌≤◌, min, max, length, get_or, pos};
ghost use Rattle.std.specs.List.{list_all};
ghost use Rattle.std.specs.Int.Signed.{lt_z};
ghost use Rattle.laws.specs.Lists.{tabulate};
ghost use Rattle.arch_sobel.specs.Inner.{Inner, InnerPart};
ghost use Rattle.arch_sobel.specs.Sobel.{sobel_mag, sobel_dir};
ghost use Rattle.canny_thin.specs.Step.{stays_by, stays_along};
ghost use Rattle.canny_thin.specs.Blocks.{class_in, with_row};
ghost use Rattle.canny_thin.specs.Thin.{stays, class_of, class_at, thinned};

use arch_sobel::Plane;

// Whether m is above 0 and below neither a nor b. `&` and not `&&`: no branch, and the value is the definition's own.
fn keeps(m: i32, a: i32, b: i32) -> bool
    ensures { result ≡ stays m a b }
{
    (0 < m) & ((a <= m) & (b <= m))
}

// Whether the pixel at place i stays, against the places s further on and s back.
fn keeps_by(mag: &[i32], i: usize, s: usize) -> bool
    requires { (s ≤ i) × (i + s < length mag.now) }
    ensures { result ≡ stays_by mag.now i s }
{
    keeps(mag[i], mag[i + s], mag[i - s])
}

// Whether the pixel at place i stays along its direction. All four are tried, the neighbours being 1, w + 1, w and w - 1 places on and
// back, and one is picked: so a loop over places has the same reads at each, and the compiler works several at a time.
// Kept: all four ways are tried and one is picked, without a branch, for speed: a closure or an enum would branch.
fn keeps_along(mag: &[i32], w: usize, dir: u8, i: usize) -> bool
    requires { (0 < w) × ((w + 1 ≤ i) × (i + (w + 1) < length mag.now)) }
    ensures { result ≡ stays_along mag.now w dir i }
{
    let across = keeps_by(mag, i, 1);
    let fall = keeps_by(mag, i, w + 1);
    let down = keeps_by(mag, i, w);
    let rise = keeps_by(mag, i, w - 1);
    choose::pick(
        dir == 0,
        across,
        choose::pick(dir == 1, fall, choose::pick(dir == 2, down, rise)),
    )
}

// The class of a pixel that stays, else 0. A sum and no branches.
// Kept: a number, since the classes are a plane of lent bytes (RULES 12.1).
fn class_of(stay: bool, m: i32, low: u8, high: u8) -> u8
    ensures { result ≡ cond stay (class_of low high m) 0 }
{
    let strong = i32::from(high) <= m;
    let weak = i32::from(low) <= m;
    u8::from(stay & strong) + u8::from(stay & (strong | weak))
}

// Whether all magnitudes are under the limit. `&` and not `&&`: no branch, so the compiler works several at a time.
// Kept: `all` stops at the first that is not, and so is not worked several at a time; in `fold` (tried) a proof does not know that each
// magnitude is an i32.
fn all_under(mag: &[i32], limit: i32) -> bool
    ensures { result ≡ list_all (λ m. lt_z m limit) mag.now }
{
    let mut under = true;
    for m in mag {
        under &= *m < limit;
    }
    under
}

// A luma plane and its magnitudes, as far as they are worked out, and the marks of the classes.
#[derive(Clone, Copy)]
struct Thinning<'a, 'b> {
    luma: Plane<'a>,
    mag: &'b [i32],
    low: u8,
    high: u8,
    ghost packed: { length mag.now ≡ luma.w * luma.h },
}

impl Thinning<'_, '_> {
    // The least magnitude that has a class: 1, or the lesser mark where that is more.
    fn least(self) -> i32
        ensures { result ≡ pos (max 1 (min self.entry.low self.entry.high)) }
    {
        i32::from(self.low.min(self.high).max(1))
    }

    // The class at an inner place of direction dir.
    fn class_at(self, dir: u8, x: usize, y: usize) -> u8
        requires { Inner self.luma.w self.luma.h x y }
        ensures { result ≡ class_at self.entry.mag.now self.entry.luma.w self.entry.luma.h self.entry.low self.entry.high dir x y }
    {
        let i = y * self.luma.w + x;
        let stay = keeps_along(self.mag, self.luma.w, dir, i);
        class_of(stay, self.mag[i], self.low, self.high)
    }

    // The directions at places of row y from column x on become the classes, in place.
    fn thin(self, block: &mut [u8], x: usize, y: usize)
        requires { InnerPart self.luma.w self.luma.h (length block.old) x y }
        ensures { block.new ≡ tabulate (length block.old) (λ j. class_at self.entry.mag.now self.entry.luma.w self.entry.luma.h self.entry.low self.entry.high (get_or block.old j 0) (x + j) y) }
    {
        for (j, class) in block.iter_mut().enumerate() {
            *class = self.class_at(*class, x + j, y);
        }
    }

    // The classes at places of row y from column x on, all 0 before. Where no magnitude reaches a mark they stay 0, whatever the directions:
    // so these are worked out only where one does.
    fn class_block(self, block: &mut [u8], x: usize, y: usize)
        requires inner { InnerPart self.luma.w self.luma.h (length block.old) x y }
        requires clear { (j : ℕ) → j < length block.old → get_or block.old j 0 ≡ 0 }
        ensures { block.new ≡ tabulate (length block.old) (λ j. class_in self.entry.luma.bytes.now self.entry.mag.now self.entry.luma.w self.entry.luma.h self.entry.low self.entry.high (x + j) y) }
    {
        let start = y * self.luma.w + x;
        if !all_under(&self.mag[start..start + block.len()], self.least()) {
            self.luma.directions(block, x, y);
            self.thin(block, x, y);
        }
    }

    // Row y of the classes, in blocks of up to 32 places; 0 at the border.
    fn row(self, row: &mut [u8], y: usize)
        requires y_lt_h { y < self.luma.h }
        requires row_len { length row.old ≡ self.luma.w }
        ensures { row.new ≡ tabulate self.entry.luma.w (λ x. class_in self.entry.luma.bytes.now self.entry.mag.now self.entry.luma.w self.entry.luma.h self.entry.low self.entry.high x y) }
    {
        row.fill(0);
        if y == 0 || self.luma.h <= y + 1 || self.luma.w < 2 {
            return;
        }
        let last = self.luma.w - 1;
        for x in (1..last).step_by(32) {
            let end = x + (last - x).min(32);
            self.class_block(&mut row[x..end], x, y);
        }
    }
}

// Row y of the plane of magnitudes, where there is one. The other rows stay as they are.
fn magnitude_row(luma: &Plane, mag: &mut [i32], y: usize)
    requires { length mag.old ≡ luma.now.w * luma.now.h }
    ensures { mag.new ≡ with_row luma.now.bytes.now mag.old luma.now.w luma.now.h y }
{
    if y < luma.h {
        let start = y * luma.w;
        luma.magnitudes(&mut mag[start..start + luma.w], y);
    }
}

// The magnitudes of a luma plane, and the class plane by them and by the directions. Both are written whole. Row y of the classes needs three
// rows of magnitudes, and row y + 1 is worked out just before: so all three are still in the cache.
pub fn non_max_suppress(
    luma: &[u8],
    mag: &mut [i32],
    classes: &mut [u8],
    w: usize,
    h: usize,
    low: u8,
    high: u8,
)
    requires luma_len { length luma.now ≡ w * h }
    requires mag_len { (length mag.old ≡ w * h) × (length classes.old ≡ w * h) }
    ensures mag_after { mag.new ≡ sobel_mag luma.now w h }
    ensures classes_after { classes.new ≡ thinned (sobel_mag luma.now w h) (sobel_dir luma.now w h) w h low high }
{
    let luma = Plane { bytes: luma, w, h };
    magnitude_row(&luma, mag, 0);
    // Kept: rows by their places: `chunks_exact_mut` refuses a width of 0.
    for y in 0..h {
        magnitude_row(&luma, mag, y + 1);
        let start = y * w;
        let thinning = Thinning {
            luma,
            mag,
            low,
            high,
        };
        thinning.row(&mut classes[start..start + w], y);
    }
}
