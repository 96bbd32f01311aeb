// Hysteresis: from a plane of weak (1) and strong (2) pixels to the plane of those that are strong after two rounds of sweeps.
// A visit changes a weak place only, and makes no place weak. So the weak inner places are listed once, and each sweep visits the places of the list.
// Kept, point 1: the classes are numbers, since they are a plane of lent bytes (RULES 12.1).
#![tactic(auto)]

ghost use Rattle.std.specs.Prelude.{◌≡◌, map, ℕ, ◌+◌, ◌-◌, ◌*◌, ◌^◌, ◌<◌, ◌≤◌, length, get_or, All, nat_abs, pos};
ghost use Rattle.canny_hysteresis.specs.Sweeps.{any_strong, visit, whitened, strong_pixels};
ghost use Rattle.canny_hysteresis.specs.Ways.{beside, order, swept};
ghost use Rattle.canny_hysteresis.specs.Places.{weak_from, weak_rows, Added, Inside};

// The way of a sweep: over the places as they rise, or as they fall.
#[derive(Clone, Copy)]
enum Way {
    Forward,
    Backward,
}

impl Way {
    // Of n places the one that is visited k-th, counted from 0.
    fn nth(self, n: usize, k: usize) -> usize
        requires { k < n }
        ensures nth { result ≡ order self n k }
        ensures below { result < n }
    {
        match self {
            Way::Forward => k,
            Way::Backward => n - 1 - k,
        }
    }

    // The four places that are looked at beside place i, in a plane of w columns.
    fn beside(self, w: usize, i: usize) -> [usize; 4]
        requires { (w + 1 ≤ i) × (i + w + 1 < 2 ^ 64) }
        ensures { result ≡ beside self w i }
    {
        match self {
            Way::Forward => [i - w - 1, i - w, i - w + 1, i - 1],
            Way::Backward => [i + w + 1, i + w, i + w - 1, i + 1],
        }
    }
}

// Whether one of the four places is strong. `|` and not `||`: no branch.
#[tactic(auto, using(crate::proofs::Visits::any_four))]
fn any_strong(s: &[u8], places: [usize; 4]) -> bool
    requires { All (λ p. p < length s.now) places }
    ensures { result ≡ any_strong s.now places }
{
    let [a, b, c, d] = places;
    (s[a] == 2) | (s[b] == 2) | (s[c] == 2) | (s[d] == 2)
}

// Place i turns from weak (1) into strong (2) where one of the four places beside it is strong.
// Kept: a sum and a pick, for speed: with an `if`, or a pick of 2 by both tests, a branch is left that goes either way as often, and a visit
// took more than twice as long.
#[tactic(auto, unfolding(crate::specs::Sweeps::visit))]
fn visit_place(s: &mut [u8], i: usize, beside: [usize; 4])
    requires { (i < length s.old) × All (λ p. p < length s.old) beside }
    ensures { s.new ≡ visit i beside s.old }
{
    let near = any_strong(s, beside);
    s[i] = choose::pick(s[i] == 1, 1 + u8::from(near), s[i]);
}

// The weak places of a block whose first place is first, added to the n places of the list. Most blocks have none. In the others each place
// is written, and counts where it is weak: no branch.
// Kept: the place of the block's first pixel is of the plane, not of the block.
fn list_block(list: &mut [i32], n: usize, block: &[u8], first: usize) -> usize
    requires room { n + length block.now ≤ length list.old }
    requires small { first + length block.now ≤ 2 ^ 24 }
    ensures { Added n list.old (weak_from first block.now) list.new result }
{
    if !block.contains(&1) {
        return n;
    }
    let mut count = n;
    for (i, c) in block.iter().enumerate() {
        list[count] = (first + i) as i32;
        count += usize::from(*c == 1);
    }
    count
}

// The same of a row's inner places, in blocks of up to 64.
// Kept: the place beside the blocks: by `enumerate` it would be counted in blocks.
fn list_row(list: &mut [i32], n: usize, inner: &[u8], first: usize) -> usize
    requires room { n + length inner.now ≤ length list.old }
    requires small { first + length inner.now ≤ 2 ^ 24 }
    ensures { Added n list.old (weak_from first inner.now) list.new result }
{
    let mut count = n;
    let mut at = first;
    for block in inner.chunks(64) {
        count = list_block(list, count, block, at);
        at += block.len();
    }
    count
}

// The weak inner places, as they rise, and their number.
fn list_weak(list: &mut [i32], s: &[u8], w: usize, h: usize) -> usize
    requires bound { (w ≤ 4096) × (h ≤ 4096) }
    requires lengths { (length s.now ≡ w * h) × (length list.old ≡ w * h) }
    ensures { Added 0 list.old (weak_rows s.now w (h - 2)) list.new result }
{
    if w < 3 {
        return 0;
    }
    let mut count = 0;
    for y in 0..h.saturating_sub(2) {
        let first = (y + 1) * w + 1;
        count = list_row(list, count, &s[first..first + (w - 2)], first);
    }
    count
}

// Places of a plane of w columns and h rows, each of which has all the places that a visit looks at.
#[derive(Clone, Copy)]
struct Listed<'a> {
    places: &'a [i32],
    w: usize,
    h: usize,
    ghost inside: { (k : ℕ) → k < length places.now → Inside w (w * h) (get_or places.now k (pos 0)) },
}

impl Listed<'_> {
    // Each place is visited.
    // Kept: an index: a slice's iterator and its reverse are of two types, so the loop would stand twice.
    fn sweep(&self, s: &mut [u8], way: Way)
        requires { length s.old ≡ self.now.w * self.now.h }
        ensures { s.new ≡ swept way self.now.w (map nat_abs self.now.places.now) s.old }
    {
        let n = self.places.len();
        for k in 0..n {
            let i = self.places[way.nth(n, k)] as usize;
            visit_place(s, i, way.beside(self.w, i));
        }
    }
}

// Strong becomes 255, anything else 0.
fn whiten(s: &mut [u8])
    ensures { s.new ≡ map whitened s.old }
{
    for v in s.iter_mut() {
        *v = if *v == 2 { 255 } else { 0 };
    }
}

// The class plane becomes the plane of strong pixels, 255 each, after exactly two rounds. list is scratch: it keeps its length, and its
// contents afterwards are left open.
pub fn hysteresis(classes: &mut [u8], list: &mut [i32], w: usize, h: usize)
    requires bound { (w ≤ 4096) × (h ≤ 4096) }
    requires lengths { (length classes.old ≡ w * h) × (length list.old ≡ w * h) }
    ensures classes { classes.new ≡ strong_pixels w h classes.old }
    ensures list { length list.new ≡ length list.old }
{
    let count = list_weak(list, classes, w, h);
    let weak = Listed {
        places: &list[..count],
        w,
        h,
    };
    'rounds: for _ in 0..2u8 {
        weak.sweep(classes, Way::Forward);
        weak.sweep(classes, Way::Backward);
    }
    whiten(classes);
}
