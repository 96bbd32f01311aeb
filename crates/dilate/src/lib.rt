// Dilation: each byte of a plane becomes the largest in a window about it, in place, first along the rows and then along the columns. A buffer of
// one row is all the memory beside the plane; what it holds after a function is left open. Both parts take the maxima of whole rows, or of whole
// stretches of a row, and never of a byte alone.
#![tactic(auto)]

ghost use Rattle.std.specs.Prelude.{◌≡◌, ℕ, ◌+◌, ◌-◌, ◌*◌, ◌^◌, ◌<◌, ◌≤◌, min, max, length, slice_index};
ghost use Rattle.laws.specs.Lists.{max_in};
ghost use Rattle.dilate.specs.Dilate.{around, dilated};

// Each byte of a row becomes the larger of itself and of the other row's.
// Not inlined: the compiler tests that the two lie apart before it takes many bytes at a time. In a caller's loop over rows it makes one test for
// all of them, which fails.
#[inline(never)]
fn raise(row: &mut [u8], by: &[u8])
    requires { length by.now ≡ length row.old }
    ensures { (i : ℕ) → i < length row.old → slice_index row.new i ≡ max (slice_index row.old i) (slice_index by.now i) }
{
    // Kept: an index. With `iter_mut().zip(by)` (tried here) the `ensures` stays open: a proof then knows no element written.
    for (i, x) in row.iter_mut().enumerate() {
        *x = (*x).max(by[i]);
    }
}

// Each byte of a line becomes the largest of itself and of those s places before and after it.
fn spread(line: &mut [u8], buffer: &mut [u8], s: usize)
    requires buffer_len { length buffer.old ≡ length line.old }
    requires s_bound { s ≤ length line.old }
    ensures first { (i : ℕ) → i < s → i < length line.old → slice_index line.new i ≡ max (slice_index line.old i) (slice_index line.old (i + s)) }
    ensures others { (i : ℕ) → s ≤ i → i < length line.old → slice_index line.new i ≡ max (max (slice_index line.old i) (slice_index line.old (i + s))) (slice_index line.old (i - s)) }
{
    let rest = line.len() - s;
    buffer.copy_from_slice(line);
    raise(&mut line[..rest], &buffer[s..]);
    raise(&mut line[s..], &buffer[..rest]);
}

// Each byte of a line becomes the largest of those within half of it. The window about a place that reaches by s further, and by no more than
// one place further than it does, is the three windows about the place itself and about the places s before and after it.
fn dilate_line(line: &mut [u8], buffer: &mut [u8], half: usize)
    requires buffer_len { length buffer.old ≡ length line.old }
    ensures { (i : ℕ) → i < length line.old → slice_index line.new i ≡ around (length line.old) half i (slice_index line.old) }
{
    // A window that reaches the length of the line holds the whole of it.
    let most = half.min(line.len());
    let mut reach = 0;
    // Kept: each step is as long as the steps before it allow, which no range gives.
    while reach < most {
        let s = (reach + 1).min(most - reach);
        spread(line, buffer, s);
        reach += s;
    }
}

// Each byte of a plane of h rows becomes the largest of those within half of it along its row. The buffer is as long as a row.
fn dilate_rows(plane: &mut [u8], buffer: &mut [u8], h: usize, half: usize)
    requires plane_len { length plane.old ≡ length buffer.old * h }
    ensures { let w = length buffer.old in (x y : ℕ) → x < w → y < h → slice_index plane.new (y * w + x) ≡ around w half x (λ u. slice_index plane.old (y * w + u)) }
{
    let w = buffer.len();
    // Kept: rows by their places: `chunks_exact_mut` refuses a width of 0.
    for y in 0..h {
        let start = y * w;
        dilate_line(&mut plane[start..start + w], buffer, half);
    }
}

// The order in which the rows of a plane are counted: from the top one down, or from the bottom one up.
#[derive(Clone, Copy)]
enum RowOrder {
    Down,
    Up,
}

// The columns of a plane of w columns and h rows, whose places are counted one way, in blocks of n places.
#[derive(Clone, Copy)]
struct Columns {
    w: usize,
    h: usize,
    n: usize,
    order: RowOrder,
    ghost sides: { (w ≤ 4096) × (h ≤ 4096) },
    ghost n_bounds: { (0 < n) × (n ≤ 2 ^ 31) },
}

// Kept, point 5: plane and buffer go beside the columns: they are written through, and as fields each contract would have to say that their
// lengths stay.
impl Columns {
    ghost use Rattle.dilate.specs.Places.{row_at, along, Rewritten};

    // Where the row at place v starts.
    fn row(self, v: usize) -> usize
        requires { v < self.h }
        ensures start { result ≡ row_at self.order self.h v * self.w }
        ensures inside { result + self.w ≤ self.w * self.h }
    {
        let y = match self.order {
            RowOrder::Down => v,
            RowOrder::Up => self.h - 1 - v,
        };
        y * self.w
    }

    // In the block from start on each byte becomes the largest of its column from it to the end of the block.
    fn gather(self, plane: &mut [u8], buffer: &mut [u8], start: usize)
        requires plane_len { length plane.old ≡ self.w * self.h }
        requires buffer_len { length buffer.old ≡ self.w }
        requires start_bound { start < self.h }
        ensures { Rewritten self start (min self.h (start + self.n)) (λ x v. max_in v (min self.h (start + self.n)) (along self plane.old x)) plane.old plane.new }
    {
        let end = self.h.min(start + self.n);
        buffer.fill(0);
        for v in (start..end).rev() {
            let at = self.row(v);
            raise(buffer, &plane[at..at + self.w]);
            plane[at..at + self.w].copy_from_slice(buffer);
        }
    }

    // In the block from start on each byte becomes the larger of itself and of the bytes of its column past the block that are less than n places
    // away from it. Those are as they were: the buffer has the largest of them so far.
    fn reach_on(self, plane: &mut [u8], buffer: &mut [u8], start: usize)
        requires plane_len { length plane.old ≡ self.w * self.h }
        requires buffer_len { length buffer.old ≡ self.w }
        requires start_bound { start < self.h }
        ensures { Rewritten self start (min self.h (start + self.n)) (λ x v. max (along self plane.old x v) (max_in (start + self.n) (min self.h (v + self.n)) (along self plane.old x))) plane.old plane.new }
    {
        buffer.fill(0);
        for v in start + 1..self.h.min(start + self.n) {
            let last = v + self.n - 1;
            if last < self.h {
                let at = self.row(last);
                raise(buffer, &plane[at..at + self.w]);
            }
            let at = self.row(v);
            raise(&mut plane[at..at + self.w], buffer);
        }
    }

    // Each byte becomes the largest of the n places of its column from it on. A window is the end of one block and the start of the next, which is
    // still as it was.
    fn widen(self, plane: &mut [u8], buffer: &mut [u8])
        requires plane_len { length plane.old ≡ self.w * self.h }
        requires buffer_len { length buffer.old ≡ self.w }
        ensures { Rewritten self 0 self.h (λ x v. max_in v (min self.h (v + self.n)) (along self plane.old x)) plane.old plane.new }
    {
        for start in (0..self.h).step_by(self.n) {
            self.gather(plane, buffer, start);
            self.reach_on(plane, buffer, start);
        }
    }
}

// Each byte of a frame of w columns and h rows becomes the largest in the k × k window about it, clipped to the frame.
// The callers pass an odd k of at least 3. For any k the window reaches k / 2 to each side.
// Kept: plain parameters, as the functions under the frame records have (RULES 16.1).
// Not inlined: the buffer takes 4 KiB of stack, which a caller would then hold while it calls other functions.
#[inline(never)]
pub fn dilate(plane: &mut [u8], w: usize, h: usize, k: u32)
    requires w_bound { (w ≤ 4096) × (h ≤ 4096) }
    requires plane_len { length plane.old ≡ w * h }
    ensures { plane.new ≡ dilated plane.old w h k }
{
    let half = (k / 2) as usize;
    let mut buffer = [0; 4096];
    let buffer = &mut buffer[..w];
    dilate_rows(plane, buffer, h, half);
    let n = half + 1;
    let down = Columns {
        w,
        h,
        n,
        order: RowOrder::Down,
    };
    down.widen(plane, buffer);
    let up = Columns {
        w,
        h,
        n,
        order: RowOrder::Up,
    };
    up.widen(plane, buffer);
}
