// A batch's cases.
ghost use Rattle.std.specs.Prelude.{◌≡◌, ◌*◌, ◌≤◌};

// One width, height and kind.
// Kept: a case of either replay has bounds and steps of its own; its kind has a number in compare/README.md.
#[derive(Clone, Copy)]
pub struct Case {
    pub w: usize,
    pub h: usize,
    pub kind: u32,
    pub ghost narrow: { w ≤ 100 },
    pub ghost low: { h ≤ 24 },
    pub ghost small: { w * h ≤ 600 },
}

// Kept, point 2: an area for either `Case`, whose bound is its own.
impl Case {
    pub fn pixels(self) -> usize
        ensures value { result ≡ self.w * self.h }
        ensures upper_bound { result ≤ 600 }
    {
        self.w * self.h
    }
}
