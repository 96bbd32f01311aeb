// A batch's cases.
ghost use Rattle.std.specs.Prelude.{◌≡◌, ◌*◌, ◌≤◌, ◌<◌};

// One width, height and kind.
// Kept: a case of either replay has bounds and steps of its own; its kind has a number in compare/README.md.
#[derive(Clone, Copy)]
pub struct Case {
    pub w: usize,
    pub h: usize,
    pub kind: u32,
    pub ghost narrow: { w ≤ 40 },
    pub ghost low: { h ≤ 40 },
    pub ghost listed: { kind < 4 },
}

// Kept, point 2: an area for either `Case`, whose bound is its own.
impl Case {
    pub fn pixels(self) -> usize
        ensures value { result ≡ self.w * self.h }
        ensures upper_bound { result ≤ 1600 }
    {
        self.w * self.h
    }
}

// A case's rows, at a stride.
#[derive(Clone, Copy)]
pub struct Rows {
    pub case: Case,
    pub stride: usize,
    pub ghost short: { stride ≤ 123 },
}

impl Rows {
    // The bytes that they take.
    pub fn bytes(self) -> usize
        ensures value { result ≡ self.stride * self.case.h }
        ensures upper_bound { result ≤ 4920 }
    {
        self.stride * self.case.h
    }
}
