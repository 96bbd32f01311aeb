// Why a call is refused: each refusal has one number, by which C and the programs tell it (RULES 10.1).
#![tactic(auto)]

ghost use Rattle.std.specs.Prelude.{◌≡◌};
ghost use Rattle.refusal.specs.Refusal.{number_of};

// The refusals, each with its number.
#[derive(Clone, Copy, Debug, PartialEq, Eq)]
pub enum Refusal {
    // A side of a frame is over 4,096.
    FrameTooLarge = 1,
    // A stride is shorter than a row.
    StrideTooShort = 2,
    // The luma, BGR or hue bytes are too few.
    DataTooShort = 3,
    SaturationTooShort = 4,
    ValueTooShort = 5,
    // A weight is not finite, or beyond 2^20 in size.
    WeightTooHeavy = 6,
    // All weights are zero.
    NoWeight = 7,
    // A set k is below 3 or even.
    BadKernel = 8,
    // A threshold or `min_content_val` is NaN.
    NotANumber = 9,
    NoWindow = 10,
    // A window of more than 64 scores on a side.
    WindowTooWide = 11,
    // The store, the scratch or the magnitudes are too few for the frame.
    StoreTooShort = 12,
    ScratchTooShort = 13,
    MagnitudesTooShort = 14,
    // No call leaves such a state record.
    BadState = 15,
    NotAFrameLine = 16,
    // A stamp that is nearer to one of the list than the minimum.
    TooClose = 17,
    ListFull = 18,
    NotInList = 19,
    // A row of a light plan has another shape, its first number exceeds its second, or there are more than 16 rows.
    NotAPlan = 20,
    // Two rows of a light plan have one median.
    MedianTwice = 21,
    // No row of a light plan has some median.
    MedianMissing = 22,
}

// What a refused call hands back: why, and the state that its caller goes on with.
#[derive(Clone, Copy, Debug, PartialEq)]
pub struct Refused<T> {
    pub refusal: Refusal,
    pub state: T,
}

impl Refusal {
    pub fn number(self) -> u32
        ensures { result ≡ number_of self }
    {
        self as u32
    }
}
