// Frames as records that hold the caller's planes. A constructor checks by 1 to 5, and a reader shows a field. The functions
// that work take the planes as plain parameters: a frame call checks again, so it does not trust a record.
// Kept, point 5: a constructor takes the plain parameters of the frame calls (RULES 16.1).
// Kept, point 2: the constructors differ in their checks, and so in what they promise; what they share is `checked`.
#![tactic(auto)]

ghost use Rattle.std.specs.Prelude.{◌≡◌};
ghost use Rattle.refusal.specs.Refusal.{number_in};
ghost use Rattle.frame_records.specs.Frames.{made, made_in, luma_frame, rgb_frame, hsv_frame};

use refusal::{Refusal, Refused};
use timestamp::Timestamp;

// Packed pixels of BYTES bytes each, in one plane. Row y starts at byte y × stride, and its first width × BYTES bytes are pixels.
#[derive(Clone, Copy, Debug, PartialEq, Eq)]
pub struct PackedFrame<'a, const BYTES: u32> {
    pub data: &'a [u8],
    pub width: u32,
    pub height: u32,
    pub stride: u32,
    pub timestamp: Timestamp,
}

// A luma plane.
pub type LumaFrame<'a> = PackedFrame<'a, 1>;

// Pixels which the detectors read as blue, green, red.
pub type RgbFrame<'a> = PackedFrame<'a, 3>;

// Hue, saturation and value planes of one size and stride.
#[derive(Clone, Copy, Debug, PartialEq, Eq)]
pub struct HsvFrame<'a> {
    pub h: &'a [u8],
    pub s: &'a [u8],
    pub v: &'a [u8],
    pub width: u32,
    pub height: u32,
    pub stride: u32,
    pub timestamp: Timestamp,
}

// Bytes of a packed pixel: the constant has the name that it has in the Rust.
// Kept: by both names, as the Rust has them.
pub fn bytes_per_pixel() -> u32
    ensures { result ≡ 3 }
{
    RgbFrame::BYTES_PER_PIXEL
}

// A frame by its check: as it was given, and where it is refused, why.
// Kept: by cases, as `made_in` is.
fn checked<F>(frame: F, check: Result<(), Refusal>) -> Result<F, Refused<F>>
    ensures { made_in result ≡ made (number_in check) frame }
{
    match check {
        Ok(()) => Ok(frame),
        Err(refusal) => Err(Refused {
            refusal,
            state: frame,
        }),
    }
}

impl<'a, const BYTES: u32> PackedFrame<'a, BYTES> {
    pub fn data(self) -> &'a [u8]
        ensures { result ≡ self.entry.«data» }
    {
        self.data
    }

    pub fn width(self) -> u32
        ensures { result ≡ self.entry.width }
    {
        self.width
    }

    pub fn height(self) -> u32
        ensures { result ≡ self.entry.height }
    {
        self.height
    }

    pub fn stride(self) -> u32
        ensures { result ≡ self.entry.stride }
    {
        self.stride
    }

    pub fn timestamp(self) -> Timestamp
        ensures { result ≡ self.entry.timestamp }
    {
        self.timestamp
    }
}

impl<'a> LumaFrame<'a> {
    pub fn try_new(
        data: &'a [u8],
        width: u32,
        height: u32,
        stride: u32,
        timestamp: Timestamp,
    ) -> Result<LumaFrame<'a>, Refused<LumaFrame<'a>>>
        ensures { made_in result ≡ luma_frame «data».entry width height stride timestamp }
    {
        let check = frame::check_luma(data, width, height, stride);
        let frame = LumaFrame {
            data,
            width,
            height,
            stride,
            timestamp,
        };
        checked(frame, check)
    }
}

impl<'a> RgbFrame<'a> {
    pub const BYTES_PER_PIXEL: u32 = 3;

    pub fn try_new(
        data: &'a [u8],
        width: u32,
        height: u32,
        stride: u32,
        timestamp: Timestamp,
    ) -> Result<RgbFrame<'a>, Refused<RgbFrame<'a>>>
        ensures { made_in result ≡ rgb_frame «data».entry width height stride timestamp }
    {
        let check = frame::check_bgr(data, width, height, stride);
        let frame = RgbFrame {
            data,
            width,
            height,
            stride,
            timestamp,
        };
        checked(frame, check)
    }
}

impl<'a> HsvFrame<'a> {
    pub fn try_new(
        h: &'a [u8],
        s: &'a [u8],
        v: &'a [u8],
        width: u32,
        height: u32,
        stride: u32,
        timestamp: Timestamp,
    ) -> Result<HsvFrame<'a>, Refused<HsvFrame<'a>>>
        ensures { made_in result ≡ hsv_frame h.entry s.entry v.entry width height stride timestamp }
    {
        let check = frame::check_hsv(h, s, v, width, height, stride);
        let frame = HsvFrame {
            h,
            s,
            v,
            width,
            height,
            stride,
            timestamp,
        };
        checked(frame, check)
    }

    pub fn hue(self) -> &'a [u8]
        ensures { result ≡ self.entry.h }
    {
        self.h
    }

    pub fn saturation(self) -> &'a [u8]
        ensures { result ≡ self.entry.s }
    {
        self.s
    }

    pub fn value(self) -> &'a [u8]
        ensures { result ≡ self.entry.v }
    {
        self.v
    }

    // Kept: sides, stride and stamp have readers here too. One struct of these four for both kinds of frame is no plainer: the fields are
    // public, and each user would name them through it.
    pub fn width(self) -> u32
        ensures { result ≡ self.entry.width }
    {
        self.width
    }

    pub fn height(self) -> u32
        ensures { result ≡ self.entry.height }
    {
        self.height
    }

    pub fn stride(self) -> u32
        ensures { result ≡ self.entry.stride }
    {
        self.stride
    }

    pub fn timestamp(self) -> Timestamp
        ensures { result ≡ self.entry.timestamp }
    {
        self.timestamp
    }
}
