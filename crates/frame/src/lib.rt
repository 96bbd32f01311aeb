// The checks of luma, BGR and HSV frames: the first of the refusals 1 to 5 whose condition holds (RULES 2.6). Any sides, strides
// and lengths are taken.
// Kept, point 5: a check takes the plain parameters of the frame calls, and frame records come after them (RULES 16.1).
// Kept, point 2: luma, BGR and HSV frames have checks of their own names, by lengths and by slices; what they share is `check_plane`.
#![tactic(auto)]

ghost use Rattle.std.specs.Prelude.{◌≡◌, ℕ, ◌+◌, ◌*◌, ◌<◌, ◌≤◌, length, OnOk};
ghost use Rattle.refusal.specs.Refusal.{number_in};
ghost use Rattle.frame.specs.Checks.{too_large, plane_refusal, luma_refusal, bgr_refusal, hsv_refusal};

use refusal::Refusal;

// The greatest side of a frame (RULES 2.6).
pub const MOST_SIDE: u32 = 4096;

// Whether a side is over the greatest.
pub fn is_too_large(width: u32, height: u32) -> bool
    ensures { result ≡ too_large width height }
{
    (MOST_SIDE < width) | (MOST_SIDE < height)
}

// Refusals 1 to 3 of a plane whose rows are `row` bytes long.
#[tactic(auto, unfolding(crate::specs::Checks::plane_refusal))]
fn check_plane(
    row: usize,
    bytes: usize,
    width: u32,
    height: u32,
    stride: u32,
) -> Result<(), Refusal>
    ensures number { number_in result ≡ plane_refusal row bytes width height stride }
    ensures sides { OnOk result ((width ≤ 4096) × (height ≤ 4096)) }
    ensures rows { OnOk result ((y : ℕ) → y < height → y * stride + row ≤ bytes) }
{
    if is_too_large(width, height) {
        return Err(Refusal::FrameTooLarge);
    }
    if (stride as usize) < row {
        return Err(Refusal::StrideTooShort);
    }
    if bytes < height as usize * stride as usize {
        return Err(Refusal::DataTooShort);
    }
    Ok(())
}

// A luma frame, by the length of its plane: of one that passes the sides are at most 4,096, and each row is within the plane.
#[tactic(auto, unfolding(crate::specs::Checks::luma_refusal))]
pub fn luma_refusal(bytes: usize, width: u32, height: u32, stride: u32) -> Result<(), Refusal>
    ensures number { number_in result ≡ luma_refusal bytes width height stride }
    ensures sides { OnOk result ((width ≤ 4096) × (height ≤ 4096)) }
    ensures rows { OnOk result ((y : ℕ) → y < height → y * stride + width ≤ bytes) }
{
    check_plane(width as usize, bytes, width, height, stride)
}

// A BGR frame, by the length of its packed pixels: of one that passes the sides are at most 4,096, and each row is within them.
#[tactic(auto, unfolding(crate::specs::Checks::bgr_refusal))]
pub fn bgr_refusal(bytes: usize, width: u32, height: u32, stride: u32) -> Result<(), Refusal>
    ensures number { number_in result ≡ bgr_refusal bytes width height stride }
    ensures sides { OnOk result ((width ≤ 4096) × (height ≤ 4096)) }
    ensures rows { OnOk result ((y : ℕ) → y < height → y * stride + 3 * width ≤ bytes) }
{
    check_plane(3 * width as usize, bytes, width, height, stride)
}

// An HSV frame, by the lengths of its planes: of one that passes the sides are at most 4,096, and each row is within its plane.
#[tactic(auto, unfolding(crate::specs::Checks::plane_refusal, crate::specs::Checks::luma_refusal, crate::specs::Checks::hsv_refusal))]
pub fn hsv_refusal(
    hue: usize,
    saturation: usize,
    value: usize,
    width: u32,
    height: u32,
    stride: u32,
) -> Result<(), Refusal>
    ensures number { number_in result ≡ hsv_refusal hue saturation value width height stride }
    ensures sides { OnOk result ((width ≤ 4096) × (height ≤ 4096)) }
    ensures hue_rows { OnOk result ((y : ℕ) → y < height → y * stride + width ≤ hue) }
    ensures saturation_rows { OnOk result ((y : ℕ) → y < height → y * stride + width ≤ saturation) }
    ensures value_rows { OnOk result ((y : ℕ) → y < height → y * stride + width ≤ value) }
{
    luma_refusal(hue, width, height, stride)?;
    let needed = height as usize * stride as usize;
    if saturation < needed {
        return Err(Refusal::SaturationTooShort);
    }
    if value < needed {
        return Err(Refusal::ValueTooShort);
    }
    Ok(())
}

// The check of a luma frame.
pub fn check_luma(plane: &[u8], width: u32, height: u32, stride: u32) -> Result<(), Refusal>
    ensures number { number_in result ≡ luma_refusal (length plane.now) width height stride }
    ensures sides { OnOk result ((width ≤ 4096) × (height ≤ 4096)) }
    ensures rows { OnOk result ((y : ℕ) → y < height → y * stride + width ≤ length plane.now) }
{
    luma_refusal(plane.len(), width, height, stride)
}

// The check of a BGR frame.
pub fn check_bgr(pixels: &[u8], width: u32, height: u32, stride: u32) -> Result<(), Refusal>
    ensures number { number_in result ≡ bgr_refusal (length pixels.now) width height stride }
    ensures sides { OnOk result ((width ≤ 4096) × (height ≤ 4096)) }
    ensures rows { OnOk result ((y : ℕ) → y < height → y * stride + 3 * width ≤ length pixels.now) }
{
    bgr_refusal(pixels.len(), width, height, stride)
}

// The check of an HSV frame.
pub fn check_hsv(
    hue: &[u8],
    saturation: &[u8],
    value: &[u8],
    width: u32,
    height: u32,
    stride: u32,
) -> Result<(), Refusal>
    ensures number { number_in result ≡ hsv_refusal (length hue.now) (length saturation.now) (length value.now) width height stride }
    ensures sides { OnOk result ((width ≤ 4096) × (height ≤ 4096)) }
    ensures hue_rows { OnOk result ((y : ℕ) → y < height → y * stride + width ≤ length hue.now) }
    ensures saturation_rows { OnOk result ((y : ℕ) → y < height → y * stride + width ≤ length saturation.now) }
    ensures value_rows { OnOk result ((y : ℕ) → y < height → y * stride + width ≤ length value.now) }
{
    hsv_refusal(
        hue.len(),
        saturation.len(),
        value.len(),
        width,
        height,
        stride,
    )
}
