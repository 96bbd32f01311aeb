// What a frame is to either detector, the same for both: refused by the first number that applies (RULES 10.5), or its planes, the sums of
// their differences with the last frame's, the stream after it with its score, and the store after it (RULES 8.4, 12.3). A detector adds
// its step.
// Kept, point 5: a frame call takes plain parameters, and frame records come after it (RULES 16.1); lent memory goes as three slices, as C lends it
// (RULES 12.1). Stream, settings and whether the state is bad come from one caller, which would make a struct of them for each call.
#![tactic(auto)]

ghost use Rattle.std.specs.Prelude.{◌≡◌, ℕ, List, ◌*◌, ◌≤◌, length, OnOk};
ghost use Rattle.refusal.specs.Refusal.{number_in};
ghost use Rattle.frame.specs.Checks.{luma_refusal, bgr_refusal, hsv_refusal};
ghost use Rattle.scoring.specs.Planes.{luma_frame, bgr_frame, hsv_frame, Planes, joined};
ghost use Rattle.scoring.specs.Sums.{plane_sums};
ghost use Rattle.frame_call.specs.Call.{memory, median_if, pictured, picture_in, Called, Sized};
ghost use Rattle.frame_call.specs.PairMut.{FnOnceTakesAtPairMut, FnOnceReturnsAtPairMut};

use refusal::Refusal;
use score::Components;
use scoring::FrameScoring;
use stream::{Stream, Sums};

// What a detector wants of a frame's picture: the settings that it is scored by, and whether the median of its luma plane is wanted too.
#[derive(Clone, Copy, Debug, PartialEq)]
pub struct PictureOptions {
    pub weights: Components,
    pub kernel_size: Option<u32>,
    pub wants_median: bool,
}

// What an accepted frame is, for either detector: the stream after it, the sums of its differences, and the median of its luma plane, where it is
// wanted.
#[derive(Clone, Copy, Debug, PartialEq)]
pub struct Picture {
    pub stream: Stream,
    pub sums: Sums,
    pub median: Option<u8>,
}

// The median of a luma plane, where it is wanted; nothing is counted where it is not.
fn median_if(wanted: bool, plane: &[u8]) -> Option<u8>
    ensures { result ≡ median_if wanted plane.now }
{
    wanted.then(|| canny_marks::median_u8(plane))
}

// A frame of any kind, by its check: `replace` makes its planes take the place of the first three in the store, a BGR frame's by way of as
// many bytes of the scratch, and gives the sums of their differences.
#[tactic(auto, using(std::proofs::lemmas::Result::err_from_is_err_and, refusal::proofs::Numbers::positive), unfolding(crate::specs::Call::pictured, crate::specs::Call::call_refusal, stream::specs::Stream::memory_refusal))]
fn process<F: FnOnce(&mut [u8], &mut [u8]) -> Sums>(
    s: Stream,
    o: PictureOptions,
    bad: bool,
    frame: Result<(), Refusal>,
    width: u32,
    height: u32,
    store: &mut [u8],
    scratch: &mut [u8],
    magnitudes: &mut [i32],
    replace: F,
) -> Result<Picture, Refusal>
    requires sides { OnOk frame ((width ≤ 4096) × (height ≤ 4096)) }
    requires callable { OnOk frame ((x y : List ℕ) → length x ≡ 3 * (width * height) → length y ≡ 3 * (width * height) → FnOnceTakesAtPairMut F.FnOnce replace x y) }
    ensures { (p : Planes) → Sized (width * height) p → ((x y x' y' : List ℕ) (sums : Sums) → FnOnceReturnsAtPairMut F.FnOnce replace x y sums x' y' → (x' ≡ joined p) × (sums ≡ plane_sums (width * height) p 0 x)) → Called (pictured s o bad (number_in frame) width height p (memory store.old scratch.old magnitudes.old)) (picture_in s result) (picture_in s result).number (memory store.old scratch.old magnitudes.old) (memory store.new scratch.new magnitudes.new) }
{
    if bad {
        return Err(Refusal::BadState);
    }
    frame?;
    stream::check_memory(store.len(), scratch.len(), magnitudes.len(), width, height)?;
    let w = width as usize;
    let h = height as usize;
    let n = w * h;
    let e = 3 * n;
    let planes = replace(&mut store[..e], &mut scratch[..e]);
    let median = median_if(o.wants_median, &store[n + n..e]);
    let how = FrameScoring {
        edges: score::edges_enabled(o.weights),
        k: scoring::kernel(o.kernel_size, width, height),
        scored: stream::is_scored(s, width, height),
        median,
    };
    let sums = scoring::frame_sums(store, scratch, magnitudes, w, h, how, planes);
    Ok(Picture {
        stream: stream::next_stream(s, width, height, o.weights, sums),
        sums,
        median,
    })
}

// A luma frame.
#[tactic(auto, using(crate::proofs::Planes::luma_sized))]
pub fn process_luma(
    s: Stream,
    o: PictureOptions,
    bad: bool,
    plane: &[u8],
    width: u32,
    height: u32,
    stride: u32,
    store: &mut [u8],
    scratch: &mut [u8],
    magnitudes: &mut [i32],
) -> Result<Picture, Refusal>
    ensures { Called (pictured s o bad (luma_refusal (length plane.now) width height stride) width height (luma_frame plane.now width height stride) (memory store.old scratch.old magnitudes.old)) (picture_in s result) (picture_in s result).number (memory store.old scratch.old magnitudes.old) (memory store.new scratch.new magnitudes.new) }
{
    let frame = frame::check_luma(plane, width, height, stride);
    let w = width as usize;
    let h = height as usize;
    process(
        s,
        o,
        bad,
        frame,
        width,
        height,
        store,
        scratch,
        magnitudes,
        |planes, _made| scoring::replace_luma(planes, plane, w, h, stride as usize),
    )
}

// A BGR frame.
#[tactic(auto, using(crate::proofs::Planes::bgr_sized))]
pub fn process_bgr(
    s: Stream,
    o: PictureOptions,
    bad: bool,
    pixels: &[u8],
    width: u32,
    height: u32,
    stride: u32,
    store: &mut [u8],
    scratch: &mut [u8],
    magnitudes: &mut [i32],
) -> Result<Picture, Refusal>
    ensures { Called (pictured s o bad (bgr_refusal (length pixels.now) width height stride) width height (bgr_frame pixels.now width height stride) (memory store.old scratch.old magnitudes.old)) (picture_in s result) (picture_in s result).number (memory store.old scratch.old magnitudes.old) (memory store.new scratch.new magnitudes.new) }
{
    let frame = frame::check_bgr(pixels, width, height, stride);
    let w = width as usize;
    let h = height as usize;
    process(
        s,
        o,
        bad,
        frame,
        width,
        height,
        store,
        scratch,
        magnitudes,
        |planes, made| scoring::replace_bgr(planes, made, pixels, w, h, stride as usize),
    )
}

// An HSV frame.
#[tactic(auto, using(crate::proofs::Planes::hsv_sized))]
pub fn process_hsv(
    s: Stream,
    o: PictureOptions,
    bad: bool,
    hue: &[u8],
    saturation: &[u8],
    value: &[u8],
    width: u32,
    height: u32,
    stride: u32,
    store: &mut [u8],
    scratch: &mut [u8],
    magnitudes: &mut [i32],
) -> Result<Picture, Refusal>
    ensures { Called (pictured s o bad (hsv_refusal (length hue.now) (length saturation.now) (length value.now) width height stride) width height (hsv_frame hue.now saturation.now value.now width height stride) (memory store.old scratch.old magnitudes.old)) (picture_in s result) (picture_in s result).number (memory store.old scratch.old magnitudes.old) (memory store.new scratch.new magnitudes.new) }
{
    let frame = frame::check_hsv(hue, saturation, value, width, height, stride);
    let w = width as usize;
    let h = height as usize;
    process(
        s,
        o,
        bad,
        frame,
        width,
        height,
        store,
        scratch,
        magnitudes,
        |planes, _made| scoring::replace_hsv(planes, hue, saturation, value, w, h, stride as usize),
    )
}
