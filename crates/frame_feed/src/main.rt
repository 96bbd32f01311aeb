// A program that makes frame records of each kind, accepted and refused, and feeds both detectors through them: luma and HSV frames of
// 3 × 3 pixels, BGR frames of 2 × 2 pixels. For each frame it prints one line: the kind, the constructor's number, the number of the
// detector's answer, and the answer's sums of hue, saturation, luma and edge differences and its count (RULES 4.4). The cut stands on a line
// below, if there is one.
// Only the functions `apart` and `feed_luma` to `feed_hsv` hold a record (RULES 2.8). Their other parameters and their results are plain.
// Kept, point 2: records of three kinds are fed, by a function for each, since their constructors and calls have names of their own.
#![tactic(auto)]

ghost use Rattle.std.specs.Prelude.{◌≡◌, length};
ghost use Rattle.refusal.specs.Refusal.{number_in};
ghost use Rattle.frame.specs.Checks.{luma_refusal, bgr_refusal, hsv_refusal};
ghost use Rattle.stream.specs.Stream.{FromSums};
ghost use Rattle.frame_call.specs.Call.{luma, bgr, hsv, memory, outcome_of, Called};
ghost use Rattle.detector.specs.Answers.{without_score, answer_in, settled_in};
ghost use Rattle.frame_records.specs.Frames.{made_in};

use detector::{Detect, Step};
use frame_records::{HsvFrame, LumaFrame, RgbFrame};
use refusal::{Refusal, Refused};
use score::Components;
use std::io;
use timestamp::Timestamp;

// What a frame's constructor found, and the answer of a detector to the frame, which is fed whether it is refused or not.
#[derive(Clone, Copy)]
struct Fed<D> {
    check: Result<(), Refusal>,
    answer: Result<Step<D>, Refused<D>>,
}

// What a constructor returns, taken apart: what it found, and the frame.
fn apart<F>(made: Result<F, Refused<F>>) -> (Result<(), Refusal>, F)
    ensures check { number_in result.0 ≡ (made_in made).number }
    ensures frame { result.1 ≡ (made_in made).frame }
{
    match made {
        Ok(frame) => (Ok(()), frame),
        Err(refused) => (Err(refused.refusal), refused.state),
    }
}

// A luma frame to a detector, through its record.
// Kept: plain parameters, here and in the two below, as the frame calls have them (RULES 16.1): what is fed is said with no record in it.
fn feed_luma<D: Detect>(
    d: D,
    plane: &[u8],
    width: u32,
    height: u32,
    stride: u32,
    ts: Timestamp,
    store: &mut [u8],
    scratch: &mut [u8],
    magnitudes: &mut [i32],
) -> Fed<D>
    ensures check { number_in result.check ≡ luma_refusal (length plane.now) width height stride }
    ensures called { Called (outcome_of (D.stream d) (D.settings d) (D.bad d) (D.stepped d) (without_score d) (D.cleared d) (luma plane.now width height stride ts (memory store.old scratch.old magnitudes.old))) (answer_in result.answer) (answer_in result.answer).number (memory store.old scratch.old magnitudes.old) (memory store.new scratch.new magnitudes.new) }
    ensures from_sums { FromSums (D.settings d).weights (answer_in result.answer).score (answer_in result.answer).components (answer_in result.answer).sums }
{
    let (check, frame) = apart(LumaFrame::try_new(plane, width, height, stride, ts));
    Fed {
        check,
        answer: records::process_luma(d, frame, store, scratch, magnitudes),
    }
}

// A BGR frame to a detector, through its record.
fn feed_bgr<D: Detect>(
    d: D,
    pixels: &[u8],
    width: u32,
    height: u32,
    stride: u32,
    ts: Timestamp,
    store: &mut [u8],
    scratch: &mut [u8],
    magnitudes: &mut [i32],
) -> Fed<D>
    ensures check { number_in result.check ≡ bgr_refusal (length pixels.now) width height stride }
    ensures called { Called (outcome_of (D.stream d) (D.settings d) (D.bad d) (D.stepped d) (without_score d) (D.cleared d) (bgr pixels.now width height stride ts (memory store.old scratch.old magnitudes.old))) (answer_in result.answer) (answer_in result.answer).number (memory store.old scratch.old magnitudes.old) (memory store.new scratch.new magnitudes.new) }
    ensures from_sums { FromSums (D.settings d).weights (answer_in result.answer).score (answer_in result.answer).components (answer_in result.answer).sums }
{
    let (check, frame) = apart(RgbFrame::try_new(pixels, width, height, stride, ts));
    Fed {
        check,
        answer: records::process_bgr(d, frame, store, scratch, magnitudes),
    }
}

// An HSV frame to a detector, through its record.
fn feed_hsv<'a, D: Detect>(
    d: D,
    hue: &'a [u8],
    saturation: &'a [u8],
    value: &'a [u8],
    width: u32,
    height: u32,
    stride: u32,
    ts: Timestamp,
    store: &mut [u8],
    scratch: &mut [u8],
    magnitudes: &mut [i32],
) -> Fed<D>
    ensures check { number_in result.check ≡ hsv_refusal (length hue.now) (length saturation.now) (length value.now) width height stride }
    ensures called { Called (outcome_of (D.stream d) (D.settings d) (D.bad d) (D.stepped d) (without_score d) (D.cleared d) (hsv hue.now saturation.now value.now width height stride ts (memory store.old scratch.old magnitudes.old))) (answer_in result.answer) (answer_in result.answer).number (memory store.old scratch.old magnitudes.old) (memory store.new scratch.new magnitudes.new) }
    ensures from_sums { FromSums (D.settings d).weights (answer_in result.answer).score (answer_in result.answer).components (answer_in result.answer).sums }
{
    let (check, frame) = apart(HsvFrame::try_new(
        hue, saturation, value, width, height, stride, ts,
    ));
    Fed {
        check,
        answer: records::process_hsv(d, frame, store, scratch, magnitudes),
    }
}

// A run of frames on one detector: its name in the lines, its state, and what its frame calls are lent, enough for frames of 3 × 3 pixels.
#[derive(Drop)]
struct Run<'a, D: Detect> {
    name: &'a str,
    d: D,
    store: [u8; 36],
    scratch: [u8; 69],
    magnitudes: [i32; 9],
}

impl<'a, D: Detect> Run<'a, D> {
    fn new(name: &'a str, d: D) -> Self {
        Run {
            name,
            d,
            store: [0; 36],
            scratch: [0; 69],
            magnitudes: [0; 9],
        }
    }

    // Prints a frame's line, and the cut below it, and goes on with the state after the frame.
    fn show(&mut self, rt: &impl Print, kind: &str, fed: Fed<D>) -> io::Result<()> {
        // Kept: `replay::number` is the like, and this program does not stand on `replay`.
        let made = fed.check.err().map_or(0, |why| why.number());
        match fed.answer {
            Err(refused) => {
                println!(rt;
                    "{} {kind} {made} {} 0 0 0 0 0",
                    self.name,
                    refused.refusal.number()
                )?;
                self.d = refused.state;
            }
            Ok(step) => {
                println!(rt;
                    "{} {kind} {made} 0 {} {} {} {} {}",
                    self.name,
                    step.sums.hue,
                    step.sums.saturation,
                    step.sums.luma,
                    step.sums.edges,
                    step.sums.count
                )?;
                if let Some(ts) = step.cut {
                    println!(rt; "cut {}", ts.micros)?;
                }
                self.d = step.detector;
            }
        }
        Ok(())
    }

    // A luma frame of that width and stride, and of height 3.
    fn luma_shown(
        &mut self,
        rt: &impl Print,
        plane: &[u8],
        width: u32,
        micros: i64,
    ) -> io::Result<()> {
        let fed = feed_luma(
            self.d,
            plane,
            width,
            3,
            width,
            Timestamp { micros },
            &mut self.store,
            &mut self.scratch,
            &mut self.magnitudes,
        );
        self.show(rt, "luma", fed)
    }

    // A BGR frame of 2 × 2 pixels.
    fn bgr_shown(
        &mut self,
        rt: &impl Print,
        pixels: &[u8],
        stride: u32,
        micros: i64,
    ) -> io::Result<()> {
        let fed = feed_bgr(
            self.d,
            pixels,
            2,
            2,
            stride,
            Timestamp { micros },
            &mut self.store,
            &mut self.scratch,
            &mut self.magnitudes,
        );
        self.show(rt, "bgr", fed)
    }

    // An HSV frame of 3 × 3 pixels.
    fn hsv_shown<'b>(
        &mut self,
        rt: &impl Print,
        hue: &'b [u8],
        saturation: &'b [u8],
        value: &'b [u8],
        micros: i64,
    ) -> io::Result<()> {
        let fed = feed_hsv(
            self.d,
            hue,
            saturation,
            value,
            3,
            3,
            3,
            Timestamp { micros },
            &mut self.store,
            &mut self.scratch,
            &mut self.magnitudes,
        );
        self.show(rt, "hsv", fed)
    }
}

// Nine frames to the content detector, with edges on: planes of 9 bytes, and `few` of 8. `side` has an edge between its first two columns.
fn content_run<'a>(
    rt: &impl Print,
    dark: &'a [u8],
    lit: &'a [u8],
    tint: &'a [u8],
    side: &'a [u8],
    few: &'a [u8],
) -> io::Result<()> {
    let even = Components {
        delta_hue: 1.0,
        delta_sat: 1.0,
        delta_lum: 1.0,
        delta_edges: 1.0,
    };
    let settled = content::try_new(content::Options::new().with_weights(even));
    let mut run = Run::new("content", detector::state_of(settled));
    for (plane, width, micros) in [
        (dark, 3, 0),
        (few, 3, 400000),
        (side, 4097, 400000),
        (side, 3, 400000),
        (side, 3, 900000),
    ] {
        run.luma_shown(rt, plane, width, micros)?;
    }
    for (saturation, value, micros) in [
        (few, lit, 1500000),
        (side, few, 1500000),
        (side, lit, 1500000),
        (lit, dark, 2000000),
    ] {
        run.hsv_shown(rt, tint, saturation, value, micros)?;
    }
    Ok(())
}

// Seven frames to the adaptive detector: pixels of 12 bytes, and `few` of 8.
fn adaptive_run(
    rt: &impl Print,
    black: &[u8],
    red: &[u8],
    green: &[u8],
    few: &[u8],
) -> io::Result<()> {
    let row = 2 * RgbFrame::BYTES_PER_PIXEL;
    let settled = adaptive::try_new(adaptive::Options::new().with_window_width(1));
    let mut run = Run::new("adaptive", detector::state_of(settled));
    for (pixels, stride, micros) in [
        (black, row, 0),
        (red, row - 1, 400000),
        (few, row, 400000),
        (black, row, 400000),
        (red, row, 900000),
        (red, row, 1500000),
        (green, row, 2000000),
    ] {
        run.bgr_shown(rt, pixels, stride, micros)?;
    }
    Ok(())
}

// Four BGR frames to the content detector, at default settings.
fn content_pixels_run(rt: &impl Print, black: &[u8], red: &[u8], green: &[u8]) -> io::Result<()> {
    let row = 2 * RgbFrame::BYTES_PER_PIXEL;
    let settled = content::try_new(content::Options::new());
    let mut run = Run::new("content", detector::state_of(settled));
    for (pixels, stride, micros) in [
        (red, row - 1, 0),
        (black, row, 0),
        (red, row, 400000),
        (green, row, 900000),
    ] {
        run.bgr_shown(rt, pixels, stride, micros)?;
    }
    Ok(())
}

// Six luma and HSV frames to the adaptive detector: planes of 9 bytes, and `few` of 8.
fn adaptive_planes_run<'a>(
    rt: &impl Print,
    dark: &'a [u8],
    lit: &'a [u8],
    tint: &'a [u8],
    few: &'a [u8],
) -> io::Result<()> {
    let settled = adaptive::try_new(adaptive::Options::new().with_window_width(1));
    let mut run = Run::new("adaptive", detector::state_of(settled));
    for (plane, micros) in [(dark, 0), (few, 400000), (dark, 400000)] {
        run.luma_shown(rt, plane, 3, micros)?;
    }
    for (value, micros) in [(few, 900000), (lit, 900000), (lit, 1500000)] {
        run.hsv_shown(rt, tint, lit, value, micros)?;
    }
    Ok(())
}

fn main(rt: HostRuntime) -> io::Result<()> {
    let dark = [0u8; 9];
    let lit = [200u8; 9];
    let tint = [30u8; 9];
    let side = [0u8, 200, 200, 0, 200, 200, 0, 200, 200];
    let few = [200u8; 8];
    content_run(&rt, &dark, &lit, &tint, &side, &few)?;
    let black = [0u8; 12];
    let red = [0u8, 0, 255, 0, 0, 255, 0, 0, 255, 0, 0, 255];
    let green = [0u8, 255, 0, 0, 255, 0, 0, 255, 0, 0, 255, 0];
    adaptive_run(&rt, &black, &red, &green, &few)?;
    content_pixels_run(&rt, &black, &red, &green)?;
    adaptive_planes_run(&rt, &dark, &lit, &tint, &few)
}
