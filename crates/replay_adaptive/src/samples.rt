// The sample rows of the adaptive window (RULES 13.2), and an average of exactly 1e-5 (RULES 9.8). The frames are luma of 1 x 1.
// Kept, point 1: 256 and 257 are what is printed for none.
ghost use Rattle.std.specs.Prelude.{◌≡◌};
ghost use Rattle.adaptive.specs.Options.{defaults};
ghost use Rattle.adaptive.specs.Options.{options as Options·options};
ghost use Rattle.adaptive.specs.Options.{options_refusal};

use adaptive::{Detector, Options};
use compare_lists::calls;
use score::Components;
use std::io;
use timestamp::Timestamp;

// The last ratio after a frame for each byte of luma.
fn last_ratio(start: Detector, luma: &[u8]) -> Option<f64> {
    let mut store = [0u8; 4];
    let mut scratch = [0u8; 9];
    let mut magnitudes = [0i32; 1];
    let mut d = start;
    for byte in luma {
        d = detector::state_after(detector::process_luma(
            d,
            &[*byte],
            1,
            1,
            1,
            Timestamp { micros: 0 },
            &mut store,
            &mut scratch,
            &mut magnitudes,
        ));
    }
    adaptive::last_adaptive_ratio(d)
}

// The whole number below 256 that x is; 256 where it is none.
fn whole(x: f64) -> u32 {
    (0..256u32).find(|i| *i as f64 == x).unwrap_or(256)
}

// Window 1, these weights, and a target of this at least.
fn options(weights: Components, least: f64) -> Options
    ensures { result ≡ Options·options defaults.adaptive_threshold defaults.min_duration 1 least weights defaults.kernel_size defaults.initial_cut }
{
    Options::new()
        .with_window_width(1)
        .with_weights(weights)
        .with_min_content_val(least)
}

// Prints the last ratio after these frames, as a whole number.
fn ratio(
    rt: &impl Print,
    name: &str,
    least: u32,
    weights: Components,
    luma: &[u8],
) -> io::Result<()> {
    let start = detector::state_of(adaptive::try_new(options(weights, least as f64)));
    let last = last_ratio(start, luma).map_or(257, whole);
    replay::print_line(rt, name, least as u64, last as u64)
}

// The answer of a settings call with this window.
#[tactic(auto, unfolding(adaptive::specs::State::settled))]
fn settings(window_width: u32) -> u64
    ensures { result ≡ options_refusal (Options·options defaults.adaptive_threshold defaults.min_duration window_width defaults.min_content_val defaults.weights defaults.kernel_size defaults.initial_cut) }
{
    let (number, _) = calls::told(adaptive::try_new(Options::new().with_window_width(
        window_width,
    )));
    number as u64
}

pub fn print(rt: &impl Print) -> io::Result<()> {
    let luma = Components::luma_only();
    ratio(rt, "scores_1_30_1", 15, luma, &[0, 1, 31, 32])?;
    ratio(rt, "scores_0_30_0", 15, luma, &[0, 0, 30, 30])?;
    ratio(rt, "scores_0_10_0", 15, luma, &[0, 0, 10, 10])?;
    let exact = Components::new(99999.0, 0.0, 1.0, 0.0);
    ratio(rt, "average_1e-5", 0, exact, &[10, 11, 11, 12])?;
    let under = Components::new(100000.0, 0.0, 1.0, 0.0);
    ratio(rt, "average_below", 0, under, &[10, 11, 11, 12])?;
    replay::print_line(rt, "window", 64, settings(64))?;
    replay::print_line(rt, "window", 65, settings(65))
}
