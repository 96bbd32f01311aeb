// The adaptive detector's settings by numbers, as the station passes them, and its own readers. Its state is 288 words, as the crate
// `adaptive_words` lays them out. The other calls are those of any detector (`station_answer::calls`).
// Kept, point 1: the C interface returns a refusal's number, or 0.
// Kept, point 2: the readers of C's names, each of a field of its own.
#![tactic(auto)]

ghost use Rattle.std.specs.Prelude.{◌≡◌};
ghost use Rattle.score.specs.Scores.{components as components·of};
ghost use Rattle.words.specs.Choices.{score_tag};
ghost use Rattle.adaptive.specs.Options.{options, defaults};
ghost use Rattle.adaptive.specs.State.{settled};
ghost use Rattle.adaptive_words.specs.Record.{adaptive_of};
ghost use Rattle.station_answer.specs.Answer.{score_shown};
ghost use Rattle.station_answer.specs.Settings.{kernel_set, flag_set};
ghost use Rattle.station_answer.specs.Promises.{SettingsContract};
ghost use Rattle.station_answer.specs.Calls.{started_by};
ghost use Rattle.adaptive_station.specs.Station.{adaptive_layout};

use adaptive::Options;
use adaptive_words::AdaptiveRecord;
use score::Components;
use station_answer::calls;
use words::Recorded;

// A fresh state with the default settings.
// Kept: a line in either station. What they share is `calls::settle`; a trait for each detector's `try_new` and `Options` would be longer.
pub fn new_default(state: &mut [u64; 288]) -> u32
    ensures { SettingsContract adaptive_layout (started_by (settled defaults)) result state.new }
{
    calls::settle::<AdaptiveRecord, 288>(state, adaptive::try_new(Options::new()))
}

// Settings by numbers.
// Kept: the C interface passes the flags and a size that may be missing as numbers.
fn options_by(
    threshold: f64,
    min_duration: u64,
    window_width: u32,
    min_content_val: f64,
    weights: Components,
    has_kernel: u32,
    kernel_size: u32,
    initial_cut: u32,
) -> Options
    ensures { result ≡ options threshold min_duration window_width min_content_val weights (kernel_set has_kernel kernel_size) (flag_set initial_cut) }
{
    Options {
        adaptive_threshold: threshold,
        min_duration,
        window_width,
        min_content_val,
        weights,
        kernel_size: station_answer::kernel_set(has_kernel, kernel_size),
        initial_cut: station_answer::flag_set(initial_cut),
    }
}

// A fresh state with these settings, or with the defaults where they are refused. A flag is off for 0, and on for any other number.
// Kept: the C interface passes the settings one by one; here they become `Options`.
pub fn try_new(
    state: &mut [u64; 288],
    threshold: f64,
    min_duration: u64,
    window_width: u32,
    min_content_val: f64,
    hue: f64,
    saturation: f64,
    luma: f64,
    edges: f64,
    has_kernel: u32,
    kernel_size: u32,
    initial_cut: u32,
) -> u32
    ensures { SettingsContract adaptive_layout (started_by (settled (options threshold min_duration window_width min_content_val (components·of hue saturation luma edges) (kernel_set has_kernel kernel_size) (flag_set initial_cut)))) result state.new }
{
    let o = options_by(
        threshold,
        min_duration,
        window_width,
        min_content_val,
        Components::new(hue, saturation, luma, edges),
        has_kernel,
        kernel_size,
        initial_cut,
    );
    calls::settle::<AdaptiveRecord, 288>(state, adaptive::try_new(o))
}

// Whether there is a last ratio: 1 or 0.
pub fn has_ratio(state: &[u64; 288]) -> u32
    ensures { result ≡ score_tag (adaptive_of state.now).window.last_adaptive_ratio }
{
    station_answer::has(adaptive::last_adaptive_ratio(AdaptiveRecord::read(state)))
}

// The last ratio, or 0.0.
pub fn last_ratio(state: &[u64; 288]) -> f64
    ensures { result ≡ score_shown (adaptive_of state.now).window.last_adaptive_ratio }
{
    station_answer::score_shown(adaptive::last_adaptive_ratio(AdaptiveRecord::read(state)))
}

// Whether there is a last target score: 1 or 0.
pub fn has_target(state: &[u64; 288]) -> u32
    ensures { result ≡ score_tag (adaptive_of state.now).window.last_target_score }
{
    station_answer::has(adaptive::last_target_score(AdaptiveRecord::read(state)))
}

// The last target score, or 0.0.
pub fn last_target(state: &[u64; 288]) -> f64
    ensures { result ≡ score_shown (adaptive_of state.now).window.last_target_score }
{
    station_answer::score_shown(adaptive::last_target_score(AdaptiveRecord::read(state)))
}
