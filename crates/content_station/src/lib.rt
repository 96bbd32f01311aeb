// The content detector's settings by numbers, as the station passes them. Its state is 34 words, as the crate `content_words` lays them out.
// Its plan reads as text; the other calls are those of any detector (`station_answer::calls`).
// Kept, point 1: the C interface returns a refusal's number, or 0.
#![tactic(auto)]

ghost use Rattle.std.specs.Prelude.{◌≡◌, length, take, Some};
ghost use Rattle.score.specs.Scores.{components as components·of};
ghost use Rattle.decimal.specs.Placed.{placed};
ghost use Rattle.light_plan.specs.Plan.{rows_of, no_plan};
ghost use Rattle.plan_text.specs.Text.{rows_read, rows_text};
ghost use Rattle.detector.specs.Answers.{settled_in};
ghost use Rattle.content.specs.Options.{options, defaults};
ghost use Rattle.content.specs.State.{settled};
ghost use Rattle.station_answer.specs.Settings.{mode_set, kernel_set, flag_set};
ghost use Rattle.station_answer.specs.Promises.{SettingsContract};
ghost use Rattle.station_answer.specs.Calls.{started_by};
ghost use Rattle.content_words.specs.Record.{content_of};
ghost use Rattle.content_station.specs.Station.{content_layout, settled_by, planned_by};

use content::{Detector, Options};
use content_words::ContentRecord;
use light_plan::Plan;
use refusal::{Refusal, Refused};
use score::Components;
use station_answer::calls;
use words::Recorded;

// A fresh state with the default settings.
// Kept: a line in either station. What they share is `calls::settle`; a trait for each detector's `try_new` and `Options` would be longer.
#[tactic(auto, using(crate::proofs::Planned::settled_tidied))]
pub fn new_default(state: &mut [u64; 34]) -> u32
    ensures { SettingsContract content_layout (started_by (settled defaults)) result state.new }
{
    calls::settle::<ContentRecord, 34>(state, content::try_new(Options::new()))
}

// Settings by numbers. A mode that is neither 0 nor 1 counts as Merge here, and is refused by `settled_by`.
// Kept: the C interface passes the mode, the flags and a size that may be missing as numbers.
fn options_by(
    threshold: f64,
    min_duration: u64,
    weights: Components,
    filter_mode: u32,
    has_kernel: u32,
    kernel_size: u32,
    initial_cut: u32,
) -> Options
    ensures { result ≡ options threshold min_duration weights (mode_set filter_mode) (kernel_set has_kernel kernel_size) (flag_set initial_cut) no_plan }
{
    Options {
        threshold,
        min_duration,
        weights,
        filter_mode: content_words::mode_of(filter_mode as u64),
        kernel_size: station_answer::kernel_set(has_kernel, kernel_size),
        initial_cut: station_answer::flag_set(initial_cut),
        plan: Plan::none(),
    }
}

// What a settings call returns whose mode is given by this number: refused by 6 to 9, then by 15 for a number that does not name a mode.
#[tactic(auto, using(std::proofs::lemmas::Result::err_from_is_err_and, refusal::proofs::Numbers::positive), unfolding(crate::specs::Station::settled_by, content::specs::State::settled))]
fn settled_by(filter_mode: u32, o: Options) -> Result<Detector, Refused<Detector>>
    ensures { settled_in result ≡ settled_by filter_mode o }
{
    let d = content::try_new(o)?;
    if 1 < filter_mode {
        Err(Refused {
            refusal: Refusal::BadState,
            state: detector::state_of(content::try_new(Options::new())),
        })
    } else {
        Ok(d)
    }
}

// A fresh state with these settings, or with the defaults where they are refused. filter_mode is 0 for Merge and 1 for Suppress; any other
// number is refused by 15, after the other refusals. A flag is off for 0, and on for any other number.
// Kept: the C interface passes the settings one by one; here they become `Options`.
#[tactic(auto, using(crate::proofs::Planned::settled_by_tidied))]
pub fn try_new(
    state: &mut [u64; 34],
    threshold: f64,
    min_duration: u64,
    hue: f64,
    saturation: f64,
    luma: f64,
    edges: f64,
    filter_mode: u32,
    has_kernel: u32,
    kernel_size: u32,
    initial_cut: u32,
) -> u32
    ensures { SettingsContract content_layout (started_by (settled_by filter_mode (options threshold min_duration (components·of hue saturation luma edges) (mode_set filter_mode) (kernel_set has_kernel kernel_size) (flag_set initial_cut) no_plan))) result state.new }
{
    let o = options_by(
        threshold,
        min_duration,
        Components::new(hue, saturation, luma, edges),
        filter_mode,
        has_kernel,
        kernel_size,
        initial_cut,
    );
    calls::settle::<ContentRecord, 34>(state, settled_by(filter_mode, o))
}

// What a settings call returns that has the text of a light plan beside the numbers: refused by those, then by 20 to 22 for the text.
#[tactic(auto, using(std::proofs::lemmas::Result::err_from_is_err_and, refusal::proofs::Numbers::positive), unfolding(crate::specs::Station::planned_by, crate::specs::Station::settled_by, content::specs::State::settled))]
fn planned_by(filter_mode: u32, o: Options, text: &[u8]) -> Result<Detector, Refused<Detector>>
    ensures { settled_in result ≡ planned_by filter_mode o text.now }
{
    let d = settled_by(filter_mode, o)?;
    match plan_text::read(text) {
        Ok(plan) => Ok(Detector {
            options: d.options.with_plan(plan),
            ..d
        }),
        Err(refusal) => Err(Refused {
            refusal,
            state: detector::state_of(content::try_new(Options::new())),
        }),
    }
}

// A fresh state with these settings and the light plan of this text, or with the defaults where they are refused: by the refusals of `try_new`
// first, then by those of the text.
// Kept: the C interface passes the settings one by one; here they become `Options`.
#[tactic(auto, using(crate::proofs::Planned::planned_tidied))]
pub fn try_new_planned(
    state: &mut [u64; 34],
    threshold: f64,
    min_duration: u64,
    hue: f64,
    saturation: f64,
    luma: f64,
    edges: f64,
    filter_mode: u32,
    has_kernel: u32,
    kernel_size: u32,
    initial_cut: u32,
    plan: &[u8],
) -> u32
    ensures { SettingsContract content_layout (started_by (planned_by filter_mode (options threshold min_duration (components·of hue saturation luma edges) (mode_set filter_mode) (kernel_set has_kernel kernel_size) (flag_set initial_cut) no_plan) plan.now)) result state.new }
{
    let o = options_by(
        threshold,
        min_duration,
        Components::new(hue, saturation, luma, edges),
        filter_mode,
        has_kernel,
        kernel_size,
        initial_cut,
    );
    calls::settle::<ContentRecord, 34>(state, planned_by(filter_mode, o, plan))
}

// The text of the plan that the state holds: it is written to the start of `text`, whose bytes after it stay. How many bytes it has.
pub fn plan_text(state: &[u64; 34], text: &mut [u8; 192]) -> u32
    ensures value { result ≡ length (rows_text (rows_of (content_of state.now).options.plan)) }
    ensures after { text.new ≡ placed text.old 0 (rows_text (rows_of (content_of state.now).options.plan)) }
    ensures back { rows_read (take result text.new) ≡ Some (rows_of (content_of state.now).options.plan) }
{
    plan_text::write(ContentRecord::read(state).options.plan, text) as u32
}
