// The content detector without its pixels (RULES 8): options, the state record, settings, the step of an accepted frame and `clear`. Values
// go in and come out. The frame calls, and the readers of score and components, are those of any detector (`detector`).
#![tactic(auto)]

ghost use Rattle.std.specs.Prelude.{◌≡◌, refl};
ghost use Rattle.refusal.specs.Refusal.{number_in};
ghost use Rattle.detector.specs.Answers.{settled_in};
ghost use Rattle.content.specs.Options.{options, with_plan, defaults, filter_options, picture_options, options_refusal};
ghost use Rattle.content.specs.State.{fresh, bad_filter, bad_state, settled, cleared_answer};
ghost use Rattle.content.specs.Step.{frame_threshold, filter_step, stepped};

use detector::{Detect, Step};
use filter::{Filter, FilterMode, FilterOptions, FilterStep};
use frame_call::{Picture, PictureOptions};
use light_plan::Plan;
use refusal::{Refusal, Refused};
use score::Components;
use stream::Stream;
use timestamp::Timestamp;

#[derive(Clone, Copy, Debug, PartialEq)]
pub struct Options {
    pub threshold: f64,
    // The least distance from one cut to the next, in microseconds.
    pub min_duration: u64,
    pub weights: Components,
    pub filter_mode: FilterMode,
    pub kernel_size: Option<u32>,
    // Whether the seed lies the minimum before the first scored frame, so that this frame may be a cut, or at it.
    pub initial_cut: bool,
    // The light plan, or none: with a plan, the row that has a frame's luma median gives its threshold.
    pub plan: Plan,
}

// What one call hands to the next.
#[derive(Clone, Copy, Debug, PartialEq)]
pub struct Detector {
    pub options: Options,
    pub stream: Stream,
    pub filter: Filter,
}

// Kept, point 2: the Rust's names; each detector's options are a type of their own, with a reader and a setter for each field.
impl Options {
    // The Rust's defaults, without `simd`.
    pub fn new() -> Self
        ensures { result ≡ defaults }
    {
        Options {
            threshold: 27.0,
            min_duration: 1_000_000,
            weights: Components::default(),
            filter_mode: FilterMode::Merge,
            kernel_size: None,
            initial_cut: true,
            plan: Plan::none(),
        }
    }

    pub fn threshold(self) -> f64
        ensures { result ≡ self.threshold }
    {
        self.threshold
    }

    pub fn with_threshold(mut self, val: f64) -> Self
        ensures { result ≡ options val self.min_duration self.weights self.filter_mode self.kernel_size self.initial_cut self.plan }
    {
        self.threshold = val;
        self
    }

    pub fn min_duration(self) -> u64
        ensures { result ≡ self.min_duration }
    {
        self.min_duration
    }

    pub fn with_min_duration(mut self, val: u64) -> Self
        ensures { result ≡ options self.threshold val self.weights self.filter_mode self.kernel_size self.initial_cut self.plan }
    {
        self.min_duration = val;
        self
    }

    pub fn weights(self) -> Components
        ensures { result ≡ self.weights }
    {
        self.weights
    }

    pub fn with_weights(mut self, val: Components) -> Self
        ensures { result ≡ options self.threshold self.min_duration val self.filter_mode self.kernel_size self.initial_cut self.plan }
    {
        self.weights = val;
        self
    }

    pub fn filter_mode(self) -> FilterMode
        ensures { result ≡ self.filter_mode }
    {
        self.filter_mode
    }

    pub fn with_filter_mode(mut self, val: FilterMode) -> Self
        ensures { result ≡ options self.threshold self.min_duration self.weights val self.kernel_size self.initial_cut self.plan }
    {
        self.filter_mode = val;
        self
    }

    pub fn kernel_size(self) -> Option<u32>
        ensures { result ≡ self.kernel_size }
    {
        self.kernel_size
    }

    pub fn with_kernel_size(mut self, val: Option<u32>) -> Self
        ensures { result ≡ options self.threshold self.min_duration self.weights self.filter_mode val self.initial_cut self.plan }
    {
        self.kernel_size = val;
        self
    }

    pub fn initial_cut(self) -> bool
        ensures { result ≡ self.initial_cut }
    {
        self.initial_cut
    }

    pub fn with_initial_cut(mut self, val: bool) -> Self
        ensures { result ≡ options self.threshold self.min_duration self.weights self.filter_mode self.kernel_size val self.plan }
    {
        self.initial_cut = val;
        self
    }

    pub fn plan(self) -> Plan
        ensures { result ≡ self.plan }
    {
        self.plan
    }

    pub fn with_plan(mut self, val: Plan) -> Self
        ensures { result ≡ with_plan self val }
    {
        self.plan = val;
        self
    }
}

// What the filter reads of the options.
// Kept, point 4: two types that share names, each of which is named once.
impl From<Options> for FilterOptions {
    ghost from_gives = { λ o r. r ≡ filter_options o };

    fn from(o: Options) -> Self {
        FilterOptions {
            filter_mode: o.filter_mode,
            min_duration: o.min_duration,
            initial_cut: o.initial_cut,
        }
    }
}

// Refusals 6 to 9 of settings, then 20 to 22 of their plan.
fn check_options(o: Options) -> Result<(), Refusal>
    ensures { number_in result ≡ options_refusal o }
{
    score::check_settings(o.weights, o.kernel_size, score::is_nan(o.threshold))?;
    o.plan.check()
}

// A fresh state with these options.
// Kept: made of the fields of its own detector.
fn fresh(options: Options) -> Detector
    ensures { result ≡ fresh options }
{
    Detector {
        options,
        stream: stream::fresh_stream(0, 0),
        filter: filter::new(),
    }
}

// A settings call: accepted, a fresh state; refused, why and a fresh state of the defaults.
// Kept: beside the other detector's. One function for both is no plainer: it would want type, check and fresh state of the options in the trait.
// By cases, as a settings call answers: a state, or why and the state of the defaults.
#[tactic(auto, using(refusal::proofs::Numbers::positive), unfolding(crate::specs::State::settled))]
pub fn try_new(options: Options) -> Result<Detector, Refused<Detector>>
    ensures { settled_in result ≡ settled options }
{
    match check_options(options) {
        Ok(()) => Ok(fresh(options)),
        Err(refusal) => Err(Refused {
            refusal,
            state: fresh(Options::new()),
        }),
    }
}

// Whether a merge is triggered without start or last stamp.
fn bad_filter(f: Filter) -> bool
    ensures { result ≡ bad_filter f }
{
    f.merge_triggered & (f.merge_start.is_none() | f.last_above.is_none())
}

// The threshold of a frame: by its luma median, where a plan wants one, or the set one.
fn frame_threshold(o: Options, median: Option<u8>) -> f64
    ensures { result ≡ frame_threshold o median }
{
    match median {
        None => o.threshold,
        Some(m) => f64::from(o.plan.threshold_at(m)),
    }
}

// The filter's step by a frame's score or none, and its luma median where a plan wants it.
fn filter_step(
    o: Options,
    f: Filter,
    ts: Timestamp,
    last: Option<f64>,
    median: Option<u8>,
) -> FilterStep
    ensures { result ≡ filter_step o f ts last median }
{
    match last {
        None => FilterStep {
            filter: filter::new(),
            cut: None,
        },
        Some(value) => {
            let above = score::above(value, frame_threshold(o, median));
            filter::flash_filter(o.into(), f, ts, above)
        }
    }
}

// Kept, point 2: the trait's functions, each on the fields of its own type.
impl Detect for Detector {
    ghost stream = { λ d. d.stream };

    ghost settings = { λ d. picture_options d.options };

    ghost bad = { bad_state };

    ghost stepped = { stepped };

    ghost cleared = { cleared_answer };

    fn stream(self) -> Stream {
        self.stream
    }

    fn picture_options(self) -> PictureOptions {
        // Kept: two types that share names, each of which is named once.
        PictureOptions {
            weights: self.options.weights,
            kernel_size: self.options.kernel_size,
            wants_median: self.options.plan.is_given(),
        }
    }

    #[tactic(auto, using(refusal::proofs::Numbers::positive), unfolding(crate::specs::State::bad_state))]
    fn is_bad(self) -> bool {
        check_options(self.options).is_err()
            | frame::is_too_large(self.stream.width, self.stream.height)
            | bad_filter(self.filter)
    }

    #[tactic(auto, unfolding(crate::specs::Step::stepped))]
    fn step(self, ts: Timestamp, p: Picture) -> Step<Self> {
        // Kept: one name for the score that is stepped by and answered.
        let score = p.stream.last_score;
        let next = filter_step(self.options, self.filter, ts, score, p.median);
        Step {
            // Kept: the stream is copied from the picture, the rest from the step.
            detector: Detector {
                stream: p.stream,
                filter: next.filter,
                ..self
            },
            cut: next.cut,
            score,
            components: stream::components_shown(p.stream.last_components),
            sums: p.sums,
        }
    }

    #[tactic(auto, unfolding(crate::specs::State::cleared_answer))]
    fn clear(self) -> Result<Self, Refused<Self>> {
        if self.is_bad() {
            return Err(Refused {
                refusal: Refusal::BadState,
                state: self,
            });
        }
        Ok(Detector {
            stream: stream::fresh_stream(self.stream.width, self.stream.height),
            filter: filter::new(),
            ..self
        })
    }

    ghost shows = { λ d ts p. unfold stepped in (refl, (refl, refl)) };
}
