// The adaptive detector without its pixels (RULES 9): options, the state record, settings, the step of an accepted frame, `clear` and its own
// readers. Values go in and come out. The inner detector's settings are made from the outer ones and not held (RULES 9.2), and of its state
// only the stream is kept: its filter cannot be observed, with an infinite threshold. The frame calls, and the readers of score and
// components, are those of any detector (`detector`).
#![tactic(auto)]

ghost use Rattle.std.specs.Prelude.{◌≡◌, refl};
ghost use Rattle.refusal.specs.Refusal.{number_in};
ghost use Rattle.detector.specs.Answers.{settled_in};
ghost use Rattle.adaptive.specs.Options.{options, defaults, window_options, picture_options, options_refusal};
ghost use Rattle.adaptive.specs.State.{fresh, bad_state, settled, cleared_answer};
ghost use Rattle.adaptive.specs.Step.{window_step, stepped};

use detector::{Detect, Step};
use frame_call::{Picture, PictureOptions};
use refusal::{Refusal, Refused};
use score::Components;
use stream::Stream;
use timestamp::Timestamp;
use window::{Window, WindowOptions, WindowStep};

#[derive(Clone, Copy, Debug, PartialEq)]
pub struct Options {
    pub adaptive_threshold: f64,
    // The least distance from one cut to the next, in microseconds.
    pub min_duration: u64,
    // How many scores stand on each side of the target.
    pub window_width: u32,
    pub min_content_val: f64,
    pub weights: Components,
    pub kernel_size: Option<u32>,
    // Whether the seed lies the minimum before the first target, so that this target may be a cut, or at it.
    pub initial_cut: bool,
}

// What one call hands to the next.
#[derive(Clone, Copy, Debug, PartialEq)]
pub struct Detector {
    pub options: Options,
    pub stream: Stream,
    pub window: Window,
}

// Kept, point 2: the Rust's names; each detector's options are a type of their own, with a reader and a setter for each field.
impl Options {
    // The Rust's defaults, without `simd`.
    pub fn new() -> Self
        ensures { result ≡ defaults }
    {
        Options {
            adaptive_threshold: 3.0,
            min_duration: 1_000_000,
            window_width: 2,
            min_content_val: 15.0,
            weights: Components::default(),
            kernel_size: None,
            initial_cut: true,
        }
    }

    pub fn adaptive_threshold(self) -> f64
        ensures { result ≡ self.adaptive_threshold }
    {
        self.adaptive_threshold
    }

    pub fn with_adaptive_threshold(mut self, val: f64) -> Self
        ensures { result ≡ options val self.min_duration self.window_width self.min_content_val self.weights self.kernel_size self.initial_cut }
    {
        self.adaptive_threshold = val;
        self
    }

    pub fn min_duration(self) -> u64
        ensures { result ≡ self.min_duration }
    {
        self.min_duration
    }

    pub fn with_min_duration(mut self, val: u64) -> Self
        ensures { result ≡ options self.adaptive_threshold val self.window_width self.min_content_val self.weights self.kernel_size self.initial_cut }
    {
        self.min_duration = val;
        self
    }

    pub fn window_width(self) -> u32
        ensures { result ≡ self.window_width }
    {
        self.window_width
    }

    pub fn with_window_width(mut self, val: u32) -> Self
        ensures { result ≡ options self.adaptive_threshold self.min_duration val self.min_content_val self.weights self.kernel_size self.initial_cut }
    {
        self.window_width = val;
        self
    }

    pub fn min_content_val(self) -> f64
        ensures { result ≡ self.min_content_val }
    {
        self.min_content_val
    }

    pub fn with_min_content_val(mut self, val: f64) -> Self
        ensures { result ≡ options self.adaptive_threshold self.min_duration self.window_width val self.weights self.kernel_size self.initial_cut }
    {
        self.min_content_val = val;
        self
    }

    pub fn weights(self) -> Components
        ensures { result ≡ self.weights }
    {
        self.weights
    }

    pub fn with_weights(mut self, val: Components) -> Self
        ensures { result ≡ options self.adaptive_threshold self.min_duration self.window_width self.min_content_val val self.kernel_size self.initial_cut }
    {
        self.weights = val;
        self
    }

    pub fn kernel_size(self) -> Option<u32>
        ensures { result ≡ self.kernel_size }
    {
        self.kernel_size
    }

    pub fn with_kernel_size(mut self, val: Option<u32>) -> Self
        ensures { result ≡ options self.adaptive_threshold self.min_duration self.window_width self.min_content_val self.weights val self.initial_cut }
    {
        self.kernel_size = val;
        self
    }

    pub fn initial_cut(self) -> bool
        ensures { result ≡ self.initial_cut }
    {
        self.initial_cut
    }

    pub fn with_initial_cut(mut self, val: bool) -> Self
        ensures { result ≡ options self.adaptive_threshold self.min_duration self.window_width self.min_content_val self.weights self.kernel_size val }
    {
        self.initial_cut = val;
        self
    }
}

// What the window reads of the options.
// Kept, point 4: two types that share names, each of which is named once.
impl From<Options> for WindowOptions {
    ghost from_gives = { λ o r. r ≡ window_options o };

    fn from(o: Options) -> Self {
        WindowOptions {
            adaptive_threshold: o.adaptive_threshold,
            min_duration: o.min_duration,
            window_width: o.window_width,
            min_content_val: o.min_content_val,
            initial_cut: o.initial_cut,
        }
    }
}

// Refusals 10, 11, then 6 to 9 of settings.
#[tactic(auto, unfolding(crate::specs::Options::options_refusal))]
fn check_options(o: Options) -> Result<(), Refusal>
    ensures { number_in result ≡ options_refusal o }
{
    if o.window_width == 0 {
        return Err(Refusal::NoWindow);
    }
    if window::MOST_WINDOW < o.window_width {
        return Err(Refusal::WindowTooWide);
    }
    let nan = score::is_nan(o.adaptive_threshold) | score::is_nan(o.min_content_val);
    score::check_settings(o.weights, o.kernel_size, nan)
}

// A fresh state with these options.
// Kept: made of the fields of its own detector.
fn fresh(options: Options) -> Detector
    ensures { result ≡ fresh options }
{
    Detector {
        options,
        stream: stream::fresh_stream(0, 0),
        window: window::new(),
    }
}

// A settings call: accepted, a fresh state; refused, why and a fresh state of the defaults.
// Kept: beside the other detector's. One function for both is no plainer: it would want type, check and fresh state of the options in the trait.
// By cases, as a settings call answers: a state, or why and the state of the defaults.
#[tactic(auto, using(refusal::proofs::Numbers::positive), unfolding(crate::specs::State::settled))]
pub fn try_new(options: Options) -> Result<Detector, Refused<Detector>>
    ensures { settled_in result ≡ settled options }
{
    match check_options(options) {
        Ok(()) => Ok(fresh(options)),
        Err(refusal) => Err(Refused {
            refusal,
            state: fresh(Options::new()),
        }),
    }
}

// The window's step by a frame's score or none.
fn window_step(o: Options, kept: Window, ts: Timestamp, last: Option<f64>) -> WindowStep
    ensures { result ≡ window_step o kept ts last }
{
    match last {
        None => WindowStep {
            window: kept,
            cut: None,
        },
        Some(value) => window::push_and_check(o.into(), kept, ts, value),
    }
}

// Kept, point 2: the trait's functions, each on the fields of its own type.
impl Detect for Detector {
    ghost stream = { λ d. d.stream };

    ghost settings = { λ d. picture_options d.options };

    ghost bad = { bad_state };

    ghost stepped = { stepped };

    ghost cleared = { cleared_answer };

    fn stream(self) -> Stream {
        self.stream
    }

    fn picture_options(self) -> PictureOptions {
        // Kept: two types that share names, each of which is named once.
        PictureOptions {
            weights: self.options.weights,
            kernel_size: self.options.kernel_size,
            wants_median: false,
        }
    }

    #[tactic(auto, using(refusal::proofs::Numbers::positive), unfolding(crate::specs::State::bad_state))]
    fn is_bad(self) -> bool {
        check_options(self.options).is_err()
            | frame::is_too_large(self.stream.width, self.stream.height)
            | (2 * (self.options.window_width as usize) + 1 < self.window.count)
    }

    #[tactic(auto, unfolding(crate::specs::Step::stepped))]
    fn step(self, ts: Timestamp, p: Picture) -> Step<Self> {
        // Kept: one name for the score that is stepped by and answered.
        let score = p.stream.last_score;
        let next = window_step(self.options, self.window, ts, score);
        Step {
            // Kept: the stream is copied from the picture, the rest from the step.
            detector: Detector {
                stream: p.stream,
                window: next.window,
                ..self
            },
            cut: next.cut,
            score,
            components: stream::components_shown(p.stream.last_components),
            sums: p.sums,
        }
    }

    #[tactic(auto, unfolding(crate::specs::State::cleared_answer))]
    fn clear(self) -> Result<Self, Refused<Self>> {
        if self.is_bad() {
            return Err(Refused {
                refusal: Refusal::BadState,
                state: self,
            });
        }
        Ok(Detector {
            stream: stream::fresh_stream(self.stream.width, self.stream.height),
            window: window::clear(self.window),
            ..self
        })
    }

    ghost shows = { λ d ts p. unfold stepped in (refl, (refl, refl)) };
}

// The readers refuse nothing and show the record as it is.
// Kept: a reader of the Rust's (RULES 9.12), which shows one field.
pub fn last_adaptive_ratio(d: Detector) -> Option<f64>
    ensures { result ≡ d.window.last_adaptive_ratio }
{
    d.window.last_adaptive_ratio
}

// Kept: a reader of the Rust's (RULES 9.12), which shows one field.
pub fn last_target_score(d: Detector) -> Option<f64>
    ensures { result ≡ d.window.last_target_score }
{
    d.window.last_target_score
}
