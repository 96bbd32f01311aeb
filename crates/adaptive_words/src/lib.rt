// The adaptive detector's record in 288 words: a version, then each field, and the window's places. Any 288 words are read: what is not a
// record is read as one that every call refuses by 15.
// Kept, point 2: stamps and scores have a definition each; one function for both would take the two conversions as closures, and be longer.
// Kept, point 4: `micros_word` has the promise that its word reads back.
#![tactic(auto)]

ghost use Rattle.std.specs.Prelude.{◌≡◌, refl, true, length};
ghost use Rattle.std.specs.Int.{w64};
ghost use Rattle.std.proofs.Common.{of_z, to_z};
ghost use Rattle.adaptive_words.specs.Options.{options_words, is_options, options_of};
ghost use Rattle.adaptive_words.specs.Window.{window_words, is_window, window_of, stamps_words, stamps_of, scores_words, scores_of};
ghost use Rattle.adaptive_words.specs.Record.{adaptive_words, foreign, adaptive_of};
ghost use Rattle.adaptive_words.specs.Calls.{accepted, stays};

use adaptive::{Detector, Options};
use score::Components;
use window::Window;
use words::Recorded;

// The version and the settings.
#[tactic(auto, using(words::proofs::Made::reads), unfolding(crate::specs::Options::options_words, crate::specs::Options::is_options, crate::specs::Options::options_of))]
fn options_words(o: Options) -> [u64; 12]
    ensures value { result ≡ options_words o }
    ensures result_value { (is_options result ≡ true) × (options_of result ≡ o) }
{
    [
        0x4d57414441503031,
        words::float_word(o.adaptive_threshold),
        o.min_duration,
        o.window_width as u64,
        words::float_word(o.min_content_val),
        words::float_word(o.weights.delta_hue),
        words::float_word(o.weights.delta_sat),
        words::float_word(o.weights.delta_lum),
        words::float_word(o.weights.delta_edges),
        words::tag(o.kernel_size),
        words::kernel_word(o.kernel_size),
        words::flag_word(o.initial_cut),
    ]
}

#[tactic(auto, unfolding(crate::specs::Options::is_options))]
fn is_options(w: &[u64]) -> bool
    requires { length w.now ≡ 12 }
    ensures { result ≡ is_options w.now }
{
    (w[0] == 0x4d57414441503031)
        & (w[3] < 4294967296)
        & (w[9] <= 1)
        & ((w[9] == 0) | (w[10] < 4294967296))
        & (w[11] <= 1)
}

#[tactic(auto, unfolding(crate::specs::Options::options_of))]
fn options_of(w: &[u64]) -> Options
    requires { length w.now ≡ 12 }
    ensures { result ≡ options_of w.now }
{
    Options {
        adaptive_threshold: words::float_of(w[1]),
        min_duration: w[2],
        window_width: words::short_of(w[3]),
        min_content_val: words::float_of(w[4]),
        weights: words::components_of(w[5], w[6], w[7], w[8]),
        kernel_size: words::kernel_of(w[9], w[10]),
        initial_cut: words::flag_of(w[11]),
    }
}

// The window but for its places.
#[tactic(auto, using(words::proofs::Made::reads), unfolding(crate::specs::Window::window_words, crate::specs::Window::is_window, crate::specs::Window::window_of))]
fn window_words(w: Window) -> [u64; 8]
    ensures value { result ≡ window_words w }
    ensures result_value { (is_window result ≡ true) × (window_of result w.stamps w.scores ≡ w) }
{
    [
        w.count as u64,
        words::float_word(w.buffer_sum),
        words::tag(w.last_cut_ts),
        words::stamp_word(w.last_cut_ts),
        words::tag(w.last_adaptive_ratio),
        words::score_word(w.last_adaptive_ratio),
        words::tag(w.last_target_score),
        words::score_word(w.last_target_score),
    ]
}

#[tactic(auto, unfolding(crate::specs::Window::is_window))]
fn is_window(w: &[u64]) -> bool
    requires { length w.now ≡ 8 }
    ensures { result ≡ is_window w.now }
{
    (w[2] <= 1) & (w[4] <= 1) & (w[6] <= 1)
}

#[tactic(auto, unfolding(crate::specs::Window::window_of))]
fn window_of(w: &[u64], stamps: &[u64], scores: &[u64]) -> Window
    requires w_len { length w.now ≡ 8 }
    requires stamps_len { length stamps.now ≡ 129 }
    requires scores_len { length scores.now ≡ 129 }
    ensures { result ≡ window_of w.now (stamps_of stamps.now) (scores_of scores.now) }
{
    Window {
        stamps: stamps_of(stamps),
        scores: scores_of(scores),
        count: w[0] as usize,
        buffer_sum: words::float_of(w[1]),
        last_cut_ts: words::stamp_of(w[2], w[3]),
        last_adaptive_ratio: words::score_of(w[4], w[5]),
        last_target_score: words::score_of(w[6], w[7]),
    }
}

// A stamp in two's complement, which reads back.
fn micros_word(micros: i64) -> u64
    ensures value { result ≡ of_z w64 micros }
    ensures result_value { to_z w64 result ≡ micros }
{
    micros.cast_unsigned()
}

// The places' stamps, straight from where they stand to where they go.
// Kept: an index here and in the three below. The library's `map` of an array (tried here) copies its kibibyte several times over: with it each of
// the adaptive calls of the station takes three to five times as many instructions.
fn put_stamps(out: &mut [u64], stamps: &[i64; 129])
    requires { length out.old ≡ 129 }
    ensures after { out.new ≡ stamps_words stamps.now }
    ensures back { stamps_of out.new ≡ stamps.now }
{
    for i in 0..129 {
        out[i] = micros_word(stamps[i]);
    }
}

fn stamps_of(w: &[u64]) -> [i64; 129]
    requires { length w.now ≡ 129 }
    ensures { result ≡ stamps_of w.now }
{
    let mut stamps = [0; 129];
    for i in 0..129 {
        stamps[i] = w[i].cast_signed();
    }
    stamps
}

// The places' scores.
fn put_scores(out: &mut [u64], scores: &[f64; 129])
    requires { length out.old ≡ 129 }
    ensures after { out.new ≡ scores_words scores.now }
    ensures back { scores_of out.new ≡ scores.now }
{
    for i in 0..129 {
        out[i] = words::float_word(scores[i]);
    }
}

fn scores_of(w: &[u64]) -> [f64; 129]
    requires { length w.now ≡ 129 }
    ensures { result ≡ scores_of w.now }
{
    let mut scores = [0.0; 129];
    for i in 0..129 {
        scores[i] = words::float_of(w[i]);
    }
    scores
}

// What is read where the words are not a record: all weights are zero, so every call refuses it by 15.
// Kept: made of the fields of its own detector.
#[tactic(auto, using(score::proofs::Literals::literals), unfolding(crate::specs::Record::foreign))]
fn foreign() -> Detector
    ensures { result ≡ foreign }
{
    Detector {
        options: Options::new().with_weights(Components::new(0.0, 0.0, 0.0, 0.0)),
        stream: stream::fresh_stream(0, 0),
        window: window::new(),
    }
}

// Stands for the layout of the adaptive detector's record.
pub struct AdaptiveRecord;

impl Recorded<288> for AdaptiveRecord {
    type State = Detector;

    ghost words_of = { adaptive_words };

    ghost held_by = { adaptive_of };

    // Words hold all of a state, the places of the window past its count too.
    ghost tidied = { λ d. d };

    // What is no record leaves first: the two as the branches of one `if` cost a copy more of the whole state, in time and stack.
    #[tactic(auto, unfolding(crate::specs::Record::adaptive_of, crate::specs::Record::is_adaptive))]
    fn read(w: &[u64; 288]) -> Detector {
        let a = &w[0..12];
        let b = &w[12..22];
        let c = &w[22..30];
        if !(is_options(a) & words::is_stream(b) & is_window(c)) {
            return foreign();
        }
        Detector {
            options: options_of(a),
            stream: words::stream_of(b),
            window: window_of(c, &w[30..159], &w[159..288]),
        }
    }

    fn write(d: Detector, out: &mut [u64; 288]) {
        out[0..12].copy_from_slice(&options_words(d.options));
        out[12..22].copy_from_slice(&words::stream_words(d.stream));
        out[22..30].copy_from_slice(&window_words(d.window));
        put_stamps(&mut out[30..159], &d.window.stamps);
        put_scores(&mut out[159..288], &d.window.scores);
    }

    ghost accepted = { accepted };

    ghost held_tidied = { λ w. refl };

    ghost step_tidied = { λ d ts p e. refl };

    ghost clear_tidied = { λ d e. refl };

    ghost stays = { stays };
}
