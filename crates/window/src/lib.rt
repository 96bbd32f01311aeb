// The window of the adaptive detector (RULES 9.3 to 9.10), `push_and_check` of the Rust's adaptive.rs: which scored frames are cuts. It sees
// stamps and scores alone, and takes any floats, NaN and infinities among them.
#![tactic(auto)]

ghost use Rattle.std.specs.Prelude.{◌≡◌, ◌+◌, ◌*◌, ◌<◌, ◌≤◌, length};
ghost use Rattle.filter.specs.Flash.{flash_filter};
ghost use Rattle.window.specs.Window.{fresh, can_hold, pushed_list, pushed, average, capped, ratio_of, threshold_met, suppressing, counted_from, judged, push_and_check};

use filter::{Filter, FilterMode, FilterOptions, FilterStep};
use timestamp::Timestamp;

// The greatest `window_width` (RULES 10.1): 129 places hold the scores on either side, and the target.
pub const MOST_WINDOW: u32 = 64;

#[derive(Clone, Copy, Debug, PartialEq)]
pub struct WindowOptions {
    pub adaptive_threshold: f64,
    // The least distance from one cut to the next, in microseconds.
    pub min_duration: u64,
    // How many scores on either side of the target make its average.
    pub window_width: u32,
    pub min_content_val: f64,
    // Whether the seed lies the minimum before the first target, so that this target may be a cut, or at it.
    pub initial_cut: bool,
}

// What the detector keeps from one scored frame to the next. The first `count` places are the window, oldest first.
// Kept: no heap, and the C interface writes the 129 stamps, the 129 scores and the count as words, whatever the window's width.
#[derive(Clone, Copy, Debug, PartialEq)]
pub struct Window {
    pub stamps: [i64; 129],
    pub scores: [f64; 129],
    pub count: usize,
    pub buffer_sum: f64,
    pub last_cut_ts: Option<Timestamp>,
    pub last_adaptive_ratio: Option<f64>,
    pub last_target_score: Option<f64>,
}

// The window after a call, and the cut or none.
// Kept: beside `filter::FilterStep`, of another state; each is named by its rules.
#[derive(Clone, Copy, Debug, PartialEq)]
pub struct WindowStep {
    pub window: Window,
    pub cut: Option<Timestamp>,
}

// No ratio is larger.
const MAX_RATIO: f64 = 255.0;

// The window of a detector that has no scored frame yet.
#[tactic(auto, using(crate::proofs::Literals::literals), unfolding(crate::specs::Window::fresh))]
pub fn new() -> Window
    ensures { result ≡ fresh }
{
    Window {
        stamps: [0; 129],
        scores: [0.0; 129],
        count: 0,
        buffer_sum: 0.0,
        last_cut_ts: None,
        last_adaptive_ratio: None,
        last_target_score: None,
    }
}

// Whether the places can hold the window: refusals 11 and 15 catch other settings and states above.
#[tactic(auto, unfolding(crate::specs::Window::can_hold))]
fn can_hold(o: WindowOptions, count: usize) -> bool
    ensures { result ≡ can_hold o count }
{
    o.window_width <= MOST_WINDOW && count <= 2 * (o.window_width as usize) + 1
}

// x comes to place n. In a full window the oldest of n + 1 is dropped for it, and the others move one place down.
// Kept: n is the place of x in an array of fixed size, since there is no heap.
#[tactic(auto, unfolding(crate::specs::Window::pushed_list, crate::specs::Window::without_oldest))]
fn push_to<T: Copy>(xs: &mut [T], full: bool, n: usize, x: T)
    requires { n < length xs.old }
    ensures { xs.new ≡ pushed_list full n xs.old x }
{
    if full {
        xs.copy_within(1..n + 1, 0);
    }
    xs[n] = x;
}

// A score joins the window of at most last + 1. A full one drops its oldest.
#[tactic(auto, using(std::proofs::lemmas::Int::ints), unfolding(crate::specs::Window::pushed, crate::specs::Window::pushed_sum))]
fn push(mut s: Window, last: usize, ts: Timestamp, score: f64) -> Window
    requires { (last < 129) × (s.count ≤ last + 1) }
    ensures { result ≡ pushed last s ts score }
{
    let full = last < s.count;
    let newest = s.count.min(last);
    let sum = s.buffer_sum + score;
    s.buffer_sum = if full { sum - s.scores[0] } else { sum };
    push_to(&mut s.stamps, full, newest, ts.micros);
    push_to(&mut s.scores, full, newest, score);
    s.count = newest + 1;
    s
}

// The average of the scores but the target's.
#[tactic(auto, unfolding(crate::specs::Window::average))]
fn average_of(o: WindowOptions, sum: f64, target: f64) -> f64
    requires { o.window_width ≤ 64 }
    ensures { result ≡ average o sum target }
{
    (sum - target) / ((2 * o.window_width) as f64)
}

// The Rust's `q.min(255.0)`.
// Kept: a function of its own, since what it gives for a NaN is a definition of its own (RULES 9.8).
#[tactic(auto, unfolding(crate::specs::Window::capped))]
fn cap(q: f64) -> f64
    ensures { result ≡ capped q }
{
    q.min(MAX_RATIO)
}

#[tactic(auto, using(score::proofs::Sizes::sign_off, crate::proofs::Literals::literals), unfolding(crate::specs::Window::ratio_of))]
fn adaptive_ratio(o: WindowOptions, target: f64, avg: f64) -> f64
    ensures { result ≡ ratio_of o target avg }
{
    if avg.abs() < 1e-5 {
        if target >= o.min_content_val {
            MAX_RATIO
        } else {
            0.0
        }
    } else {
        cap(target / avg)
    }
}

// Whether the ratio and the target are large enough for a cut.
#[tactic(auto, unfolding(crate::specs::Window::threshold_met))]
fn threshold_met(o: WindowOptions, target: f64, ratio: f64) -> bool
    ensures { result ≡ threshold_met o target ratio }
{
    ratio >= o.adaptive_threshold && target >= o.min_content_val
}

// The distance is the Suppress filter's: from the last cut, or from the seed if none.
fn gate(o: WindowOptions, last_cut_ts: Option<Timestamp>, ts: Timestamp, above: bool) -> FilterStep
    ensures { result ≡ flash_filter (suppressing o) (counted_from last_cut_ts) ts above }
{
    let options = FilterOptions {
        filter_mode: FilterMode::Suppress,
        min_duration: o.min_duration,
        // Kept: made here alone, with a mode of its own; a `From` would be longer.
        initial_cut: o.initial_cut,
    };
    let f = Filter {
        last_above: last_cut_ts,
        ..filter::new()
    };
    filter::flash_filter(options, f, ts, above)
}

// The target of a full window, at its middle, is judged.
#[tactic(auto, using(std::proofs::lemmas::Int::ints), unfolding(crate::specs::Window::judged, filter::specs::Flash::flash_filter, filter::specs::Flash::suppressed))]
fn judge(o: WindowOptions, s: Window) -> WindowStep
    requires { o.window_width ≤ 64 }
    ensures { result ≡ judged o s }
{
    let middle = o.window_width as usize;
    let ts = Timestamp {
        micros: s.stamps[middle],
    };
    let target = s.scores[middle];
    let ratio = adaptive_ratio(o, target, average_of(o, s.buffer_sum, target));
    let step = gate(o, s.last_cut_ts, ts, threshold_met(o, target, ratio));
    WindowStep {
        window: Window {
            last_cut_ts: step.filter.last_above,
            last_adaptive_ratio: Some(ratio),
            last_target_score: Some(target),
            ..s
        },
        cut: step.cut,
    }
}

// A scored frame joins the window; where the window is full then, its target is judged. Every state is handled: one that
// the places cannot hold stays as it is, and refusals 11 and 15 keep it out above.
#[tactic(auto, unfolding(crate::specs::Window::push_and_check, crate::specs::Window::checked, crate::specs::Window::can_hold))]
pub fn push_and_check(o: WindowOptions, s: Window, ts: Timestamp, score: f64) -> WindowStep
    ensures { result ≡ push_and_check o s ts score }
{
    if !can_hold(o, s.count) {
        return WindowStep {
            window: s,
            cut: None,
        };
    }
    let last = 2 * o.window_width as usize;
    let p = push(s, last, ts, score);
    if p.count <= last {
        WindowStep {
            window: p,
            cut: None,
        }
    } else {
        judge(o, p)
    }
}

// All is as at the start: the last cut goes too.
// Kept: the window that is cleared is a parameter, as the Rust has it.
pub fn clear(s: Window) -> Window
    ensures { result ≡ fresh }
{
    new()
}
