// Settings and state records of an adaptive detector from the bytes of a list.
// Kept, point 7: how a record is bad is a byte of the list's record, whose values compare/README.md gives.
ghost use Rattle.std.specs.Prelude.{◌≡◌};
ghost use Rattle.compare_adaptive_lists.specs.State.{window_of, settings_of, is_clear, refused_by, spoiled_by};

use adaptive::{Detector, Options};
use compare_lists::input::{self, Record};

// Small windows fill often; every width to 64 occurs, and widths that are refused.
#[tactic(auto, unfolding(crate::specs::State::window_of, crate::specs::State::odd_window))]
fn window_width(b: u32) -> u32
    ensures { result ≡ window_of b }
{
    let v = b / 4;
    if b % 2 == 1 {
        v + 1
    } else {
        match v {
            0 => 0,
            1 => 65,
            2 => u32::MAX,
            3 => 64,
            _ => v % 4 + 1,
        }
    }
}

pub fn settings(script: &[u8]) -> Options
    ensures { result ≡ settings_of script.now }
{
    // Kept: the settings are in the record at place 0, which is made where it is read.
    let r = Record { script, i: 0 };
    let ratio = r.byte(1) as f64 / 64.0;
    let least = r.byte(15) as f64 / 4.0 - 16.0;
    Options {
        adaptive_threshold: input::threshold(r.byte(0) % 32, ratio),
        min_duration: input::minimum(script),
        window_width: window_width(r.byte(7)),
        min_content_val: input::threshold(r.byte(14) % 32, least),
        weights: input::weights(script),
        kernel_size: input::kernel(script),
        initial_cut: input::initial_cut(script),
    }
}

// A `clear` is rare, so that wide windows fill.
#[tactic(auto, unfolding(crate::specs::State::is_clear))]
pub fn is_clear(kind: u32, b: u32) -> bool
    ensures { result ≡ is_clear kind b }
{
    kind == 0 && b % 4 == 0
}

// Options that are refused: a NaN, or a window of 0 or 65.
#[tactic(auto, unfolding(crate::specs::State::refused_by))]
fn refused(o: Options, how: u32) -> Options
    ensures { result ≡ refused_by o how }
{
    match how {
        2 => o.with_adaptive_threshold(f64::NAN),
        3 => o.with_min_content_val(f64::NAN),
        4 => o.with_window_width(0),
        _ => o.with_window_width(65),
    }
}

// A bad record: a count over that of a full window, a side too large, or settings that are refused.
#[tactic(auto, unfolding(crate::specs::State::spoiled_by))]
pub fn spoiled(mut d: Detector, how: u32) -> Detector
    ensures { result ≡ spoiled_by d how }
{
    match how {
        0 => d.window.count = 2 * (d.options.window_width as usize) + 2,
        1 => d.stream.height = 4097,
        _ => d.options = refused(d.options, how),
    }
    d
}
