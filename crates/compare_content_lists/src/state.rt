// Settings and state records of a content detector from the bytes of a list.
// Kept, point 7: how a record is bad is a byte of the list's record, whose values compare/README.md gives.
ghost use Rattle.std.specs.Prelude.{◌≡◌};
ghost use Rattle.compare_content_lists.specs.State.{mode_of, settings_of, triggered_of, spoiled_by};

use crate::plans;
use compare_lists::input::{self, Record};
use content::{Detector, Options};
use filter::{Filter, FilterMode};

// Kept: replay_filter reads a byte so too, by a definition of its own, and the crate that both stand on knows no filter.
#[tactic(auto, unfolding(crate::specs::State::mode_of))]
fn filter_mode(b: u32) -> FilterMode
    ensures { result ≡ mode_of b }
{
    if b % 2 == 0 {
        FilterMode::Suppress
    } else {
        FilterMode::Merge
    }
}

pub fn settings(script: &[u8]) -> Options
    ensures { result ≡ settings_of script.now }
{
    // Kept: the settings are in the record at place 0, which is made where it is read.
    let r = Record { script, i: 0 };
    let other = r.byte(1) as f64 / 4.0;
    Options {
        threshold: input::threshold(r.byte(0) % 32, other),
        min_duration: input::minimum(script),
        weights: input::weights(script),
        filter_mode: filter_mode(r.byte(7)),
        kernel_size: input::kernel(script),
        initial_cut: input::initial_cut(script),
        plan: plans::plan_by(r.byte(14) as u8, r.byte(1) as u8, r.byte(15) as u8),
    }
}

// A merge triggered without its start.
fn triggered(f: Filter) -> Filter
    ensures { result ≡ triggered_of f }
{
    Filter {
        merge_triggered: true,
        merge_start: None,
        ..f
    }
}

// A bad record: a merge triggered without its start, a side too large, a NaN threshold, a plan of too many rows, or one without a median.
#[tactic(auto, unfolding(crate::specs::State::spoiled_by))]
pub fn spoiled(mut d: Detector, how: u32) -> Detector
    ensures { result ≡ spoiled_by d how }
{
    match how {
        0 => d.filter = triggered(d.filter),
        1 => d.stream.height = 4097,
        2 => d.options.threshold = f64::NAN,
        3 => d.options.plan.count = 17,
        _ => d.options.plan = plans::without_the_last(),
    }
    d
}
