// The filter (RULES 7), which is the flash filter of the Rust's content.rs: which scored frames of a stretch are cuts.
#![tactic(auto)]

ghost use Rattle.std.specs.Prelude.{true, false, ◌≡◌};
ghost use Rattle.filter.specs.Flash.{fresh, virtual_seed, seeded, min_length_met, step_to, suppressed, num_merged, merge_held, merge_free, advanced, filter_merge, flash_filter};

use timestamp::Timestamp;

#[derive(Clone, Copy, Debug, PartialEq, Eq)]
pub enum FilterMode {
    Suppress,
    Merge,
}

#[derive(Clone, Copy, Debug, PartialEq, Eq)]
pub struct FilterOptions {
    pub filter_mode: FilterMode,
    // The least distance from one cut to the next, in microseconds.
    pub min_duration: u64,
    // Whether the seed lies the minimum before the first scored frame, so that this frame may be a cut, or at it.
    pub initial_cut: bool,
}

// What the filter keeps from one scored frame to the next.
// Kept: the C interface writes a state as words with these fields, and tells one that says triggered without a start as a bad state, so flag and start are apart.
#[derive(Clone, Copy, Debug, PartialEq, Eq)]
pub struct Filter {
    pub last_above: Option<Timestamp>,
    pub merge_enabled: bool,
    pub merge_triggered: bool,
    pub merge_start: Option<Timestamp>,
}

// The filter after a scored frame, and the frame's cut or none.
// Kept: beside `window::WindowStep`, of another state; each is named by its rules.
#[derive(Clone, Copy, Debug, PartialEq, Eq)]
pub struct FilterStep {
    pub filter: Filter,
    pub cut: Option<Timestamp>,
}

// A scored frame at the filter.
#[derive(Clone, Copy)]
struct Scored {
    // The stamp that its distance is counted from: the filter's before this frame, or the seed.
    last: Timestamp,
    ts: Timestamp,
    above: bool,
    // Whether ts is at least the minimum past `last`.
    met: bool,
}

// The filter of a stretch that has no scored frame yet.
// Kept: by the Rust's name, with the definition that its contract cites.
pub fn new() -> Filter
    ensures { result ≡ fresh }
{
    Filter {
        last_above: None,
        merge_enabled: false,
        merge_triggered: false,
        merge_start: None,
    }
}

// The stamp that the first distance of a stretch is counted from.
#[tactic(auto, unfolding(crate::specs::Flash::virtual_seed))]
pub fn virtual_seed(ts: Timestamp, o: FilterOptions) -> Timestamp
    ensures { result ≡ virtual_seed ts o }
{
    if o.initial_cut {
        timestamp::saturating_sub_duration(ts, o.min_duration)
    } else {
        ts
    }
}

// The stamp that the distance is counted from at ts.
#[tactic(auto, unfolding(crate::specs::Flash::seeded))]
fn seed(o: FilterOptions, last_above: Option<Timestamp>, ts: Timestamp) -> Timestamp
    ensures { result ≡ seeded o last_above ts }
{
    last_above.unwrap_or(virtual_seed(ts, o))
}

// Whether ts is at least the minimum past `last`.
#[tactic(auto, using(std::proofs::lemmas::Int::ints), unfolding(crate::specs::Flash::min_length_met, timestamp::specs::Stamps::duration_since, timestamp::specs::Stamps::distance))]
fn min_length_met(o: FilterOptions, last: Timestamp, ts: Timestamp) -> bool
    ensures { result ≡ min_length_met o last ts }
{
    timestamp::duration_since(ts, last).is_some_and(|n| o.min_duration <= n)
}

// The next distance is counted from `last`; merging stays as it is.
fn step_to(f: Filter, last: Timestamp, cut: Option<Timestamp>) -> FilterStep
    ensures { result ≡ step_to f last cut }
{
    FilterStep {
        filter: Filter {
            last_above: Some(last),
            ..f
        },
        cut,
    }
}

// Suppress: a frame that is above and far enough is a cut, and the next distance is counted from it.
#[tactic(auto, unfolding(crate::specs::Flash::suppressed))]
fn suppress(f: Filter, x: Scored) -> FilterStep
    ensures { result ≡ suppressed f x.last x.ts x.above x.met }
{
    if x.above && x.met {
        step_to(f, x.ts, Some(x.ts))
    } else {
        step_to(f, x.last, None)
    }
}

// How long the frames above have been merged.
#[tactic(auto, unfolding(crate::specs::Flash::num_merged))]
fn num_merged(last: Timestamp, merge_start: Option<Timestamp>) -> u64
    ensures { result ≡ num_merged last merge_start }
{
    merge_start
        .and_then(|start| timestamp::duration_since(last, start))
        .unwrap_or(0)
}

// `filter_merge` while a merge is triggered: cuts are held back, and the last frame above may be released.
#[tactic(auto, unfolding(crate::specs::Flash::merge_held))]
fn merge_held(o: FilterOptions, f: Filter, x: Scored) -> FilterStep
    requires { f.merge_triggered ≡ true }
    ensures { result ≡ merge_held o f (advanced x.last x.ts x.above) x.above x.met }
{
    match (x.above, x.met) {
        (true, _) => step_to(f, x.ts, None),
        (false, true) if o.min_duration <= num_merged(x.last, f.merge_start) => {
            let ended = Filter {
                merge_triggered: false,
                ..f
            };
            step_to(ended, x.last, Some(x.last))
        }
        (false, _) => step_to(f, x.last, None),
    }
}

// `filter_merge` while none is triggered: a frame above is a cut, or triggers a merge once there was a cut.
#[tactic(auto, unfolding(crate::specs::Flash::merge_free))]
fn merge_free(f: Filter, x: Scored) -> FilterStep
    requires { f.merge_triggered ≡ false }
    ensures { result ≡ merge_free f (advanced x.last x.ts x.above) x.ts x.above x.met }
{
    match (x.above, x.met) {
        (true, true) => {
            let enabled = Filter {
                merge_enabled: true,
                ..f
            };
            step_to(enabled, x.ts, Some(x.ts))
        }
        (true, false) if f.merge_enabled => {
            let triggered = Filter {
                merge_triggered: true,
                merge_start: Some(x.ts),
                ..f
            };
            step_to(triggered, x.ts, None)
        }
        (true, false) => step_to(f, x.ts, None),
        (false, _) => step_to(f, x.last, None),
    }
}

// Merge.
#[tactic(auto, unfolding(crate::specs::Flash::filter_merge))]
fn filter_merge(o: FilterOptions, f: Filter, x: Scored) -> FilterStep
    ensures { result ≡ filter_merge o f x.last x.ts x.above x.met }
{
    if f.merge_triggered {
        merge_held(o, f, x)
    } else {
        merge_free(f, x)
    }
}

// A scored frame. Every state is handled, also those that refusal 15 keeps out above: one that is triggered without a
// last stamp is seeded as a fresh one is, and one without a start has merged for 0, so that it releases a cut only if
// the minimum is 0.
#[tactic(auto, unfolding(crate::specs::Flash::flash_filter))]
pub fn flash_filter(o: FilterOptions, f: Filter, ts: Timestamp, above: bool) -> FilterStep
    ensures { result ≡ flash_filter o f ts above }
{
    let last = seed(o, f.last_above, ts);
    let met = min_length_met(o, last, ts);
    let x = Scored {
        last,
        ts,
        above,
        met,
    };
    match o.filter_mode {
        FilterMode::Suppress => suppress(f, x),
        FilterMode::Merge => filter_merge(o, f, x),
    }
}
