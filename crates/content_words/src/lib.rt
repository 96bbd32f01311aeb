// The content detector's record in 34 words: a version, then each field. Any 34 words are read: what is not a record is read as one that
// every call refuses by 15.
#![tactic(auto)]

ghost use Rattle.std.specs.Prelude.{◌≡◌, true, [], ◌∷◌, length, get_or};
ghost use Rattle.std.specs.Int.{w64, to_le_bytes, from_le_bytes};
ghost use Rattle.light_plan.specs.Plan.{tidied as tidied_plan};
ghost use Rattle.content_words.specs.Options.{mode_word, mode_of, options_words, is_options, options_of};
ghost use Rattle.content_words.specs.Filter.{filter_words, is_filter, filter_of};
ghost use Rattle.content_words.specs.Plan.{first_word, second_word, bytes_of, plan_words, is_plan, plan_of_words};
ghost use Rattle.content_words.specs.Record.{content_words, foreign, content_of, tidied};
ghost use Rattle.content_words.specs.Calls.{accepted, held_tidied, step_tidied, clear_tidied, stays};

use content::{Detector, Options};
use filter::{Filter, FilterMode};
use light_plan::Plan;
use score::Components;
use words::Recorded;

// Merge is 0, Suppress 1.
// Kept: `FilterMode` is of another crate, where no word is known, and `From` is refused outside the crates of the two types.
pub fn mode_word(m: FilterMode) -> u64
    ensures value { result ≡ mode_word m }
    ensures result_value { mode_of result ≡ m }
{
    match m {
        FilterMode::Merge => 0,
        FilterMode::Suppress => 1,
    }
}

// Kept: a function, for the reason that stands at `mode_word`.
pub fn mode_of(w: u64) -> FilterMode
    ensures { result ≡ mode_of w }
{
    if w == 1 {
        FilterMode::Suppress
    } else {
        FilterMode::Merge
    }
}

// The version, and the settings but for the plan.
#[tactic(auto, using(words::proofs::Made::reads, crate::proofs::Made::mode_le), unfolding(crate::specs::Options::options_words, crate::specs::Options::is_options, crate::specs::Options::options_of))]
fn options_words(o: Options) -> [u64; 11]
    ensures value { result ≡ options_words o }
    ensures result_value { (is_options result ≡ true) × (options_of result o.plan ≡ o) }
{
    [
        0x4d57434f4e543032,
        words::float_word(o.threshold),
        o.min_duration,
        words::float_word(o.weights.delta_hue),
        words::float_word(o.weights.delta_sat),
        words::float_word(o.weights.delta_lum),
        words::float_word(o.weights.delta_edges),
        mode_word(o.filter_mode),
        words::tag(o.kernel_size),
        words::kernel_word(o.kernel_size),
        words::flag_word(o.initial_cut),
    ]
}

#[tactic(auto, unfolding(crate::specs::Options::is_options))]
fn is_options(w: &[u64]) -> bool
    requires { length w.now ≡ 11 }
    ensures { result ≡ is_options w.now }
{
    (w[0] == 0x4d57434f4e543032)
        & (w[7] <= 1)
        & (w[8] <= 1)
        & ((w[8] == 0) | (w[9] < 4294967296))
        & (w[10] <= 1)
}

#[tactic(auto, unfolding(crate::specs::Options::options_of))]
fn options_of(w: &[u64], plan: Plan) -> Options
    requires { length w.now ≡ 11 }
    ensures { result ≡ options_of w.now plan }
{
    Options {
        threshold: words::float_of(w[1]),
        min_duration: w[2],
        weights: words::components_of(w[3], w[4], w[5], w[6]),
        filter_mode: mode_of(w[7]),
        kernel_size: words::kernel_of(w[8], w[9]),
        initial_cut: words::flag_of(w[10]),
        plan,
    }
}

// The filter.
#[tactic(auto, using(words::proofs::Made::reads), unfolding(crate::specs::Filter::filter_words, crate::specs::Filter::is_filter, crate::specs::Filter::filter_of))]
fn filter_words(f: Filter) -> [u64; 6]
    ensures value { result ≡ filter_words f }
    ensures result_value { (is_filter result ≡ true) × (filter_of result ≡ f) }
{
    [
        words::tag(f.last_above),
        words::stamp_word(f.last_above),
        words::flag_word(f.merge_enabled),
        words::flag_word(f.merge_triggered),
        words::tag(f.merge_start),
        words::stamp_word(f.merge_start),
    ]
}

#[tactic(auto, unfolding(crate::specs::Filter::is_filter))]
fn is_filter(w: &[u64]) -> bool
    requires { length w.now ≡ 6 }
    ensures { result ≡ is_filter w.now }
{
    (w[0] <= 1) & (w[2] <= 1) & (w[3] <= 1) & (w[4] <= 1)
}

#[tactic(auto, unfolding(crate::specs::Filter::filter_of))]
fn filter_of(w: &[u64]) -> Filter
    requires { length w.now ≡ 6 }
    ensures { result ≡ filter_of w.now }
{
    Filter {
        last_above: words::stamp_of(w[0], w[1]),
        merge_enabled: words::flag_of(w[2]),
        merge_triggered: words::flag_of(w[3]),
        merge_start: words::stamp_of(w[4], w[5]),
    }
}

// Eight bytes as a word, the first the lowest.
fn word_of(bytes: &[u8]) -> u64
    requires { length bytes.now ≡ 8 }
    ensures value { result ≡ from_le_bytes w64 bytes.now }
    ensures result_value { to_le_bytes w64 result ≡ bytes.now }
{
    let mut eight = [0; 8];
    eight.copy_from_slice(bytes);
    u64::from_le_bytes(eight)
}

// Sixteen bytes as two words.
fn array_words(bytes: [u8; 16]) -> [u64; 2]
    ensures value { result ≡ first_word bytes ∷ second_word bytes ∷ [] }
    ensures result_value { bytes_of (get_or result 0 0) (get_or result 1 0) ≡ bytes }
{
    [word_of(&bytes[..8]), word_of(&bytes[8..])]
}

// The sixteen bytes of two words.
fn array_of(first: u64, second: u64) -> [u8; 16]
    ensures { result ≡ bytes_of first second }
{
    let mut bytes = [0; 16];
    bytes[..8].copy_from_slice(&first.to_le_bytes());
    bytes[8..].copy_from_slice(&second.to_le_bytes());
    bytes
}

// The light plan. Bytes past its rows are written as 0, and are not looked at.
#[tactic(auto, unfolding(crate::specs::Plan::plan_words))]
fn plan_words(p: Plan) -> [u64; 7]
    ensures value { result ≡ plan_words p }
    ensures result_value { (is_plan result ≡ true) × (plan_of_words result ≡ tidied_plan p) }
{
    let t = p.tidied();
    let from = array_words(t.from);
    let to = array_words(t.to);
    let threshold = array_words(t.threshold);
    [
        t.count as u64,
        from[0],
        from[1],
        to[0],
        to[1],
        threshold[0],
        threshold[1],
    ]
}

#[tactic(auto, unfolding(crate::specs::Plan::is_plan))]
fn is_plan(w: &[u64]) -> bool
    requires { length w.now ≡ 7 }
    ensures { result ≡ is_plan w.now }
{
    w[0] < 4294967296
}

#[tactic(auto, unfolding(crate::specs::Plan::plan_of_words))]
fn plan_of_words(w: &[u64]) -> Plan
    requires { length w.now ≡ 7 }
    ensures { result ≡ plan_of_words w.now }
{
    let held = Plan {
        count: words::short_of(w[0]),
        from: array_of(w[1], w[2]),
        to: array_of(w[3], w[4]),
        threshold: array_of(w[5], w[6]),
    };
    held.tidied()
}

// What is read where the words are not a record: all weights are zero, so every call refuses it by 15.
// Kept: made of the fields of its own detector.
#[tactic(auto, using(score::proofs::Literals::literals), unfolding(crate::specs::Record::foreign))]
fn foreign() -> Detector
    ensures { result ≡ foreign }
{
    Detector {
        options: Options::new().with_weights(Components::new(0.0, 0.0, 0.0, 0.0)),
        stream: stream::fresh_stream(0, 0),
        filter: filter::new(),
    }
}

// Stands for the layout of the content detector's record.
pub struct ContentRecord;

impl Recorded<34> for ContentRecord {
    type State = Detector;

    ghost words_of = { content_words };

    ghost held_by = { content_of };

    ghost tidied = { tidied };

    #[tactic(auto, unfolding(crate::specs::Record::content_of, crate::specs::Record::is_content))]
    fn read(w: &[u64; 34]) -> Detector {
        let a = &w[0..11];
        let b = &w[11..21];
        let c = &w[21..27];
        let p = &w[27..34];
        if is_options(a) & words::is_stream(b) & is_filter(c) & is_plan(p) {
            Detector {
                options: options_of(a, plan_of_words(p)),
                stream: words::stream_of(b),
                filter: filter_of(c),
            }
        } else {
            foreign()
        }
    }

    fn write(d: Detector, out: &mut [u64; 34]) {
        out[0..11].copy_from_slice(&options_words(d.options));
        out[11..21].copy_from_slice(&words::stream_words(d.stream));
        out[21..27].copy_from_slice(&filter_words(d.filter));
        out[27..34].copy_from_slice(&plan_words(d.options.plan));
    }

    ghost accepted = { accepted };

    ghost held_tidied = { held_tidied };

    ghost step_tidied = { step_tidied };

    ghost clear_tidied = { clear_tidied };

    ghost stays = { stays };
}
