// The content detector's calls, as the crates `station_answer` and `content_station` have them.
// Kept, point 2: each C name is a function of its own.
// Kept, point 5: the C interface passes these one by one.
ghost use Rattle.std.specs.Prelude.{◌≡◌};
ghost use Rattle.score.specs.Scores.{components as components·of};
ghost use Rattle.words.specs.Choices.{score_tag, components_tag};
ghost use Rattle.stream.specs.Stream.{components_shown};
ghost use Rattle.light_plan.specs.Plan.{no_plan};
ghost use Rattle.content.specs.Options.{options, defaults};
ghost use Rattle.content.specs.State.{settled};
ghost use Rattle.frame_call.specs.Call.{luma, bgr, hsv, clear, memory};
ghost use Rattle.content_words.specs.Record.{content_of};
ghost use Rattle.station_answer.specs.Answer.{stamp, score_shown, component_at};
ghost use Rattle.station_answer.specs.Settings.{mode_set, kernel_set, flag_set};
ghost use Rattle.station_answer.specs.Promises.{FrameContract, ClearContract, SettingsContract};
ghost use Rattle.station_answer.specs.Calls.{started_by};
ghost use Rattle.content_station.specs.Station.{content_layout, content_call, settled_by};

use content_words::ContentRecord;
use station_answer::calls;

// A luma frame.
#[unsafe(no_mangle)]
pub extern "C" fn mw_content_luma(
    state: &mut [u64; 34],
    answer: &mut [u64; 13],
    plane: &[u8],
    width: u32,
    height: u32,
    stride: u32,
    ts: i64,
    store: &mut [u8],
    scratch: &mut [u8],
    magnitudes: &mut [i32],
) -> u32
    ensures { FrameContract content_layout (content_call (content_of state.old) (luma plane.now width height stride (stamp ts) (memory store.old scratch.old magnitudes.old))) result state.old state.new answer.old answer.new (memory store.old scratch.old magnitudes.old) (memory store.new scratch.new magnitudes.new) }
{
    calls::process_luma::<ContentRecord, 34>(
        state, answer, plane, width, height, stride, ts, store, scratch, magnitudes,
    )
}

// A BGR frame.
#[unsafe(no_mangle)]
pub extern "C" fn mw_content_bgr(
    state: &mut [u64; 34],
    answer: &mut [u64; 13],
    pixels: &[u8],
    width: u32,
    height: u32,
    stride: u32,
    ts: i64,
    store: &mut [u8],
    scratch: &mut [u8],
    magnitudes: &mut [i32],
) -> u32
    ensures { FrameContract content_layout (content_call (content_of state.old) (bgr pixels.now width height stride (stamp ts) (memory store.old scratch.old magnitudes.old))) result state.old state.new answer.old answer.new (memory store.old scratch.old magnitudes.old) (memory store.new scratch.new magnitudes.new) }
{
    calls::process_bgr::<ContentRecord, 34>(
        state, answer, pixels, width, height, stride, ts, store, scratch, magnitudes,
    )
}

// An HSV frame.
#[unsafe(no_mangle)]
pub extern "C" fn mw_content_hsv(
    state: &mut [u64; 34],
    answer: &mut [u64; 13],
    hue: &[u8],
    saturation: &[u8],
    value: &[u8],
    width: u32,
    height: u32,
    stride: u32,
    ts: i64,
    store: &mut [u8],
    scratch: &mut [u8],
    magnitudes: &mut [i32],
) -> u32
    ensures { FrameContract content_layout (content_call (content_of state.old) (hsv hue.now saturation.now value.now width height stride (stamp ts) (memory store.old scratch.old magnitudes.old))) result state.old state.new answer.old answer.new (memory store.old scratch.old magnitudes.old) (memory store.new scratch.new magnitudes.new) }
{
    calls::process_hsv::<ContentRecord, 34>(
        state, answer, hue, saturation, value, width, height, stride, ts, store, scratch,
        magnitudes,
    )
}

// Forgets the stream: settings and size stay, all else is as at the start.
#[unsafe(no_mangle)]
pub extern "C" fn mw_content_clear(state: &mut [u64; 34]) -> u32
    ensures { ClearContract content_layout (content_call (content_of state.old) clear) result state.old state.new }
{
    calls::clear::<ContentRecord, 34>(state)
}

// A fresh state with the default settings.
#[unsafe(no_mangle)]
pub extern "C" fn mw_content_default(state: &mut [u64; 34]) -> u32
    ensures { SettingsContract content_layout (started_by (settled defaults)) result state.new }
{
    content_station::new_default(state)
}

// A fresh state with these settings, or with the defaults where they are refused. filter_mode is 0 for Merge and 1 for Suppress; any other
// number is refused by 15, after the other refusals. A flag is off for 0, and on for any other number.
#[unsafe(no_mangle)]
pub extern "C" fn mw_content_new(
    state: &mut [u64; 34],
    threshold: f64,
    min_duration: u64,
    hue: f64,
    saturation: f64,
    luma: f64,
    edges: f64,
    filter_mode: u32,
    has_kernel: u32,
    kernel_size: u32,
    initial_cut: u32,
) -> u32
    ensures { SettingsContract content_layout (started_by (settled_by filter_mode (options threshold min_duration (components·of hue saturation luma edges) (mode_set filter_mode) (kernel_set has_kernel kernel_size) (flag_set initial_cut) no_plan))) result state.new }
{
    content_station::try_new(
        state,
        threshold,
        min_duration,
        hue,
        saturation,
        luma,
        edges,
        filter_mode,
        has_kernel,
        kernel_size,
        initial_cut,
    )
}

// The readers refuse nothing and show the record as it is. Whether there is a last score: 1 or 0.
#[unsafe(no_mangle)]
pub extern "C" fn mw_content_has_score(state: &[u64; 34]) -> u32
    ensures { result ≡ score_tag (content_of state.now).stream.last_score }
{
    calls::has_score::<ContentRecord, 34>(state)
}

// The last score, or 0.0.
#[unsafe(no_mangle)]
pub extern "C" fn mw_content_score(state: &[u64; 34]) -> f64
    ensures { result ≡ score_shown (content_of state.now).stream.last_score }
{
    calls::last_score::<ContentRecord, 34>(state)
}

// Whether there are last components: 1 or 0.
#[unsafe(no_mangle)]
pub extern "C" fn mw_content_has_components(state: &[u64; 34]) -> u32
    ensures { result ≡ components_tag (content_of state.now).stream.last_components }
{
    calls::has_components::<ContentRecord, 34>(state)
}

// One of the last components, or 0.0: 0 is hue, 1 saturation, 2 luma, 3 edges.
#[unsafe(no_mangle)]
pub extern "C" fn mw_content_component(state: &[u64; 34], place: u32) -> f64
    ensures { result ≡ component_at (components_shown (content_of state.now).stream.last_components) place }
{
    calls::last_component::<ContentRecord, 34>(state, place)
}
