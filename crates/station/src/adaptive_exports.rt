// The adaptive detector's calls, as the crates `station_answer` and `adaptive_station` have them.
// Kept, point 2: each C name is a function of its own.
// Kept, point 5: the C interface passes these one by one.
ghost use Rattle.std.specs.Prelude.{◌≡◌};
ghost use Rattle.score.specs.Scores.{components as components·of};
ghost use Rattle.words.specs.Choices.{score_tag, components_tag};
ghost use Rattle.stream.specs.Stream.{components_shown};
ghost use Rattle.adaptive.specs.Options.{options, defaults};
ghost use Rattle.adaptive.specs.State.{settled};
ghost use Rattle.frame_call.specs.Call.{luma, bgr, hsv, clear, memory};
ghost use Rattle.adaptive_words.specs.Record.{adaptive_of};
ghost use Rattle.station_answer.specs.Answer.{stamp, score_shown, component_at};
ghost use Rattle.station_answer.specs.Settings.{kernel_set, flag_set};
ghost use Rattle.station_answer.specs.Promises.{FrameContract, ClearContract, SettingsContract};
ghost use Rattle.station_answer.specs.Calls.{started_by};
ghost use Rattle.adaptive_station.specs.Station.{adaptive_layout, adaptive_call};

use adaptive_words::AdaptiveRecord;
use station_answer::calls;

// A luma frame.
#[unsafe(no_mangle)]
pub extern "C" fn mw_adaptive_luma(
    state: &mut [u64; 288],
    answer: &mut [u64; 13],
    plane: &[u8],
    width: u32,
    height: u32,
    stride: u32,
    ts: i64,
    store: &mut [u8],
    scratch: &mut [u8],
    magnitudes: &mut [i32],
) -> u32
    ensures { FrameContract adaptive_layout (adaptive_call (adaptive_of state.old) (luma plane.now width height stride (stamp ts) (memory store.old scratch.old magnitudes.old))) result state.old state.new answer.old answer.new (memory store.old scratch.old magnitudes.old) (memory store.new scratch.new magnitudes.new) }
{
    calls::process_luma::<AdaptiveRecord, 288>(
        state, answer, plane, width, height, stride, ts, store, scratch, magnitudes,
    )
}

// A BGR frame.
#[unsafe(no_mangle)]
pub extern "C" fn mw_adaptive_bgr(
    state: &mut [u64; 288],
    answer: &mut [u64; 13],
    pixels: &[u8],
    width: u32,
    height: u32,
    stride: u32,
    ts: i64,
    store: &mut [u8],
    scratch: &mut [u8],
    magnitudes: &mut [i32],
) -> u32
    ensures { FrameContract adaptive_layout (adaptive_call (adaptive_of state.old) (bgr pixels.now width height stride (stamp ts) (memory store.old scratch.old magnitudes.old))) result state.old state.new answer.old answer.new (memory store.old scratch.old magnitudes.old) (memory store.new scratch.new magnitudes.new) }
{
    calls::process_bgr::<AdaptiveRecord, 288>(
        state, answer, pixels, width, height, stride, ts, store, scratch, magnitudes,
    )
}

// An HSV frame.
#[unsafe(no_mangle)]
pub extern "C" fn mw_adaptive_hsv(
    state: &mut [u64; 288],
    answer: &mut [u64; 13],
    hue: &[u8],
    saturation: &[u8],
    value: &[u8],
    width: u32,
    height: u32,
    stride: u32,
    ts: i64,
    store: &mut [u8],
    scratch: &mut [u8],
    magnitudes: &mut [i32],
) -> u32
    ensures { FrameContract adaptive_layout (adaptive_call (adaptive_of state.old) (hsv hue.now saturation.now value.now width height stride (stamp ts) (memory store.old scratch.old magnitudes.old))) result state.old state.new answer.old answer.new (memory store.old scratch.old magnitudes.old) (memory store.new scratch.new magnitudes.new) }
{
    calls::process_hsv::<AdaptiveRecord, 288>(
        state, answer, hue, saturation, value, width, height, stride, ts, store, scratch,
        magnitudes,
    )
}

// Forgets the stream: settings and size stay, all else is as at the start.
#[unsafe(no_mangle)]
pub extern "C" fn mw_adaptive_clear(state: &mut [u64; 288]) -> u32
    ensures { ClearContract adaptive_layout (adaptive_call (adaptive_of state.old) clear) result state.old state.new }
{
    calls::clear::<AdaptiveRecord, 288>(state)
}

// A fresh state with the default settings.
#[unsafe(no_mangle)]
pub extern "C" fn mw_adaptive_default(state: &mut [u64; 288]) -> u32
    ensures { SettingsContract adaptive_layout (started_by (settled defaults)) result state.new }
{
    adaptive_station::new_default(state)
}

// A fresh state with these settings, or with the defaults where they are refused. A flag is off for 0, and on for any other number.
#[unsafe(no_mangle)]
pub extern "C" fn mw_adaptive_new(
    state: &mut [u64; 288],
    threshold: f64,
    min_duration: u64,
    window_width: u32,
    min_content_val: f64,
    hue: f64,
    saturation: f64,
    luma: f64,
    edges: f64,
    has_kernel: u32,
    kernel_size: u32,
    initial_cut: u32,
) -> u32
    ensures { SettingsContract adaptive_layout (started_by (settled (options threshold min_duration window_width min_content_val (components·of hue saturation luma edges) (kernel_set has_kernel kernel_size) (flag_set initial_cut)))) result state.new }
{
    adaptive_station::try_new(
        state,
        threshold,
        min_duration,
        window_width,
        min_content_val,
        hue,
        saturation,
        luma,
        edges,
        has_kernel,
        kernel_size,
        initial_cut,
    )
}

// The readers refuse nothing and show the record as it is. Whether there is a last score: 1 or 0.
#[unsafe(no_mangle)]
pub extern "C" fn mw_adaptive_has_score(state: &[u64; 288]) -> u32
    ensures { result ≡ score_tag (adaptive_of state.now).stream.last_score }
{
    calls::has_score::<AdaptiveRecord, 288>(state)
}

// The last score, or 0.0.
#[unsafe(no_mangle)]
pub extern "C" fn mw_adaptive_score(state: &[u64; 288]) -> f64
    ensures { result ≡ score_shown (adaptive_of state.now).stream.last_score }
{
    calls::last_score::<AdaptiveRecord, 288>(state)
}

// Whether there is a last ratio: 1 or 0.
#[unsafe(no_mangle)]
pub extern "C" fn mw_adaptive_has_ratio(state: &[u64; 288]) -> u32
    ensures { result ≡ score_tag (adaptive_of state.now).window.last_adaptive_ratio }
{
    adaptive_station::has_ratio(state)
}

// The last ratio, or 0.0.
#[unsafe(no_mangle)]
pub extern "C" fn mw_adaptive_ratio(state: &[u64; 288]) -> f64
    ensures { result ≡ score_shown (adaptive_of state.now).window.last_adaptive_ratio }
{
    adaptive_station::last_ratio(state)
}

// Whether there is a last target score: 1 or 0.
#[unsafe(no_mangle)]
pub extern "C" fn mw_adaptive_has_target(state: &[u64; 288]) -> u32
    ensures { result ≡ score_tag (adaptive_of state.now).window.last_target_score }
{
    adaptive_station::has_target(state)
}

// The last target score, or 0.0.
#[unsafe(no_mangle)]
pub extern "C" fn mw_adaptive_target(state: &[u64; 288]) -> f64
    ensures { result ≡ score_shown (adaptive_of state.now).window.last_target_score }
{
    adaptive_station::last_target(state)
}

// Whether there are last components: 1 or 0.
#[unsafe(no_mangle)]
pub extern "C" fn mw_adaptive_has_components(state: &[u64; 288]) -> u32
    ensures { result ≡ components_tag (adaptive_of state.now).stream.last_components }
{
    calls::has_components::<AdaptiveRecord, 288>(state)
}

// One of the last components, or 0.0: 0 is hue, 1 saturation, 2 luma, 3 edges.
#[unsafe(no_mangle)]
pub extern "C" fn mw_adaptive_component(state: &[u64; 288], place: u32) -> f64
    ensures { result ≡ component_at (components_shown (adaptive_of state.now).stream.last_components) place }
{
    calls::last_component::<AdaptiveRecord, 288>(state, place)
}
