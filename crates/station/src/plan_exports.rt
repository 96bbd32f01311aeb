// The calls of the light plan, as the crates `content_station` and `luma_median` have them.
// Kept, point 2: each C name is a function of its own.
// Kept, point 5: the C interface passes these one by one.
ghost use Rattle.std.specs.Prelude.{◌≡◌, [], ◌∷◌, length, take, Some};
ghost use Rattle.score.specs.Scores.{components as components·of};
ghost use Rattle.decimal.specs.Placed.{placed};
ghost use Rattle.light_plan.specs.Plan.{rows_of, no_plan};
ghost use Rattle.plan_text.specs.Text.{rows_read, rows_text};
ghost use Rattle.content.specs.Options.{options};
ghost use Rattle.content_words.specs.Record.{content_of};
ghost use Rattle.frame.specs.Checks.{luma_refusal};
ghost use Rattle.arch_planes.specs.Packed.{packed};
ghost use Rattle.canny_marks.specs.Median.{median_of};
ghost use Rattle.station_answer.specs.Answer.{after};
ghost use Rattle.station_answer.specs.Settings.{mode_set, kernel_set, flag_set};
ghost use Rattle.station_answer.specs.Promises.{SettingsContract};
ghost use Rattle.station_answer.specs.Calls.{started_by};
ghost use Rattle.content_station.specs.Station.{content_layout, planned_by};

// A fresh state with these settings and the light plan of this text, or with the defaults, which have none, where they are refused: first by
// those of `mw_content_new`, then by 20 to 22 for the text. An empty text is no plan.
#[unsafe(no_mangle)]
pub extern "C" fn mw_content_new_with_plan(
    state: &mut [u64; 34],
    threshold: f64,
    min_duration: u64,
    hue: f64,
    saturation: f64,
    luma: f64,
    edges: f64,
    filter_mode: u32,
    has_kernel: u32,
    kernel_size: u32,
    initial_cut: u32,
    plan: &[u8],
) -> u32
    ensures { SettingsContract content_layout (started_by (planned_by filter_mode (options threshold min_duration (components·of hue saturation luma edges) (mode_set filter_mode) (kernel_set has_kernel kernel_size) (flag_set initial_cut) no_plan) plan.now)) result state.new }
{
    content_station::try_new_planned(
        state,
        threshold,
        min_duration,
        hue,
        saturation,
        luma,
        edges,
        filter_mode,
        has_kernel,
        kernel_size,
        initial_cut,
        plan,
    )
}

// The text of the state's light plan is written to the start of `text`; the bytes after it stay. How many bytes it has: 0 where there is no plan.
#[unsafe(no_mangle)]
pub extern "C" fn mw_content_plan(state: &[u64; 34], text: &mut [u8; 192]) -> u32
    ensures value { result ≡ length (rows_text (rows_of (content_of state.now).options.plan)) }
    ensures after { text.new ≡ placed text.old 0 (rows_text (rows_of (content_of state.now).options.plan)) }
    ensures back { rows_read (take result text.new) ≡ Some (rows_of (content_of state.now).options.plan) }
{
    content_station::plan_text(state, text)
}

// The luma median of a frame, by which a plan's row is picked; refused by 1 to 3, `median` stays as it was.
#[unsafe(no_mangle)]
pub extern "C" fn mw_luma_median(
    plane: &[u8],
    width: u32,
    height: u32,
    stride: u32,
    median: &mut [u8; 1],
) -> u32
    ensures number { result ≡ luma_refusal (length plane.now) width height stride }
    ensures written { median.new ≡ after result (median_of (packed plane.now width height stride) ∷ []) median.old }
{
    match luma_median::luma_median(plane, width, height, stride) {
        Ok(m) => {
            median[0] = m;
            0
        }
        Err(refusal) => refusal.number(),
    }
}
