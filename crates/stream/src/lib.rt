// What both detectors keep of the stream of frames (RULES 6.5, 8.3), the sums of a frame's differences (RULES 4.4), and refusals 12 to 14
// (RULES 12.1). Values go in and come out.
#![tactic(auto)]

ghost use Rattle.std.specs.Prelude.{◌≡◌, ◌≤◌};
ghost use Rattle.refusal.specs.Refusal.{number_in};
ghost use Rattle.stream.specs.Stream.{no_sums, components_of, fresh_stream, is_scored, next_stream, components_shown, memory_refusal};

use refusal::Refusal;
use score::Components;

// The whole sums of the differences of a frame's planes with those of the frame before, and the number of pixels: what its components and its score
// come from.
#[derive(Clone, Copy, Debug, PartialEq, Eq)]
pub struct Sums {
    pub hue: u32,
    pub saturation: u32,
    pub luma: u32,
    pub edges: u32,
    pub count: u32,
}

// All five are 0.
// Kept: by the name of the definition that its contract cites.
pub fn no_sums() -> Sums
    ensures { result ≡ no_sums }
{
    Sums {
        hue: 0,
        saturation: 0,
        luma: 0,
        edges: 0,
        count: 0,
    }
}

// The components: each sum over the count.
#[tactic(auto, unfolding(crate::specs::Stream::components_of))]
pub fn components(s: Sums) -> Components
    ensures { result ≡ components_of s }
{
    Components {
        delta_hue: arch_planes::mean_of(s.hue, s.count),
        delta_sat: arch_planes::mean_of(s.saturation, s.count),
        delta_lum: arch_planes::mean_of(s.luma, s.count),
        delta_edges: arch_planes::mean_of(s.edges, s.count),
    }
}

// What both detectors keep of the stream.
// Kept: the C interface writes a state as words with these fields, the score and the components each with a tag of its own; and the size stays
// after `clear`, where there is no frame before.
#[derive(Clone, Copy, Debug, PartialEq)]
pub struct Stream {
    pub has_previous: bool,
    pub last_score: Option<f64>,
    pub last_components: Option<Components>,
    pub width: u32,
    pub height: u32,
}

// Before the first frame of a stretch.
pub fn fresh_stream(width: u32, height: u32) -> Stream
    ensures { result ≡ fresh_stream width height }
{
    Stream {
        has_previous: false,
        last_score: None,
        last_components: None,
        width,
        height,
    }
}

// Whether a frame of this size is scored.
#[tactic(auto, unfolding(crate::specs::Stream::is_scored))]
pub fn is_scored(s: Stream, width: u32, height: u32) -> bool
    ensures { result ≡ is_scored s width height }
{
    s.width == width && s.height == height && s.has_previous
}

// After an accepted frame with these sums of differences.
#[tactic(auto, unfolding(crate::specs::Stream::next_stream))]
pub fn next_stream(s: Stream, width: u32, height: u32, weights: Components, sums: Sums) -> Stream
    ensures { result ≡ next_stream s width height weights sums }
{
    let seen = Stream {
        has_previous: true,
        ..fresh_stream(width, height)
    };
    if is_scored(s, width, height) {
        let deltas = components(sums);
        Stream {
            last_score: Some(score::score(deltas, weights)),
            last_components: Some(deltas),
            ..seen
        }
    } else {
        seen
    }
}

// The components that an answer shows: four times 0.0 where there are none.
#[tactic(auto, using(score::proofs::Literals::literals))]
pub fn components_shown(c: Option<Components>) -> Components
    ensures { result ≡ components_shown c }
{
    c.unwrap_or(Components::new(0.0, 0.0, 0.0, 0.0))
}

// Refusals 12 to 14, by the lengths of the lent memories, for a frame whose sides are at most 4,096.
// Kept: plain parameters, as the frame calls have (RULES 16.1); that the sides are at most 4,096 is what the check of the frame ensured before.
#[tactic(auto, unfolding(crate::specs::Stream::memory_refusal))]
pub fn check_memory(
    store: usize,
    scratch: usize,
    magnitudes: usize,
    width: u32,
    height: u32,
) -> Result<(), Refusal>
    requires { (width ≤ 4096) × (height ≤ 4096) }
    ensures { number_in result ≡ memory_refusal store scratch magnitudes width height }
{
    let w = width as usize;
    let h = height as usize;
    let n = w * h;
    if store < 4 * n {
        Err(Refusal::StoreTooShort)
    } else if scratch < 7 * n + 2 * w.max(h) {
        Err(Refusal::ScratchTooShort)
    } else if magnitudes < n {
        Err(Refusal::MagnitudesTooShort)
    } else {
        Ok(())
    }
}
