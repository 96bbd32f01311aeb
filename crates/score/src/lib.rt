// The score of a frame: four components and their weights (RULES 6), and refusals 6 to 9 of settings (RULES 10.1). Every function
// takes any floats, NaN and infinities among them.
// Kept, point 2: the Rust's names; a reader and a setter for each field.
// Kept, point 3: four fields by their names, as RULES 6 sums and tests them; an array of them would be made for it.
#![tactic(auto)]

ghost use Rattle.std.specs.Prelude.{◌≡◌};
ghost use Rattle.std.specs.Float.Ieee.{is_nan, le};
ghost use Rattle.refusal.specs.Refusal.{number_in};
ghost use Rattle.score.specs.Floats.{abs_of};
ghost use Rattle.score.specs.Scores.{components, default_weights, luma_only_weights, sum_abs, weighed, score_of, edges_enabled};
ghost use Rattle.score.specs.Settings.{too_heavy, any_too_heavy, all_zero, bad_kernel, settings_refusal};

use refusal::Refusal;

// The four components of a score: a frame's deltas, or their weights. The Rust's `set_` forms are left out: a value
// goes in and comes out.
#[derive(Clone, Copy, Debug, PartialEq)]
pub struct Components {
    pub delta_hue: f64,
    pub delta_sat: f64,
    pub delta_lum: f64,
    pub delta_edges: f64,
}

// Hue, saturation and luma weigh alike; edges are off.
pub const DEFAULT_WEIGHTS: Components = Components {
    delta_hue: 1.0,
    delta_sat: 1.0,
    delta_lum: 1.0,
    delta_edges: 0.0,
};

// Luma alone.
pub const LUMA_ONLY_WEIGHTS: Components = Components {
    delta_hue: 0.0,
    delta_sat: 0.0,
    delta_lum: 1.0,
    delta_edges: 0.0,
};

impl Components {
    pub fn new(delta_hue: f64, delta_sat: f64, delta_lum: f64, delta_edges: f64) -> Self
        ensures { result ≡ components delta_hue delta_sat delta_lum delta_edges }
    {
        Self {
            delta_hue,
            delta_sat,
            delta_lum,
            delta_edges,
        }
    }

    // A constant has no contract of its own: this function and `default` prove the two.
    #[tactic(auto, using(crate::proofs::Literals::literals))]
    pub fn luma_only() -> Self
        ensures { result ≡ luma_only_weights }
    {
        LUMA_ONLY_WEIGHTS
    }

    pub fn delta_hue(self) -> f64
        ensures { result ≡ self.delta_hue }
    {
        self.delta_hue
    }

    pub fn with_delta_hue(mut self, val: f64) -> Self
        ensures { result ≡ components val self.delta_sat self.delta_lum self.delta_edges }
    {
        self.delta_hue = val;
        self
    }

    pub fn delta_sat(self) -> f64
        ensures { result ≡ self.delta_sat }
    {
        self.delta_sat
    }

    pub fn with_delta_sat(mut self, val: f64) -> Self
        ensures { result ≡ components self.delta_hue val self.delta_lum self.delta_edges }
    {
        self.delta_sat = val;
        self
    }

    pub fn delta_lum(self) -> f64
        ensures { result ≡ self.delta_lum }
    {
        self.delta_lum
    }

    pub fn with_delta_lum(mut self, val: f64) -> Self
        ensures { result ≡ components self.delta_hue self.delta_sat val self.delta_edges }
    {
        self.delta_lum = val;
        self
    }

    pub fn delta_edges(self) -> f64
        ensures { result ≡ self.delta_edges }
    {
        self.delta_edges
    }

    pub fn with_delta_edges(mut self, val: f64) -> Self
        ensures { result ≡ components self.delta_hue self.delta_sat self.delta_lum val }
    {
        self.delta_edges = val;
        self
    }

    // The sum of the absolute weights, left to right.
    #[tactic(auto, unfolding(crate::specs::Scores::sum_abs))]
    pub fn sum_abs(self) -> f64
        ensures { result ≡ sum_abs self }
    {
        abs(self.delta_hue) + abs(self.delta_sat) + abs(self.delta_lum) + abs(self.delta_edges)
    }
}

impl Default for Components {
    ghost is_default = { λ x. x ≡ default_weights };

    #[tactic(auto, using(crate::proofs::Literals::literals))]
    fn default() -> Self
        ensures { result ≡ default_weights }
    {
        DEFAULT_WEIGHTS
    }
}

// |x|.
// Kept: its contract is the definition `abs_of`; each use of the library's `abs` in its place would want the lemma that the two are one.
#[tactic(auto, using(crate::proofs::Sizes::sign_off))]
pub fn abs(x: f64) -> f64
    ensures { result ≡ abs_of x }
{
    x.abs()
}

// The deltas, each times its weight, summed left to right, over the sum of the absolute weights.
#[tactic(auto, unfolding(crate::specs::Scores::score_of, crate::specs::Scores::weighed))]
pub fn score(deltas: Components, weights: Components) -> f64
    ensures { result ≡ score_of deltas weights }
{
    let sum = deltas.delta_hue * weights.delta_hue
        + deltas.delta_sat * weights.delta_sat
        + deltas.delta_lum * weights.delta_lum
        + deltas.delta_edges * weights.delta_edges;
    sum / weights.sum_abs()
}

// Whether the edge weight is not 0; -0.0 is 0.
#[tactic(auto, using(crate::proofs::Literals::literals), unfolding(crate::specs::Scores::edges_enabled))]
pub fn edges_enabled(weights: Components) -> bool
    ensures { result ≡ edges_enabled weights }
{
    weights.delta_edges != 0.0
}

// Whether a score is at or over a threshold; no where one is NaN.
// Kept: the comparison of RULES 6.7, by its name.
pub fn above(score: f64, threshold: f64) -> bool
    ensures { result ≡ le threshold score }
{
    score >= threshold
}

// Kept: public by the name of its definition; the library's is its body.
pub fn is_nan(x: f64) -> bool
    ensures { result ≡ is_nan x }
{
    x.is_nan()
}

// Whether a weight is not finite, or beyond 2^20 in size.
#[tactic(auto, using(crate::proofs::Literals::literals), unfolding(crate::specs::Settings::too_heavy))]
fn too_heavy(w: f64) -> bool
    ensures { result ≡ too_heavy w }
{
    !(abs(w) <= 1048576.0)
}

#[tactic(auto, unfolding(crate::specs::Settings::any_too_heavy))]
fn any_too_heavy(w: Components) -> bool
    ensures { result ≡ any_too_heavy w }
{
    too_heavy(w.delta_hue)
        || too_heavy(w.delta_sat)
        || too_heavy(w.delta_lum)
        || too_heavy(w.delta_edges)
}

#[tactic(auto, using(crate::proofs::Literals::literals), unfolding(crate::specs::Settings::all_zero))]
fn all_zero(w: Components) -> bool
    ensures { result ≡ all_zero w }
{
    w.delta_hue == 0.0 && w.delta_sat == 0.0 && w.delta_lum == 0.0 && w.delta_edges == 0.0
}

// Whether a set k is below 3 or even.
fn bad_kernel(kernel_size: Option<u32>) -> bool
    ensures { result ≡ bad_kernel kernel_size }
{
    kernel_size.is_some_and(|k| k < 3 || k % 2 == 0)
}

// Refusals 6 to 9 of settings, the first whose condition holds. `nan` says that a threshold or `min_content_val` is NaN.
#[tactic(auto, unfolding(crate::specs::Settings::settings_refusal))]
pub fn check_settings(
    weights: Components,
    kernel_size: Option<u32>,
    nan: bool,
) -> Result<(), Refusal>
    ensures { number_in result ≡ settings_refusal weights kernel_size nan }
{
    if any_too_heavy(weights) {
        Err(Refusal::WeightTooHeavy)
    } else if all_zero(weights) {
        Err(Refusal::NoWeight)
    } else if bad_kernel(kernel_size) {
        Err(Refusal::BadKernel)
    } else if nan {
        Err(Refusal::NotANumber)
    } else {
        Ok(())
    }
}
