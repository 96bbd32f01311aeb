// The light plan (RULES 18): rows of luma medians, each with a threshold. Values go in and come out.
#![tactic(auto)]

ghost use Rattle.std.specs.Prelude.{◌≡◌, ◌<◌, ◌≤◌, ℕ, ◌+◌, cond, leb, ltb, eqb, [], ◌∷◌, length, get_or};
ghost use Rattle.std.specs.Bool.{then_some};
ghost use Rattle.refusal.specs.Refusal.{number_in, first_that};
ghost use Rattle.light_plan.specs.Rows.{has, any_reversed, rows_with, any_median, threshold_at};
ghost use Rattle.light_plan.specs.Plan.{row_at, rows_of, is_given, plan_refusal, kept, tidied, plan_of, no_plan};

use refusal::Refusal;

// The most rows of a plan.
pub const MOST_ROWS: usize = 16;

// A frame whose luma median is from `from` to `to` is measured by `threshold`.
#[derive(Clone, Copy, Debug, PartialEq, Eq)]
pub struct Row {
    pub from: u8,
    pub to: u8,
    pub threshold: u8,
}

// The rows are the first `count` places of the three arrays; what stands past them is not looked at. No rows are no plan.
// `==` compares all places, those past the count too.
#[derive(Clone, Copy, Debug, PartialEq, Eq)]
pub struct Plan {
    pub count: u32,
    pub from: [u8; MOST_ROWS],
    pub to: [u8; MOST_ROWS],
    pub threshold: [u8; MOST_ROWS],
}

// The bytes with 0 in the places past the first `count`.
fn kept(count: u32, mut bytes: [u8; MOST_ROWS]) -> [u8; MOST_ROWS]
    ensures { result ≡ kept count bytes }
{
    let rows = (count as usize).min(MOST_ROWS);
    bytes[rows..].fill(0);
    bytes
}

// Counts a row at each median that it has. A reversed row has none.
#[tactic(auto, unfolding(crate::specs::Rows::has))]
fn count_row(counts: &mut [u8; 256], row: Row)
    requires { (m : ℕ) → m < 256 → get_or counts.old m 0 < 255 }
    ensures { (m : ℕ) → m < 256 → get_or counts.new m 0 ≡ get_or counts.old m 0 + cond (has m row) 1 0 }
{
    if row.from <= row.to {
        for n in counts[usize::from(row.from)..=usize::from(row.to)].iter_mut() {
            *n += 1;
        }
    }
}

impl Row {
    // Whether the row has this median.
    #[tactic(auto, unfolding(crate::specs::Rows::has))]
    pub fn has(self, median: u8) -> bool
        ensures { result ≡ has median self }
    {
        self.from <= median && median <= self.to
    }
}

impl Plan {
    // No plan.
    pub fn none() -> Self
        ensures { result ≡ no_plan }
    {
        Plan {
            count: 0,
            from: [0; MOST_ROWS],
            to: [0; MOST_ROWS],
            threshold: [0; MOST_ROWS],
        }
    }

    // Whether a plan is given.
    pub fn is_given(self) -> bool
        ensures { result ≡ is_given self }
    {
        self.count != 0
    }

    // These rows; none where there are more than 16.
    pub fn of(rows: &[Row]) -> Option<Self>
        ensures { result ≡ then_some (leb (length rows.now) 16) (plan_of rows.now) }
    {
        if rows.len() > MOST_ROWS {
            return None;
        }
        let mut plan = Plan::none();
        for (i, row) in rows.iter().enumerate() {
            plan.from[i] = row.from;
            plan.to[i] = row.to;
            plan.threshold[i] = row.threshold;
        }
        plan.count = rows.len() as u32;
        Some(plan)
    }

    // How many rows the plan holds.
    #[tactic(auto, using(crate::proofs::Held::rows_length))]
    pub fn rows(self) -> usize
        ensures count { result ≡ length (rows_of self) }
        ensures most { result ≤ 16 }
    {
        (self.count as usize).min(MOST_ROWS)
    }

    // The row at a place.
    pub fn row(self, i: usize) -> Row
        requires { i < 16 }
        ensures { result ≡ row_at self i }
    {
        Row {
            from: self.from[i],
            to: self.to[i],
            threshold: self.threshold[i],
        }
    }

    // The plan with 0 in the places past its count.
    pub fn tidied(self) -> Self
        ensures { result ≡ tidied self }
    {
        Plan {
            count: self.count,
            from: kept(self.count, self.from),
            to: kept(self.count, self.to),
            threshold: kept(self.count, self.threshold),
        }
    }

    // Refusals 20 to 22.
    #[tactic(auto, unfolding(crate::specs::Rows::rows_refusal))]
    pub fn check(self) -> Result<(), Refusal>
        ensures { number_in result ≡ plan_refusal self }
    {
        if self.count == 0 {
            return Ok(());
        }
        if self.count as usize > MOST_ROWS || self.any_reversed() {
            return Err(Refusal::NotAPlan);
        }
        self.check_medians()
    }

    // Whether the first median of a row exceeds its last.
    #[tactic(auto, using(crate::proofs::Held::reversed_from), unfolding(crate::specs::Rows::any_reversed))]
    fn any_reversed(self) -> bool
        ensures { result ≡ any_reversed (rows_of self) }
    {
        for i in 0..self.rows() {
            let row = self.row(i);
            if row.to < row.from {
                return true;
            }
        }
        false
    }

    // How many of the rows have each median.
    fn counts(self) -> [u8; 256]
        ensures { (m : ℕ) → m < 256 → get_or result m 0 ≡ rows_with (rows_of self) m }
    {
        let mut counts = [0; 256];
        for i in 0..self.rows() {
            count_row(&mut counts, self.row(i));
        }
        counts
    }

    // Whether a median has two rows or more, and whether one has none. `|` and not `||`: no branch.
    #[tactic(auto, unfolding(crate::specs::Rows::any_below))]
    fn twice_and_missing(self) -> (bool, bool)
        ensures twice { result.0 ≡ any_median (λ m. ltb 1 (rows_with (rows_of self) m)) }
        ensures missing { result.1 ≡ any_median (λ m. eqb (rows_with (rows_of self) m) 0) }
    {
        let counts = self.counts();
        let (mut twice, mut missing) = (false, false);
        for n in &counts {
            twice |= *n > 1;
            missing |= *n == 0;
        }
        (twice, missing)
    }

    // Refusals 21 and 22.
    fn check_medians(self) -> Result<(), Refusal>
        ensures { let with = rows_with (rows_of self) in number_in result
            ≡ first_that ((any_median (λ m. ltb 1 (with m)), 21) ∷ (any_median (λ m. eqb (with m) 0), 22) ∷ []) }
    {
        let (twice, missing) = self.twice_and_missing();
        if twice {
            return Err(Refusal::MedianTwice);
        }
        if missing {
            return Err(Refusal::MedianMissing);
        }
        Ok(())
    }

    // The threshold of a median.
    #[tactic(auto, using(crate::proofs::Held::threshold_from), unfolding(crate::specs::Rows::threshold_at))]
    pub fn threshold_at(self, median: u8) -> u8
        ensures { result ≡ threshold_at (rows_of self) median }
    {
        for i in 0..self.rows() {
            let row = self.row(i);
            if row.has(median) {
                return row.threshold;
            }
        }
        0
    }
}
