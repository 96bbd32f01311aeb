// Lists of adaptive calls, described by bytes as compare/README.md states, run from the fresh state on memory of their own. What
// each call brings is written out as bytes. These functions only make inputs and write outputs down: their contracts say where
// they write, and the calls' own contracts say what a call brings.
#![tactic(auto)]

mod state;

ghost use Rattle.std.specs.Prelude.{◌%◌};
ghost use Rattle.adaptive.specs.State.{settled};
ghost use Rattle.compare_lists.specs.Wrote.{Wrote, Written};
ghost use Rattle.compare_adaptive_lists.specs.State.{settings_of, is_clear, spoiled_by};

use adaptive::Detector;
use compare_lists::calls::{self, Lists};
use compare_lists::output::{Output, Put};
use refusal::Refused;

// What lists of adaptive calls have of their own.
#[derive(Clone, Copy)]
pub struct AdaptiveLists {}

impl Lists<Detector> for AdaptiveLists {
    ghost settled = { λ lists s. settled (settings_of s) };

    ghost clears = { λ lists kind b. is_clear kind b };

    ghost spoiled = { λ lists d b. spoiled_by d (b % 6) };

    // Kept: the trait's method; the functions of `state` are what differs.
    fn settled(self, script: &[u8]) -> Result<Detector, Refused<Detector>> {
        adaptive::try_new(state::settings(script))
    }

    fn is_clear(self, kind: u32, b: u32) -> bool {
        state::is_clear(kind, b)
    }

    // Kept: the trait's method; the functions of `state` are what differs.
    fn spoiled(self, d: Detector, b: u32) -> Detector {
        state::spoiled(d, b % 6)
    }

    // What the readers show of the window, and its count, sum and last cut.
    fn put_state(self, out: &mut Output<'_>, d: Detector) {
        adaptive::last_adaptive_ratio(d).put(out);
        adaptive::last_target_score(d).put(out);
        (d.window.count as u64).put(out);
        d.window.buffer_sum.put(out);
        d.window.last_cut_ts.put(out);
    }
}

// Runs a list, of at most 65,536 records. Returns how many bytes of out it wrote: what does not fit is left out, and the others stay.
// Kept: so compare_exports names no `Lists`. No heap: lent memory, and how much of it is written.
pub fn run(script: &[u8], out: &mut [u8]) -> usize
    ensures { Wrote out.old out.new 0 result }
{
    calls::run(AdaptiveLists {}, script, out)
}
