// Lists of content calls, described by bytes as compare/README.md states, run from the fresh state on memory of their own. What
// each call brings is written out as bytes. These functions only make inputs and write outputs down: their contracts say where
// they write, and the calls' own contracts say what a call brings.
#![tactic(auto)]

mod plans;
mod state;

ghost use Rattle.std.specs.Prelude.{eqb, ◌%◌};
ghost use Rattle.content.specs.State.{settled};
ghost use Rattle.compare_lists.specs.Wrote.{Wrote, Written};
ghost use Rattle.compare_content_lists.specs.State.{settings_of, spoiled_by};

use compare_lists::calls::{self, Lists};
use compare_lists::output::Output;
use content::Detector;
use refusal::Refused;

// What lists of content calls have of their own. A call is `clear` where its kind is 0.
#[derive(Clone, Copy)]
pub struct ContentLists {}

impl Lists<Detector> for ContentLists {
    ghost settled = { λ lists s. settled (settings_of s) };

    ghost clears = { λ lists kind b. eqb kind 0 };

    ghost spoiled = { λ lists d b. spoiled_by d (b % 5) };

    // Kept: the trait's method; the functions of `state` are what differs.
    fn settled(self, script: &[u8]) -> Result<Detector, Refused<Detector>> {
        content::try_new(state::settings(script))
    }

    fn is_clear(self, kind: u32, _b: u32) -> bool {
        kind == 0
    }

    // Kept: the trait's method; the functions of `state` are what differs.
    fn spoiled(self, d: Detector, b: u32) -> Detector {
        state::spoiled(d, b % 5)
    }

    fn put_state(self, _out: &mut Output<'_>, _d: Detector) {}
}

// Runs a list, of at most 65,536 records. Returns how many bytes of out it wrote: what does not fit is left out, and the others stay.
// Kept: so compare_exports names no `Lists`. No heap: lent memory, and how much of it is written.
pub fn run(script: &[u8], out: &mut [u8]) -> usize
    ensures { Wrote out.old out.new 0 result }
{
    calls::run(ContentLists {}, script, out)
}
