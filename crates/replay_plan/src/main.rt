// Texts of light plans made by the generator, read and written: a digest for each batch of 256 texts. compare/README.md states them.
#![tactic(auto)]

mod texts;

ghost use Rattle.std.specs.Prelude.{◌≡◌, ◌≤◌, length};
ghost use Rattle.replay.specs.Digest.{fed, least_first};

use light_plan::Plan;
use plan_text::MOST_BYTES;
use refusal::Refusal;
use replay::{Digest, Run};
use std::io;
use texts::Text;

// How long a text is, and its bytes.
fn feed_text(d: Digest, text: &[u8]) -> Digest
    requires { length text.now ≤ 256 }
    ensures { result ≡ fed (fed d (least_first 4 (length text.now))) text.now }
{
    d.word(text.len() as u32).feed(text)
}

// The text of a plan as it is written.
fn written(plan: Plan, out: &mut [u8; MOST_BYTES]) -> &[u8]
    ensures { length result.now ≤ 192 }
{
    let n = plan_text::write(plan, out);
    &out[..n.min(MOST_BYTES)]
}

// The count and the three arrays.
fn feed_plan(d: Digest, plan: Plan) -> Digest
    ensures { result ≡ fed (fed (fed (fed d (least_first 4 plan.count)) plan.from) plan.to) plan.threshold }
{
    d.word(plan.count)
        .feed(&plan.from)
        .feed(&plan.to)
        .feed(&plan.threshold)
}

// The threshold of each median.
fn feed_thresholds(d: Digest, plan: Plan) -> Digest {
    let mut digest = d;
    for median in 0..=255u8 {
        digest = digest.step(plan.threshold_at(median));
    }
    digest
}

// What a text is read as: its number and its rows, and of one that is accepted the text of these and every threshold.
fn feed_read(d: Digest, read: Result<Plan, Refusal>) -> Digest {
    match read {
        Ok(plan) => {
            let mut out = [0u8; MOST_BYTES];
            let digest = feed_plan(d.word(0), plan);
            feed_thresholds(feed_text(digest, written(plan, &mut out)), plan)
        }
        Err(refusal) => feed_plan(d.word(refusal.number()), Plan::none()),
    }
}

// Appends the text of a plan.
fn append(text: &mut Text, plan: Plan) {
    let mut out = [0u8; MOST_BYTES];
    let _ = text.try_extend_from_slice(written(plan, &mut out));
}

// The text that a record describes.
fn text_of(r: &[u8; 16]) -> Text {
    let mut text = Text::new();
    append(&mut text, texts::plan(r));
    if r[3] % 8 == 1 {
        append(&mut text, texts::first_row(r));
    }
    for change in 0..(r[4] % 4) as usize {
        let at = 5 + 3 * change;
        let place = r[at + 1] as usize % (text.len() + 1);
        texts::change(&mut text, r[at] % 8, place, texts::put_in(r[at + 2]));
    }
    text
}

// The text of the generator's next record, and what it is read as.
fn next(run: Run) -> Run {
    let mut r = [0u8; 16];
    let x = replay::fill(&mut r, run.x, 0);
    let text = text_of(&r);
    let digest = feed_text(run.digest, text.as_slice());
    Run {
        x,
        digest: feed_read(digest, plan_text::read(text.as_slice())),
    }
}

// 256 texts, from x.
fn batch(x: u32) -> Run {
    let mut run = Run {
        x,
        digest: Digest::empty(),
    };
    for _ in 0..256 {
        run = next(run);
    }
    run
}

// 16 batches, one after the other.
fn main(rt: HostRuntime) -> io::Result<()> {
    let mut x = 0;
    for b in 0..16 {
        let run = batch(x);
        x = run.x;
        replay::print_line(&rt, "plan", b, run.digest.value())?;
    }
    Ok(())
}
