// The light plan of a list's settings, from three of their bytes: whole ones, and some that are refused.
// Kept, point 7: which plan is made is a byte of the list's record, whose values compare/README.md gives.
ghost use Rattle.std.specs.Prelude.{◌≡◌, ◌≤◌, length};
ghost use Rattle.light_plan.specs.Rows.{row};
ghost use Rattle.light_plan.specs.Plan.{plan_of};
ghost use Rattle.compare_content_lists.specs.Plans.{sixteen_of, one_row, two_rows, three_rows, whole_plan, plan_by};

use light_plan::{Plan, Row};

fn row(from: u8, to: u8, threshold: u8) -> Row
    ensures { result ≡ row from to threshold }
{
    Row {
        from,
        to,
        threshold,
    }
}

// The plan of these rows, of which there are at most sixteen.
fn plan(rows: &[Row]) -> Plan
    requires { length rows.now ≤ 16 }
    ensures { result ≡ plan_of rows.now }
{
    Plan::of(rows).unwrap_or(Plan::none())
}

// Sixteen rows of sixteen medians each.
#[tactic(auto, unfolding(crate::specs::Plans::sixteen_of))]
fn sixteen(b: u8) -> Plan
    ensures { result ≡ sixteen_of b }
{
    let mut rows = [row(0, 0, 0); 16];
    for i in 0..16 {
        let first = 16 * i as u8;
        rows[i] = row(first, first + 15, ((b as u32 + 17 * i as u32) % 128) as u8);
    }
    plan(&rows)
}

// A whole plan, or none.
#[tactic(auto, unfolding(crate::specs::Plans::whole_plan))]
fn whole(kind: u8, a: u8, b: u8) -> Plan
    ensures { result ≡ whole_plan kind a b }
{
    match kind {
        0..=3 => Plan::none(),
        4 => plan(&[row(0, 255, b)]),
        5 => plan(&[row(0, 255, b / 4)]),
        6 => plan(&[row(b % 255 + 1, 255, a / 4), row(0, b % 255, a / 2)]),
        _ => sixteen(b),
    }
}

// The plan of three bytes: one in sixteen is refused.
#[tactic(auto, unfolding(crate::specs::Plans::plan_by))]
pub fn plan_by(kind: u8, a: u8, b: u8) -> Plan
    ensures { result ≡ plan_by kind a b }
{
    match kind % 128 {
        8 => Plan {
            count: 17 + b as u32,
            ..sixteen(b)
        },
        16 => plan(&[row(0, 255, b), row(b / 2 + 1, b / 2, a / 4)]),
        24 => plan(&[
            row(b / 2 + 1, b / 2, a / 4),
            row(0, 200, b),
            row(100, 254, a / 2),
        ]),
        32 => plan(&[row(0, b, a / 2), row(b, 255, a / 4)]),
        40 => plan(&[row(0, b / 2, a / 2), row(b / 2, 254, a / 4)]),
        48 => plan(&[row(0, b % 254, a / 2), row(b % 254 + 2, 255, a / 4)]),
        56 => plan(&[row(b % 2, 254 + b % 2, a / 4)]),
        _ => whole(kind % 8, a, b),
    }
}

// A plan that does not have the median 255.
pub fn without_the_last() -> Plan
    ensures { result ≡ one_row (row 0 254 0) }
{
    plan(&[row(0, 254, 0)])
}
