// Stamps: microseconds as an i64. Durations: microseconds as a u64.
#![tactic(auto)]

ghost use Rattle.std.specs.Prelude.{◌≡◌};
ghost use Rattle.timestamp.specs.Stamps.{distance, duration_since, saturating_sub};

// A stamp. It is passed whole, so that a proof above this crate reads the number and not its bits.
// Kept: made by its one field; `From<i64>` would be no shorter.
#[derive(Clone, Copy, Debug, PartialEq, Eq, PartialOrd, Ord)]
pub struct Timestamp {
    pub micros: i64,
}

// The difference of the two stamps; none when ts is before the "earlier" one (RULES 1.2).
#[tactic(auto, unfolding(crate::specs::Stamps::duration_since, crate::specs::Stamps::distance))]
pub fn duration_since(ts: Timestamp, earlier: Timestamp) -> Option<u64>
    ensures { result ≡ duration_since ts earlier }
{
    (earlier <= ts).then_some(ts.micros.abs_diff(earlier.micros))
}

// How far two stamps are apart, whichever is the later: up to 2^64 - 1 (RULES 1.6).
#[tactic(auto, unfolding(crate::specs::Stamps::distance))]
pub fn distance(x: Timestamp, y: Timestamp) -> u64
    ensures { result ≡ distance x.micros y.micros }
{
    x.micros.abs_diff(y.micros)
}

// The stamp less the duration; it stops at -2^63 (RULES 1.3).
#[tactic(auto, unfolding(crate::specs::Stamps::saturating_sub))]
pub fn saturating_sub_duration(ts: Timestamp, d: u64) -> Timestamp
    ensures { result ≡ saturating_sub ts d }
{
    Timestamp {
        micros: ts.micros.saturating_sub_unsigned(d),
    }
}
