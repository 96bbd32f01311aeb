// The list of a sitting (RULES 17): up to 512 stamps in lent memory, rising and at least a minimum apart. Every operation first looks the list
// over, in one pass, and refuses a bad one by 15.
// Kept, point 5: record, lent memory and stamp are three parameters, for the reason that stands at `CutList`.
#![tactic(auto)]

ghost use Rattle.std.specs.Prelude.{◌≡◌, true, cond, ◌&&◌, ◌≤◌, ◌<◌, ◌-◌, eqb, ltb, pos, length, get_or, take, IfOk, IfErr, is_err};
ghost use Rattle.refusal.specs.declared.Refusal.TheVariants as Refusal;
ghost use Rattle.cut_list.specs.Record.{places, held, new_list, follows, is_bad};
ghost use Rattle.cut_list.specs.Change.{added, removed, emptied};
ghost use Rattle.cut_list.specs.Find.{nearest_in, span_in, clip_in};
ghost use Rattle.cut_list.specs.Answers.{change_of, nearest_answer, span_answer, clip_answer};

use refusal::{Refusal, Refused};
use timestamp::Timestamp;

// How many stamps a list holds at most; as many places of the memory are the list's.
pub const MOST_STAMPS: usize = 512;

// The record of a list. Its stamps are the first `count` places of the memory that goes with it.
// Kept: the record passes by value and its memory is lent beside it, as microseconds, since the C interface has them so and the library keeps
// no memory.
#[derive(Clone, Copy, Debug, PartialEq, Eq)]
pub struct CutList {
    // The least distance from one stamp to the next, in microseconds.
    pub min_duration: u64,
    pub count: usize,
}

// The stamps within a span: the place of the first, from 0, and how many there are; 0 and 0 if there is none.
// Kept: 0 and 0 where there is none, as RULES 17.8 says.
#[derive(Clone, Copy, Debug, PartialEq, Eq)]
pub struct StampsWithin {
    pub first: usize,
    pub count: usize,
}

// A list without stamps. It takes no memory yet: the first operation does.
#[tactic(auto, unfolding(crate::specs::Record::new_list))]
pub fn new(min_duration: u64) -> CutList
    ensures { result ≡ new_list min_duration }
{
    CutList {
        min_duration,
        count: 0,
    }
}

// Whether a stamp is later than another and at least the minimum past it.
#[tactic(auto, using(std::proofs::lemmas::Int::ints), unfolding(crate::specs::Record::follows, timestamp::specs::Stamps::distance))]
fn follows(min_duration: u64, earlier: Timestamp, ts: Timestamp) -> bool
    ensures { result ≡ follows min_duration earlier.micros ts.micros }
{
    earlier < ts && min_duration <= timestamp::distance(ts, earlier)
}

// The stamps of a list, which are in order, or refusal 15. One pass over them.
#[tactic(auto, unfolding(crate::specs::Record::is_bad))]
fn stamps_of(list: CutList, memory: &[i64]) -> Result<&[i64], Refusal>
    ensures bad { is_err result ≡ is_bad (held list memory.now) }
    ensures stamps { IfOk result (λ s. s.now ≡ take list.count memory.now) }
    ensures room { IfOk result (λ _. (list.count ≤ places) × (places ≤ length memory.now)) }
    ensures refusal { IfErr result (λ why. why ≡ Refusal.BadState) }
{
    if MOST_STAMPS < list.count || memory.len() < MOST_STAMPS {
        return Err(Refusal::BadState);
    }
    let stamps = &memory[..list.count];
    let in_order = stamps.is_sorted_by(|x, y| {
        follows(
            list.min_duration,
            Timestamp { micros: *x },
            Timestamp { micros: *y },
        )
    });
    if in_order {
        Ok(stamps)
    } else {
        Err(Refusal::BadState)
    }
}

// Whether ts may stand at a place of these stamps, between its two neighbours.
fn fits(stamps: &[i64], place: usize, min_duration: u64, ts: Timestamp) -> bool
    requires { place ≤ length stamps.now }
    ensures { result ≡ (cond (eqb place 0) true (follows min_duration (get_or stamps.now (place - 1) (pos 0)) ts.micros) && cond (ltb place (length stamps.now)) (follows min_duration ts.micros (get_or stamps.now place (pos 0))) true) }
{
    let (earlier, later) = stamps.split_at(place);
    let past_earlier = earlier
        .last()
        .is_none_or(|x| follows(min_duration, Timestamp { micros: *x }, ts));
    let before_later = later
        .first()
        .is_none_or(|x| follows(min_duration, ts, Timestamp { micros: *x }));
    past_earlier && before_later
}

// A refused change: why, and the record as it was.
fn refused(list: CutList, refusal: Refusal) -> Refused<CutList>
    ensures { (result.refusal ≡ refusal) × (result.state ≡ list) }
{
    Refused {
        refusal,
        state: list,
    }
}

// Adds a stamp in its place: refused by 15; by 17 when it equals one of the list or lies closer to one than the minimum; by 18 when 512 are
// held. Places past the new count keep their contents.
#[tactic(auto, unfolding(crate::specs::Change::added, crate::specs::Change::add_number))]
pub fn add(list: CutList, memory: &mut [i64], ts: Timestamp) -> Result<CutList, Refused<CutList>>
    ensures { change_of result memory.new ≡ added (held list memory.old) ts.micros }
{
    let stamps = stamps_of(list, memory).map_err(|why| refused(list, why))?;
    let place = stamps.partition_point(|x| *x < ts.micros);
    if !fits(stamps, place, list.min_duration, ts) {
        return Err(refused(list, Refusal::TooClose));
    }
    if list.count == MOST_STAMPS {
        return Err(refused(list, Refusal::ListFull));
    }
    memory.copy_within(place..list.count, place + 1);
    memory[place] = ts.micros;
    Ok(CutList {
        count: list.count + 1,
        ..list
    })
}

// Removes a stamp: refused by 15; by 19 when it is not in the list. The freed place is 0.
#[tactic(auto, unfolding(crate::specs::Change::removed, crate::specs::Change::remove_number))]
pub fn remove(list: CutList, memory: &mut [i64], ts: Timestamp) -> Result<CutList, Refused<CutList>>
    ensures { change_of result memory.new ≡ removed (held list memory.old) ts.micros }
{
    let stamps = stamps_of(list, memory).map_err(|why| refused(list, why))?;
    let Ok(place) = stamps.binary_search(&ts.micros) else {
        return Err(refused(list, Refusal::NotInList));
    };
    memory.copy_within(place + 1..list.count, place);
    memory[list.count - 1] = 0;
    Ok(CutList {
        count: list.count - 1,
        ..list
    })
}

// Removes all stamps: refused by 15. The minimum stays, and the places that held stamps become 0.
#[tactic(auto, unfolding(crate::specs::Change::emptied, crate::specs::Change::without_stamps, crate::specs::Record::list_number))]
pub fn empty(list: CutList, memory: &mut [i64]) -> Result<CutList, Refused<CutList>>
    ensures { change_of result memory.new ≡ emptied (held list memory.old) }
{
    stamps_of(list, memory).map_err(|why| refused(list, why))?;
    memory[..list.count].fill(0);
    Ok(CutList { count: 0, ..list })
}

// The stamp of the list that is nearest to ts, the earlier on a tie, or none in an empty list: refused by 15.
#[tactic(auto, unfolding(crate::specs::Find::nearest_in, crate::specs::Record::list_number))]
pub fn nearest(list: CutList, memory: &[i64], ts: Timestamp) -> Result<Option<Timestamp>, Refusal>
    ensures { nearest_answer result ≡ nearest_in (held list memory.now) ts.micros }
{
    let stamps = stamps_of(list, memory)?;
    let nearest = stamps
        .iter()
        .map(|x| Timestamp { micros: *x })
        .min_by_key(|x| timestamp::distance(ts, *x));
    Ok(nearest)
}

// The stamps of the list from a to b, both ends counted: the place of the first and how many; 0 and 0 if there is none, as when a is later
// than b. Refused by 15.
#[tactic(auto, unfolding(crate::specs::Find::span_in, crate::specs::Record::list_number))]
pub fn span(
    list: CutList,
    memory: &[i64],
    a: Timestamp,
    b: Timestamp,
) -> Result<StampsWithin, Refusal>
    ensures { span_answer result ≡ span_in (held list memory.now) a.micros b.micros }
{
    let stamps = stamps_of(list, memory)?;
    let first = stamps.partition_point(|x| *x < a.micros);
    let end = stamps.partition_point(|x| *x <= b.micros);
    if first < end {
        Ok(StampsWithin {
            first,
            count: end - first,
        })
    } else {
        Ok(StampsWithin { first: 0, count: 0 })
    }
}

// The clip of a stamp: how many stamps of the list are at or before it. Refused by 15.
#[tactic(auto, unfolding(crate::specs::Find::clip_in, crate::specs::Record::list_number))]
pub fn clip(list: CutList, memory: &[i64], ts: Timestamp) -> Result<usize, Refusal>
    ensures { clip_answer result ≡ clip_in (held list memory.now) ts.micros }
{
    Ok(stamps_of(list, memory)?.partition_point(|x| *x <= ts.micros))
}
