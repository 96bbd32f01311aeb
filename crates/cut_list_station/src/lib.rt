// The calls on a list of a sitting, for a station: its record is three words, its stamps lent memory. Words that are not a record are read as
// a list that every operation refuses by 15.
// Kept, point 5: the C interface passes the record's words, the lent memory and the stamps one by one.
// Kept, point 1: the C interface returns a refusal's number, or 0.
// Kept, point 2: an operation or a reader of each name; what changes of a list share is `write_changed`.
#![tactic(auto)]

ghost use Rattle.std.specs.Prelude.{◌≡◌};
ghost use Rattle.station_answer.specs.Answer.{after};
ghost use Rattle.cut_list.specs.Record.{held};
ghost use Rattle.cut_list.specs.Change.{added, removed, emptied};
ghost use Rattle.cut_list.specs.Find.{nearest_in, span_in, clip_in};
ghost use Rattle.cut_list.specs.Answers.{changed_number, changed_list};
ghost use Rattle.cut_list_station.specs.Words.{list_words, list_of};
ghost use Rattle.cut_list_station.specs.Promises.{NewContract, ChangeContract, NearestContract, SpanContract, ClipContract};

use cut_list::CutList;
use refusal::Refused;
use timestamp::Timestamp;

// The record that the words hold.
#[tactic(auto, unfolding(crate::specs::Words::list_of, crate::specs::Words::is_list, crate::specs::Words::foreign))]
fn read(w: &[u64; 3]) -> CutList
    ensures { result ≡ list_of w.now }
{
    if w[0] == 0x4d574c4953543031 {
        CutList {
            min_duration: w[1],
            count: w[2] as usize,
        }
    } else {
        CutList {
            min_duration: 0,
            count: cut_list::MOST_STAMPS + 1,
        }
    }
}

// The record, from which it reads back.
#[tactic(auto, unfolding(crate::specs::Words::list_words), using(crate::proofs::Laws::words_back))]
fn write(out: &mut [u64; 3], l: CutList)
    ensures words { out.new ≡ list_words l }
    ensures read_back { list_of out.new ≡ l }
{
    *out = [0x4d574c4953543031, l.min_duration, l.count as u64];
}

// A list without stamps.
pub fn new(list: &mut [u64; 3], min_duration: u64)
    ensures { NewContract min_duration list.new }
{
    write(list, cut_list::new(min_duration));
}

// Writes the record of an accepted change, leaves the words at a refused one, and gives its number.
fn write_changed(list: &mut [u64; 3], change: Result<CutList, Refused<CutList>>) -> u32
    ensures number { result ≡ changed_number change }
    ensures list { list.new ≡ after result (list_words (changed_list change)) list.old }
    ensures read_back { result ≡ 0 → list_of list.new ≡ changed_list change }
{
    match change {
        Ok(l) => {
            write(list, l);
            0
        }
        Err(refused) => refused.refusal.number(),
    }
}

// Adds a stamp in its place.
#[tactic(auto, using(std::proofs::lemmas::Int::ints), unfolding(cut_list::specs::Change::added))]
pub fn add(list: &mut [u64; 3], stamps: &mut [i64], ts: i64) -> u32
    ensures { ChangeContract (added (held (list_of list.old) stamps.old) ts) result list.old list.new stamps.new }
{
    let l = read(list);
    let added = cut_list::add(l, stamps, Timestamp { micros: ts });
    write_changed(list, added)
}

// Removes a stamp.
#[tactic(auto, using(std::proofs::lemmas::Int::ints), unfolding(cut_list::specs::Change::removed))]
pub fn remove(list: &mut [u64; 3], stamps: &mut [i64], ts: i64) -> u32
    ensures { ChangeContract (removed (held (list_of list.old) stamps.old) ts) result list.old list.new stamps.new }
{
    let l = read(list);
    let removed = cut_list::remove(l, stamps, Timestamp { micros: ts });
    write_changed(list, removed)
}

// Removes all stamps.
#[tactic(auto, unfolding(cut_list::specs::Change::emptied))]
pub fn empty(list: &mut [u64; 3], stamps: &mut [i64]) -> u32
    ensures { ChangeContract (emptied (held (list_of list.old) stamps.old)) result list.old list.new stamps.new }
{
    let l = read(list);
    let emptied = cut_list::empty(l, stamps);
    write_changed(list, emptied)
}

// The nearest stamp: whether there is one, and the stamp in two's complement or 0.
pub fn nearest(list: &[u64; 3], stamps: &[i64], ts: i64, answer: &mut [u64; 2]) -> u32
    ensures { NearestContract (nearest_in (held (list_of list.now) stamps.now) ts) result answer.old answer.new }
{
    match cut_list::nearest(read(list), stamps, Timestamp { micros: ts }) {
        Ok(nearest) => {
            *answer = [words::tag(nearest), words::stamp_word(nearest)];
            0
        }
        Err(why) => why.number(),
    }
}

// The stamps from one stamp to another, both ends counted: the place of the first, from 0, and how many there are.
pub fn span(list: &[u64; 3], stamps: &[i64], from: i64, to: i64, answer: &mut [u64; 2]) -> u32
    ensures { SpanContract (span_in (held (list_of list.now) stamps.now) from to) result answer.old answer.new }
{
    let first = Timestamp { micros: from };
    let last = Timestamp { micros: to };
    match cut_list::span(read(list), stamps, first, last) {
        Ok(within) => {
            *answer = [within.first as u64, within.count as u64];
            0
        }
        Err(why) => why.number(),
    }
}

// The clip of a stamp: how many stamps of the list are at or before it.
pub fn clip(list: &[u64; 3], stamps: &[i64], ts: i64, answer: &mut [u64; 1]) -> u32
    ensures { ClipContract (clip_in (held (list_of list.now) stamps.now) ts) result answer.old answer.new }
{
    let clip = cut_list::clip(read(list), stamps, Timestamp { micros: ts });
    match clip {
        Ok(n) => {
            *answer = [n as u64];
            0
        }
        Err(why) => why.number(),
    }
}
