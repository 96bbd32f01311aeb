// The calls on a list of a sitting, as the crate `cut_list_station` has them.
// Kept, point 5: the C interface passes these one by one.
// Kept, point 2: each C name is a function of its own.
ghost use Rattle.std.specs.Prelude.{◌≡◌};
ghost use Rattle.cut_list.specs.Record.{held};
ghost use Rattle.cut_list.specs.Change.{added, removed, emptied};
ghost use Rattle.cut_list.specs.Find.{nearest_in, span_in, clip_in};
ghost use Rattle.cut_list_station.specs.Words.{list_of};
ghost use Rattle.cut_list_station.specs.Promises.{NewContract, ChangeContract, NearestContract, SpanContract, ClipContract};

// A list without stamps.
#[unsafe(no_mangle)]
pub extern "C" fn mw_list_new(list: &mut [u64; 3], min_duration: u64)
    ensures { NewContract min_duration list.new }
{
    cut_list_station::new(list, min_duration);
}

// Adds a stamp in its place.
#[unsafe(no_mangle)]
pub extern "C" fn mw_list_add(list: &mut [u64; 3], stamps: &mut [i64], ts: i64) -> u32
    ensures { ChangeContract (added (held (list_of list.old) stamps.old) ts) result list.old list.new stamps.new }
{
    cut_list_station::add(list, stamps, ts)
}

// Removes a stamp.
#[unsafe(no_mangle)]
pub extern "C" fn mw_list_remove(list: &mut [u64; 3], stamps: &mut [i64], ts: i64) -> u32
    ensures { ChangeContract (removed (held (list_of list.old) stamps.old) ts) result list.old list.new stamps.new }
{
    cut_list_station::remove(list, stamps, ts)
}

// Removes all stamps.
#[unsafe(no_mangle)]
pub extern "C" fn mw_list_empty(list: &mut [u64; 3], stamps: &mut [i64]) -> u32
    ensures { ChangeContract (emptied (held (list_of list.old) stamps.old)) result list.old list.new stamps.new }
{
    cut_list_station::empty(list, stamps)
}

// The nearest stamp: whether there is one, and the stamp in two's complement or 0.
#[unsafe(no_mangle)]
pub extern "C" fn mw_list_nearest(
    list: &[u64; 3],
    stamps: &[i64],
    ts: i64,
    nearest: &mut [u64; 2],
) -> u32
    ensures { NearestContract (nearest_in (held (list_of list.now) stamps.now) ts) result nearest.old nearest.new }
{
    cut_list_station::nearest(list, stamps, ts, nearest)
}

// The stamps from one stamp to another, both ends counted: the place of the first, from 0, and how many there are.
#[unsafe(no_mangle)]
pub extern "C" fn mw_list_span(
    list: &[u64; 3],
    stamps: &[i64],
    from: i64,
    to: i64,
    span: &mut [u64; 2],
) -> u32
    ensures { SpanContract (span_in (held (list_of list.now) stamps.now) from to) result span.old span.new }
{
    cut_list_station::span(list, stamps, from, to, span)
}

// The clip of a stamp: how many stamps of the list are at or before it.
#[unsafe(no_mangle)]
pub extern "C" fn mw_list_clip(list: &[u64; 3], stamps: &[i64], ts: i64, clip: &mut [u64; 1]) -> u32
    ensures { ClipContract (clip_in (held (list_of list.now) stamps.now) ts) result clip.old clip.new }
{
    cut_list_station::clip(list, stamps, ts, clip)
}
