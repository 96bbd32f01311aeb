// Lists of adaptive calls made by the generator, for the comparison with the Rust (RULES 14.3): a digest for each batch of 256 lists, as
// compare/README.md states. Then sample rows (RULES 13.2).
#![tactic(auto)]

mod samples;

use compare_adaptive_lists::AdaptiveLists;
use compare_lists::replays;
use std::io;

fn main(rt: HostRuntime) -> io::Result<()> {
    // 1 to 24 calls, and 240 in one of 64, so that wide windows fill.
    replays::print(
        &rt,
        AdaptiveLists {},
        |c| if c % 64 == 63 { 240 } else { c % 24 + 1 },
    )?;
    samples::print(&rt)
}
