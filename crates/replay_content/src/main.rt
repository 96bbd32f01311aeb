// Lists of content calls made by the generator: a digest for each batch of 256 lists, as compare/README.md states.
#![tactic(auto)]

use compare_content_lists::ContentLists;
use compare_lists::replays;
use std::io;

fn main(rt: HostRuntime) -> io::Result<()> {
    // 1 to 24 calls.
    replays::print(&rt, ContentLists {}, |c| c % 24 + 1)
}
