// What lists of content calls and of adaptive calls share: inputs from bytes, as compare/README.md states, the memory that the calls
// are lent, and outputs written down as bytes. These functions serve the comparison alone. Those that make inputs equal the
// definitions that state the records; those that write say where they write.
#![tactic(auto)]

pub mod calls;
pub mod input;
pub mod memory;
pub mod output;
pub mod replays;
