// The desk's outline as a program: lists the levels of an accepted report under their parents, a line each; `console::program` says the rest of
// what it does, as of the program `stormhlaw`.
// What decides are `reading::read` and `outline::walking::walk`; this crate only prints. The script `stormhlaw` runs it for `stormhlaw outline`.
#![tactic(auto)]

mod lines;

use console::program;
use std::io;

fn main(rt: HostRuntime) -> io::Result<()> {
    program::run(&rt, &lines::Outline)
}
