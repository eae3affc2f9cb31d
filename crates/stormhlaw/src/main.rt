// The gate as a program: lists the segments and levels of an accepted report; `console::program` says the rest of what it does.
// What decides is `reading::read`; this crate only prints. The script `stormhlaw` runs it, once for each report.
#![tactic(auto)]

mod listing;

use console::program;
use std::io;

fn main(rt: HostRuntime) -> io::Result<()> {
    program::run(&rt, &listing::Tables)
}
