// The bench of document 01: its run-only examples, and directed ones, each run on the proved library and compared.
#![tactic(auto)]

mod buffer;
mod case;
mod faults;
mod hosts;
mod record;
mod refusals;
mod report;
mod runs;
mod tags;
mod tally;

use std::io;
use tally::Tally;

fn main(rt: HostRuntime) -> io::Result<()> {
    let mut t = Tally::new(io::writer(&rt));
    runs::all(&mut t);
    faults::all(&mut t);
    tags::all(&mut t);
    refusals::all(&mut t);
    hosts::all(&mut t);
    t.told()
}
