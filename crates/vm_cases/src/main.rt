// Runs the cases of docs/VECTORS.md through the call: one line each, and a last line with the count.
#![tactic(auto)]

mod cells;
mod code;
mod each;
mod floats;
mod guards;
mod handlers;
mod loops;
mod nans;
mod op;
mod pairs;
mod pops;
mod purses;
mod refusals;
mod report;
mod rooms;
mod run;
mod seen;
mod table;
mod whole;
mod withdrawn;

use report::Tally;
use std::io;

fn main(rt: HostRuntime) -> io::Result<()> {
    let mut tally = Tally::new(rt)?;
    guards::cases(&mut tally);
    loops::cases(&mut tally);
    handlers::cases(&mut tally);
    each::cases(&mut tally);
    pops::cases(&mut tally);
    withdrawn::cases(&mut tally);
    nans::cases(&mut tally);
    whole::cases(&mut tally);
    rooms::cases(&mut tally);
    purses::cases(&mut tally);
    cells::cases(&mut tally);
    refusals::cases(&mut tally);
    pairs::cases(&mut tally);
    table::cases(rt, &mut tally)?;
    tally.total();
    tally.flush()
}
