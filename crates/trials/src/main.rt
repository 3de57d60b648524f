// Trials: the cases that are run and not proved, each beside a second finder.

#![tactic(auto)]

mod attempts;
mod lists;

use attempts::attempt;
use cases::families::{job, number_of_jobs};
use jobs::buffers::{Buffers, Rooms};
use reporting::lines::{Tally, totals};
use std::io;

fn main(rt: HostRuntime) -> io::Result<()> {
    let mut buffers = Buffers::new();
    let mut rooms = Rooms::new();
    let mut tally = Tally::default();
    for k in 0..number_of_jobs() {
        if let Some(j) = job(k) {
            attempt(&rt, &mut buffers, &mut rooms, &mut tally, j)?;
        }
    }
    totals(&rt, tally)
}
