// Trials of the question whether a theme occurs, of the summaries, and of updates, each beside the second finder.

#![tactic(auto)]

mod editing;
mod lent;
mod questioning;
mod refusing;

use editing::edit_all;
use jobs::buffers::Buffers;
use lent::Mending;
use noting::notes::Tally;
use noting::totals::totals;
use questioning::ask_all;
use refusing::refuse_all;
use std::io;

fn main(rt: HostRuntime) -> io::Result<()> {
    let mut buffers = Buffers::new();
    let mut mending = Mending::new();
    let mut tally = Tally::default();
    refuse_all(&rt, &mut buffers, &mut mending, &mut tally)?;
    ask_all(&rt, &mut buffers, &mut mending, &mut tally)?;
    edit_all(&rt, &mut buffers, &mut mending, &mut tally)?;
    totals(&rt, tally)
}
