// Trials of the explainer, beside the second explainer.

#![tactic(auto)]

mod refusing;
mod trying;

use jobs::buffers::Buffers;
use probing::counts::Counts;
use probing::totals::totals;
use refusing::refuse_all;
use std::io;
use trying::{try_crowded, try_jobs, try_worked};

fn main(rt: HostRuntime) -> io::Result<()> {
    let mut buffers = Buffers::new();
    let mut counts = Counts::default();
    refuse_all(&rt, &mut buffers, &mut counts)?;
    try_worked(&rt, &mut buffers, &mut counts)?;
    try_crowded(&rt, &mut buffers, &mut counts)?;
    try_jobs(&rt, &mut buffers, &mut counts)?;
    totals(&rt, counts)
}
