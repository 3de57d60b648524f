// Trials of the router, beside the second router.

#![tactic(auto)]

mod attempts;
mod barring;

use attempts::{stray_broad, stray_jobs, stray_patterns, stray_shown, stray_thick};
use barring::bar_all;
use jobs::buffers::Buffers;
use std::io;
use straying::strays::Counts;
use straying::tallies::tallies;

fn main(rt: HostRuntime) -> io::Result<()> {
    let mut buffers = Buffers::new();
    let mut counts = Counts::default();
    stray_shown(&rt, &mut buffers, &mut counts)?;
    bar_all(&rt, &mut buffers, &mut counts)?;
    stray_patterns(&rt, &mut buffers, &mut counts)?;
    stray_thick(&rt, &mut buffers, &mut counts)?;
    stray_broad(&rt, &mut buffers, &mut counts)?;
    stray_jobs(&rt, &mut buffers, &mut counts)?;
    tallies(&rt, &counts)
}
