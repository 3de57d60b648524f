// How many routes were compared, by what they are, and how many differed.

use crate::strays::{Counts, MORE_CHANGES};
use reporting::pieces::line;
use std::io;

// The routes by their changes, of which the last are all with as many or more.
fn change_tallies(rt: &impl Print, by_changes: &[u64]) -> io::Result<()> {
    print!(rt; " by changes:")?;
    for (changes, count) in by_changes.iter().enumerate() {
        if changes < MORE_CHANGES {
            print!(rt; " {changes}: {count},")?;
        } else {
            print!(rt; " more: {count}\n")?;
        }
    }
    Ok(())
}

// The refusals by their numbers; those that no route has are passed over.
fn refusal_tallies(rt: &impl Print, by_number: &[u64]) -> io::Result<()> {
    print!(rt; " refused")?;
    for (number, &count) in by_number.iter().enumerate() {
        if 0 < count {
            print!(rt; ", {number}: {count}")?;
        }
    }
    line(rt)
}

pub fn tallies(rt: &impl Print, counts: &Counts) -> io::Result<()> {
    let compared = counts.compared;
    let routed = counts.routed;
    let exact = counts.exact;
    let octave = counts.octave;
    let written = counts.written;
    let changed = counts.changed;
    let spare = counts.spare;
    let tried = counts.tried;
    let alike = counts.alike;
    let differed = counts.differed;
    print!(rt;
        "compared: {compared}\n routes {routed}: exact {exact}, octave {octave}, written {written}"
    )?;
    print!(rt; "; with a change {changed}, with places to spare {spare}\n")?;
    change_tallies(rt, &counts.by_changes)?;
    print!(rt; " beside every route there is {tried}, with more than one best {alike}\n")?;
    refusal_tallies(rt, &counts.by_number)?;
    print!(rt; "differed {differed}\n")
}
