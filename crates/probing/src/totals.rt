// How many explanations were compared, by what they say, and how many differed.

use crate::counts::{Counts, Screenings};
use std::io;

// A reason, and how many there are by what the sets make of the column.
fn reason_line(rt: &impl Print, reason: &str, s: Screenings) -> io::Result<()> {
    let Screenings {
        unasked,
        kept,
        dismissed,
    } = s;
    print!(rt; " {reason}: unasked {unasked} kept {kept} dismissed {dismissed}\n")
}

fn reason_lines(rt: &impl Print, counts: Counts) -> io::Result<()> {
    reason_line(rt, "listed", counts.listed)?;
    reason_line(rt, "no-shift", counts.no_shift)?;
    reason_line(rt, "column-0", counts.no_column)?;
    reason_line(rt, "too-few", counts.too_few)?;
    reason_line(rt, "empty", counts.empty)?;
    reason_line(rt, "outside", counts.outside)?;
    reason_line(rt, "absent", counts.absent)?;
    reason_line(rt, "refused", counts.refused)
}

pub fn totals(rt: &impl Print, counts: Counts) -> io::Result<()> {
    let compared = counts.compared;
    let later_note = counts.later_note;
    let later_interval = counts.later_interval;
    let higher_track = counts.higher_track;
    let differed = counts.differed;
    print!(rt; "compared: explanations {compared}\n")?;
    reason_lines(rt, counts)?;
    print!(rt; "by a later note {later_note}, by a later interval {later_interval}")?;
    print!(rt; ", in a higher track {higher_track}\ndiffered {differed}\n")
}
