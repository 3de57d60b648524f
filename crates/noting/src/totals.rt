// How much was tried, and how many differed.

use crate::notes::Tally;
use std::io;

pub fn totals(rt: &impl Print, tally: Tally) -> io::Result<()> {
    let Tally {
        prepared,
        somewhere,
        nowhere,
        lacking,
        updates,
        fresh,
        refusals,
        differed,
    } = tally;
    print!(rt;
        "tried: scores prepared {prepared} questions somewhere {somewhere} nowhere {nowhere}"
    )?;
    print!(rt; " of which by the summary {lacking}\n")?;
    print!(rt; "tried: updates {updates} of which beside a fresh preparation {fresh}\n")?;
    print!(rt; "tried: refusals {refusals}\ndiffered {differed}\n")
}
