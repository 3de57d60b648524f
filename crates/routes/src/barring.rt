// What is turned away of routes: both ends of every range, each refusal alone, and each two together.

use jobs::buffers::Buffers;
use std::io;
use straying::strays::{Counts, stray};
use straying::told::barred_head;
use wandering::barred::{Barred, arrange_barred, barred_call, number_of_barred, numbered};

fn bar(rt: &impl Print, buffers: &mut Buffers, counts: &mut Counts, b: Barred) -> io::Result<()> {
    arrange_barred(&mut buffers.cells, &mut buffers.theme, b);
    if let Some(due) = b.loud {
        barred_head(rt, due.low.map(numbered), numbered(due.high))?;
    }
    stray(rt, buffers.case(), counts, b.a, b.loud.is_some())
}

pub fn bar_all(rt: &impl Print, buffers: &mut Buffers, counts: &mut Counts) -> io::Result<()> {
    for k in 0..number_of_barred() {
        if let Some(b) = barred_call(k) {
            bar(rt, buffers, counts, b)?;
        }
    }
    Ok(())
}
