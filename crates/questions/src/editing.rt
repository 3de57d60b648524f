// Updates, for every edit: by the sets that were right before the change, beside a fresh preparation too, and by wrong ones.

use crate::lent::Mending;
use changing::turns::{turn_fresh, turn_update};
use jobs::buffers::Buffers;
use mending::arranging::{arrange_edit, ask_of_edit};
use mending::edit::{Edit, Kind, Lent};
use mending::families::{edit, number_of_edits};
use noting::answers::Judged;
use noting::lines::{Mended, edit_answered};
use noting::notes::{Tally, noted_update};
use second::asks::Ask;
use second::totals::add;
use std::io;

// An update, by the lent sets as they are.
fn updated(
    buffers: &mut Buffers,
    mending: &mut Mending,
    tally: &mut Tally,
    a: Ask,
    column: u16,
    lent: Lent,
) -> Judged {
    let cells = &buffers.cells;
    let sets = &mut buffers.sets;
    if let Lent::Right = lent {
        add(&mut tally.fresh, 1);
        return turn_fresh(cells, &mut mending.old, sets, &mut mending.fresh, a, column);
    }
    turn_update(cells, &mut mending.old, sets, a, column)
}

// An edit on the lent buffers; a worked one is written out.
fn attempt(
    rt: &impl Print,
    buffers: &mut Buffers,
    mending: &mut Mending,
    tally: &mut Tally,
    e: Edit,
) -> io::Result<()> {
    let a = ask_of_edit(e);
    let column = (e.column % 65536) as u16;
    arrange_edit(&mut buffers.cells, &mut buffers.sets, e);
    let judged = updated(buffers, mending, tally, a, column, e.lent);
    let mended = Mended {
        cells: &buffers.cells,
        old: &mending.old,
        sets: &buffers.sets,
        column,
    };
    noted_update(rt, mended, tally, a, judged)?;
    if let Kind::Worked = e.kind {
        edit_answered(rt, mended, a, judged.said)?;
    }
    Ok(())
}

pub fn edit_all(
    rt: &impl Print,
    buffers: &mut Buffers,
    mending: &mut Mending,
    tally: &mut Tally,
) -> io::Result<()> {
    for k in 0..number_of_edits() {
        attempt(rt, buffers, mending, tally, edit(k))?;
    }
    Ok(())
}
