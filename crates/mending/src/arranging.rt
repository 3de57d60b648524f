// An edit put into the lent buffers: the sets of the score before the change, wrong ones too, and the changed score.

use crate::drawn::drawn_change;
use crate::edit::{Edit, Kind, Lent};
use crate::far::{far_cell, far_change};
use crate::small::spell_small;
use crate::worked::{load_worked, worked_change};
use gapped::sparse::fill_sparse;
use jobs::buffers::{Cells, Sets, fill_by};
use jobs::shapes::ask_of;
use judging::answers::ask_prepare;
use judging::marks::put_marks;
use second::asks::Ask;
use second::totals::{more, place, product};
use second::ways::Way;

// The sizes of an edit's score and of its sets. The theme, the way and the room play no part in an update.
pub fn ask_of_edit(e: Edit) -> Ask {
    ask_of(e.h, e.n, 2, Way::Exact, 1)
}

// A far score, column by column.
fn fill_far(cells: &mut [u8], e: Edit) {
    if e.h == 0 {
        return;
    }
    for (column, tracks) in cells.chunks_exact_mut(e.h).enumerate().take(e.n) {
        fill_by(tracks, e.h, |track| far_cell(e, more(column, 1), track));
    }
}

// The score before the change.
fn put_score(cells: &mut Cells, e: Edit) {
    let many = product(e.n, e.h);
    match e.kind {
        Kind::Worked => load_worked(cells, e.score),
        Kind::Small => spell_small(cells, many, e.score),
        Kind::Far => fill_far(cells, e),
        Kind::Drawn => fill_sparse(cells, many, e.h, e.score),
    }
}

fn change_drawn(column: &mut [u8], e: Edit) {
    for (track, cell) in column.iter_mut().enumerate().take(e.h) {
        *cell = drawn_change(e, track, *cell);
    }
}

// The changed column, in its place.
fn put_column(cells: &mut Cells, e: Edit) {
    let Some(column) = cells.get_mut(place(e.column, e.h, 0)..) else {
        return;
    };
    match e.kind {
        Kind::Worked => fill_by(column, e.h, |_| worked_change(e)),
        Kind::Small => spell_small(column, e.h, e.into),
        Kind::Far => fill_by(column, e.h, |track| far_change(e, track)),
        Kind::Drawn => change_drawn(column, e),
    }
}

// A set with some bits turned, others for each place; never the same set.
fn turned(x: u16, i: usize) -> u16 {
    x % 4096 ^ (1 + (product(i, 37) % 4095) as u16)
}

// What is lent for set x of a place.
fn lent_for(lent: Lent, x: u16, i: usize) -> u16 {
    match lent {
        Lent::Right => x,
        Lent::Turned => turned(x, i),
        Lent::NoInterval => 4095,
        Lent::EveryInterval => 0,
    }
}

// So many sets, as they are lent.
pub fn lend_sets(sets: &mut Sets, many: usize, lent: Lent) {
    for (i, set) in sets.iter_mut().enumerate().take(many) {
        *set = lent_for(lent, *set, i);
    }
}

// The sets of the score before the change, as they are lent, and then the change.
pub fn arrange_edit(cells: &mut Cells, sets: &mut Sets, e: Edit) {
    let a = ask_of_edit(e);
    put_score(cells, e);
    put_marks(sets, 0, more(a.sets, 1));
    let _ = ask_prepare(cells, sets, a);
    lend_sets(sets, a.sets, e.lent);
    put_column(cells, e);
}
