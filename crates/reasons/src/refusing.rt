// What is turned away of explanations: both ends of every range, each refusal alone, and each two together, on the calls on which
// questions are tried. What a question is lent beside plays no part here.

use jobs::buffers::Buffers;
use jobs::changes::at;
use jobs::job::Due;
use mending::refused::{Asked, Twisted, number_of_refused, refused_call};
use mending::twisting::arrange_twisted;
use probing::counts::Counts;
use probing::lines::due_head;
use probing::turns::turn;
use second::ways::Way;
use std::io;

// The refusals that are due of a call, where they are written out: one of 1 to 7, alone or with a lower one, in exact, by the
// first of its faults.
fn written_out(t: Twisted) -> Option<Due> {
    let shown = t.loud && t.a.way != Way::Octave;
    t.due
        .filter(|due| shown && due.low != Some(due.high) && due.high <= 7)
}

// A call on the lent buffers, at the first column with shift 0.
fn attempt(
    rt: &impl Print,
    buffers: &mut Buffers,
    counts: &mut Counts,
    t: Twisted,
) -> io::Result<()> {
    let a = t.a;
    let shown = written_out(t);
    arrange_twisted(&mut buffers.cells, &mut buffers.theme, &mut buffers.sets, t);
    if let Some(due) = shown {
        due_head(rt, due.low, due.high)?;
    }
    turn(rt, buffers.case(), counts, at(a, 1, 0), shown.is_some())
}

pub fn refuse_all(rt: &impl Print, buffers: &mut Buffers, counts: &mut Counts) -> io::Result<()> {
    for k in 0..number_of_refused() {
        if let Some(t) = refused_call(k) {
            match t.asked {
                Asked::Question => attempt(rt, buffers, counts, t)?,
                Asked::Update => {}
            }
        }
    }
    Ok(())
}
