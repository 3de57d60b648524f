// A job, tried: its score, theme and sets are put into the lent buffers, its call is made and compared, and what is to be said is
// written.

use crate::lists::{list, noted, turned};
use cases::arranging::{arrange, arrange_theme};
use jobs::buffers::{Buffers, Rooms};
use jobs::job::Job;
use jobs::refused::due;
use judging::answers::number_in;
use judging::compare::{Fault, Seen};
use reporting::heads::head;
use reporting::lines::{Tally, answered, tail};
use second::asks::Call;
use second::totals::add;
use std::io;
use turning::turns::turn_prepare;

// What was seen, with another number than the one that is due as a fault.
fn due_judged(j: Job, seen: Seen) -> Seen {
    let Some(d) = j.due else {
        return seen;
    };
    if due(j.call, d) == number_in(seen.got.err()) {
        return seen;
    }
    Seen {
        call: seen.call,
        got: seen.got,
        verdict: Err(Fault::Refusal),
    }
}

// A call by itself, compared with the second finder.
fn once(
    rt: &impl Print,
    buffers: &mut Buffers,
    rooms: &mut Rooms,
    tally: &mut Tally,
    j: Job,
) -> io::Result<()> {
    let seen = if j.call == Call::Prepare {
        turn_prepare(buffers, j.a)
    } else {
        turned(buffers.case(), rooms, j)
    };
    noted(rt, buffers.case(), tally, j.a, due_judged(j, seen))?;
    answered(rt, j.call, seen.got.err(), j.loud)
}

pub fn attempt(
    rt: &impl Print,
    buffers: &mut Buffers,
    rooms: &mut Rooms,
    tally: &mut Tally,
    j: Job,
) -> io::Result<()> {
    arrange(&mut buffers.cells, &mut buffers.sets, j);
    arrange_theme(&mut buffers.cells, &mut buffers.theme, j);
    head(rt, buffers.case(), j)?;
    if j.whole {
        add(&mut tally.themes, 1);
        list(rt, buffers.case(), rooms, tally, j)?;
    } else {
        once(rt, buffers, rooms, tally, j)?;
    }
    tail(rt, j)
}
