// The library's pages, each on the part of the lent buffers that is asked for, with the answer as plain numbers.

use jobs::buffers::Rooms;
use judging::answers::{Denied, Page, first, first_mut};
use score::Column;
use search::{AnyWay, Bookmark, Turn, Way, plain_page, quick_page};
use second::asks::{Ask, Case, Pair};

fn page_of(t: Turn) -> Page {
    Page {
        written: t.written,
        next: Pair {
            column: usize::from(t.next.column.0),
            shift: t.next.shift,
        },
        finished: t.finished,
        looks: t.looks as usize,
    }
}

// The same match as `way_in` of `straying`: no crate below both sees the library's ways and the second finder's.
fn way_of(way: second::ways::Way) -> AnyWay {
    match way {
        second::ways::Way::Exact => AnyWay::Moved(Way::Exact),
        second::ways::Way::Octave => AnyWay::Moved(Way::Octave),
        second::ways::Way::Written => AnyWay::Written,
    }
}

fn bookmark_of(a: Ask) -> Bookmark {
    Bookmark {
        column: Column(a.column),
        shift: a.shift,
    }
}

pub fn ask_plain(case: Case<'_>, rooms: &mut Rooms, a: Ask) -> Result<Page, Denied> {
    let cells = first(case.cells, a.cells)?;
    let theme = first(case.theme, a.notes)?;
    let columns = first_mut(&mut rooms.columns, a.columns)?;
    let shifts = first_mut(&mut rooms.shifts, a.shifts)?;
    let way = way_of(a.way);
    let turn = plain_page(cells, a.h, theme, way, bookmark_of(a), columns, shifts)?;
    Ok(page_of(turn))
}

// A quick page, which only the ways that move a theme have.
pub fn ask_quick(case: Case<'_>, rooms: &mut Rooms, a: Ask) -> Result<Page, Denied> {
    let AnyWay::Moved(way) = way_of(a.way) else {
        return Err(Denied::Unasked);
    };
    let cells = first(case.cells, a.cells)?;
    let theme = first(case.theme, a.notes)?;
    let sets = first(case.sets, a.sets)?;
    let table = first_mut(&mut rooms.table, a.table)?;
    let columns = first_mut(&mut rooms.columns, a.columns)?;
    let shifts = first_mut(&mut rooms.shifts, a.shifts)?;
    let turn = quick_page(
        cells,
        a.h,
        theme,
        way,
        bookmark_of(a),
        sets,
        table,
        columns,
        shifts,
    )?;
    Ok(page_of(turn))
}
