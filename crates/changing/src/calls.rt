// The library's question and update, each on the part of the lent buffers that is asked for, with the answer as plain numbers.

use judging::answers::{Denied, first, first_mut};
use occurring::occurs;
use score::Column;
use second::asks::{Ask, Case};
use summing::Summary;
use updating::update;
use ways::Way;

pub fn ask_update(cells: &[u8], sets: &mut [u16], a: Ask, column: u16) -> Result<u16, Denied> {
    let cells = first(cells, a.cells)?;
    let sets = first_mut(sets, a.sets)?;
    let summary = update(cells, a.h, Column(column), sets)?;
    Ok(summary.0)
}

// A question, which only the ways that move a theme have.
pub fn ask_question(
    case: Case<'_>,
    table: &mut [u32],
    a: Ask,
    summary: u16,
) -> Result<bool, Denied> {
    let way = match a.way {
        second::ways::Way::Exact => Way::Exact,
        second::ways::Way::Octave => Way::Octave,
        second::ways::Way::Written => return Err(Denied::Unasked),
    };
    let cells = first(case.cells, a.cells)?;
    let theme = first(case.theme, a.notes)?;
    let sets = first(case.sets, a.sets)?;
    let table = first_mut(table, a.table)?;
    let somewhere = occurs(cells, a.h, theme, way, sets, Summary(summary), table)?;
    Ok(somewhere)
}
