// The second router's answer. The pair is the column and the shift of what is asked, and the room of its columns is the number of
// places lent for the route.

use crate::ahead::by_ahead;
use crate::every::{by_every, routes_over};
use crate::pairs::listed;
use crate::paths::Best;
use crate::spots::tracks_held;
use second::asks::Ask;
use second::away::{Away, of_score, of_theme, row_where};

// The methods: every route, or what lies ahead. Named and not passed as a closure: what a method reads is this crate's alone.
#[derive(Clone, Copy)]
pub enum Method {
    Every,
    Ahead,
}

// A route, or what is turned away.
pub type Detour = Result<Best, Away>;

// The most routes that are all tried.
const FEW: usize = 1024;

// Whether every route can be tried.
pub fn few_routes(a: Ask) -> bool {
    (1..=FEW).contains(&routes_over(a.h, a.notes))
}

// What is turned away: 1 to 5, then 13, a pair that is not listed, then 14, too few places.
fn barred(cells: &[u8], theme: &[u8], a: Ask) -> Result<(), Away> {
    of_score(cells, a.cells, a.h)?;
    of_theme(theme, a.notes)?;
    row_where(13, !listed(cells, theme, a))?;
    row_where(14, a.columns < a.notes)
}

pub fn second_route(cells: &[u8], theme: &[u8], a: Ask, method: Method) -> Detour {
    barred(cells, theme, a)?;
    let held = tracks_held(cells, theme, a);
    Ok(match method {
        Method::Every => by_every(&held, a.h, a.notes),
        Method::Ahead => by_ahead(&held, a.h, a.notes),
    })
}
