// The library's route as plain numbers, on the part of the lent buffers that is asked for.

use judging::answers::{away_in, up_to};
use routing::route;
use score::Column;
use second::asks::Ask;
use second::away::Away;
use ways::{AnyWay, Pair, Way};

// The changes of a route, or what is turned away.
pub type Stray = Result<usize, Away>;

// The same match as `way_of` of `turning`: no crate below both sees the library's ways and the second finder's.
fn way_in(way: second::ways::Way) -> AnyWay {
    match way {
        second::ways::Way::Exact => AnyWay::Moved(Way::Exact),
        second::ways::Way::Octave => AnyWay::Moved(Way::Octave),
        second::ways::Way::Written => AnyWay::Written,
    }
}

// The room of a page's columns is the number of places lent.
pub fn ask_route(cells: &[u8], theme: &[u8], places: &mut [u8], a: Ask) -> Stray {
    let room = a.columns.min(places.len());
    let pair = Pair {
        column: Column(a.column),
        shift: a.shift,
    };
    let changes = route(
        up_to(cells, a.cells),
        a.h,
        up_to(theme, a.notes),
        way_in(a.way),
        pair,
        &mut places[..room],
    )
    .map_err(away_in)?;
    Ok(usize::from(changes))
}
