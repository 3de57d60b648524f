// The router: the route of a listed pair.

ghost use Rattle.routing.specs.Routing.{Routes};

use crate::choosing::write_route;
use crate::fewest::NoteSets;
use crate::standing::held_at;
use crate::tune::Tune;
use asking::{MOST_NOTES, check_request};
use score::{Refusal, Rule};
use ways::{AnyWay, Pair};

// The route of the pair: a track from 1 for each note, with the fewest changes of track; of several with as few, the one whose
// numbers come first, compared from the first note on. It is written over the front of the buffer, one place for each note; those
// behind keep what they hold. Gives the number of changes. Refuses 1 to 5; then 13, a pair that is not listed; then 14, a buffer
// shorter than the theme. A refused call writes nothing.
pub fn route(
    cells: &[u8],
    tracks: usize,
    theme: &[u8],
    way: AnyWay,
    pair: Pair,
    route: &mut [u8],
) -> Result<u8, Refusal>
    ensures { Routes cells.now tracks theme.now way pair route.old result route.new }
{
    check_request(cells, tracks, theme, MOST_NOTES)?;
    let tune = Tune {
        cells,
        tracks,
        theme,
    };
    let mut sets = [0u32; MOST_NOTES];
    if !held_at(&tune, way, pair, &mut sets) {
        return Err(Refusal::new(Rule::Listed));
    }
    let m = theme.len();
    if route.len() < m {
        return Err(Refusal::new(Rule::RouteRoom));
    }
    let notes = NoteSets { sets: &sets[..m] };
    Ok(write_route(&notes, route))
}
