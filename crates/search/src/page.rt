// The two page calls: plain, of any way, and quick, which reaches the starts at candidates. Empty columns are passed over: most
// scores have none, and then the page goes along all columns. So it does where all are empty, and nothing is found.

ghost use Rattle.std.specs.Prelude.{◌≡◌};
ghost use Rattle.paging.specs.Lent.{lent};
ghost use Rattle.search.specs.Page.{PlainPages, QuickPages};
ghost use Rattle.search.specs.Along.{goes_along};

use crate::along::{along_page, quick_along_page};
use crate::passed::{passed_page, passed_quick_page};
use asking::{check_plain, check_quick};
use paging::Turn;
use passing::any_empty;
use passing::empties::is_empty;
use score::{MOST_CELLS, Refusal};
use ways::{AnyWay, Bookmark, Way};

// So few cells go into a small buffer, which is made ready sooner.
const FEW: usize = 2048;

// Whether a page goes along all columns: none of them is empty, or no cell is a pitch.
fn goes_along(cells: &[u8], tracks: usize) -> bool
    ensures { result ≡ goes_along cells.now tracks }
{
    if any_empty(cells, tracks) {
        return is_empty(cells);
    }
    true
}

// The first pairs at or after the bookmark, as many as there is room for, written from the front; places behind them keep
// their contents. Refuses 1 to 5, 9 and 10, and then writes nothing.
pub fn plain_page(
    cells: &[u8],
    tracks: usize,
    theme: &[u8],
    way: AnyWay,
    bookmark: Bookmark,
    columns: &mut [u16],
    shifts: &mut [i16],
) -> Result<Turn, Refusal>
    ensures { PlainPages cells.now tracks theme.now way bookmark (lent columns.old shifts.old) result (lent columns.new shifts.new) }
{
    if goes_along(cells, tracks) {
        return along_page(cells, tracks, theme, way, bookmark, columns, shifts);
    }
    check_plain(
        cells,
        tracks,
        theme,
        way,
        bookmark,
        columns.len(),
        shifts.len(),
    )?;
    if cells.len() <= FEW {
        let mut few = [0u8; FEW];
        return passed_page(
            cells, tracks, theme, way, bookmark, &mut few, columns, shifts,
        );
    }
    let mut kept = [0u8; MOST_CELLS];
    passed_page(
        cells, tracks, theme, way, bookmark, &mut kept, columns, shifts,
    )
}

// The first pairs of those whose column the sets make a candidate, which with the score's own sets are all. Fills the theme's
// table, whatever it held. Refuses 1 to 10, and then writes nothing.
pub fn quick_page(
    cells: &[u8],
    tracks: usize,
    theme: &[u8],
    way: Way,
    bookmark: Bookmark,
    sets: &[u16],
    table: &mut [u32],
    columns: &mut [u16],
    shifts: &mut [i16],
) -> Result<Turn, Refusal>
    ensures { QuickPages cells.now tracks theme.now way bookmark sets.now table.old (lent columns.old shifts.old) result table.new (lent columns.new shifts.new) }
{
    if goes_along(cells, tracks) {
        return quick_along_page(
            cells, tracks, theme, way, bookmark, sets, table, columns, shifts,
        );
    }
    check_quick(
        cells,
        tracks,
        theme,
        way,
        bookmark,
        sets,
        table.len(),
        columns.len(),
        shifts.len(),
    )?;
    if cells.len() <= FEW {
        let mut few = [0u8; FEW];
        return passed_quick_page(
            cells, tracks, theme, way, bookmark, sets, table, &mut few, columns, shifts,
        );
    }
    let mut kept = [0u8; MOST_CELLS];
    passed_quick_page(
        cells, tracks, theme, way, bookmark, sets, table, &mut kept, columns, shifts,
    )
}
