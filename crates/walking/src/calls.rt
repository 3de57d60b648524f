// The two walks of a page: plain, along every start, and quick, along the starts at candidates.

ghost use Rattle.walking.specs.Found.{PlainWalks, QuickWalks};

use crate::walk::{walk_candidates, walk_every};
use crate::walked::Walked;
use asking::{check_plain, check_quick};
use filter::fill_table;
use score::Refusal;
use ways::{AnyWay, Bookmark, Way};

// Walks from the bookmark on along every start and writes the hits from the front, until there is no room or no start left;
// places behind them keep their contents. Refuses 1 to 5, 9 and 10, and then writes nothing.
pub fn walk_plain(
    cells: &[u8],
    tracks: usize,
    theme: &[u8],
    way: Way,
    bookmark: Bookmark,
    columns: &mut [u16],
    shifts: &mut [i16],
) -> Result<Walked, Refusal>
    ensures { PlainWalks cells.now tracks theme.now way bookmark
        columns.old shifts.old result columns.new shifts.new }
{
    check_plain(
        cells,
        tracks,
        theme,
        AnyWay::Moved(way),
        bookmark,
        columns.len(),
        shifts.len(),
    )?;
    Ok(walk_every(cells, tracks, theme, way, bookmark, columns, shifts))
}

// The same along the starts whose column the sets make a candidate. Fills the theme's table first, whatever it held. Refuses
// 1 to 10, and then writes nothing.
pub fn walk_quick(
    cells: &[u8],
    tracks: usize,
    theme: &[u8],
    way: Way,
    bookmark: Bookmark,
    sets: &[u16],
    table: &mut [u32],
    columns: &mut [u16],
    shifts: &mut [i16],
) -> Result<Walked, Refusal>
    ensures { QuickWalks cells.now tracks theme.now way bookmark sets.now table.old
        columns.old shifts.old result table.new columns.new shifts.new }
{
    check_quick(
        cells,
        tracks,
        theme,
        way,
        bookmark,
        sets,
        table.len(),
        columns.len(),
        shifts.len(),
    )?;
    fill_table(theme, table);
    Ok(walk_candidates(
        cells, tracks, theme, way, bookmark, sets, table, columns, shifts,
    ))
}
