// A page along all columns of a score, one after another: of any way, and of the starts at candidates.

ghost use Rattle.std.specs.Prelude.{◌≡◌, ◌<◌};
ghost use Rattle.score.specs.Score.{column_at};
ghost use Rattle.ways.specs.Way.{range_of};
ghost use Rattle.ways.specs.Bookmarks.{finished_bookmark};
ghost use Rattle.paging.specs.Lent.{lent};
ghost use Rattle.paging.specs.Turning.{read_turn};
ghost use Rattle.search.specs.Along.{AlongPages, QuickAlongPages};

use paging::{Turn, turned};
use score::{Column, Refusal, columns_in};
use walking::{Walked, walk_plain, walk_quick};
use ways::{AnyWay, Bookmark, Way};
use written::written_page;

// The first pairs at or after the bookmark, as many as there is room for, each note of a pair in the column after the one before.
pub fn along_page(
    cells: &[u8],
    tracks: usize,
    theme: &[u8],
    way: AnyWay,
    bookmark: Bookmark,
    columns: &mut [u16],
    shifts: &mut [i16],
) -> Result<Turn, Refusal>
    ensures { AlongPages cells.now tracks theme.now way bookmark (lent columns.old shifts.old) result (lent columns.new shifts.new) }
{
    match way {
        AnyWay::Moved(w) => moved_page(cells, tracks, theme, w, bookmark, columns, shifts),
        AnyWay::Written => written_page(cells, tracks, theme, bookmark, columns, shifts),
    }
}

// The same of a way that moves the theme: every start is tried.
fn moved_page(
    cells: &[u8],
    tracks: usize,
    theme: &[u8],
    way: Way,
    bookmark: Bookmark,
    columns: &mut [u16],
    shifts: &mut [i16],
) -> Result<Turn, Refusal>
    ensures { AlongPages cells.now tracks theme.now (AnyWay.Moved way) bookmark (lent columns.old shifts.old) result (lent columns.new shifts.new) }
{
    let w = walk_plain(cells, tracks, theme, way, bookmark, columns, shifts)?;
    Ok(turn_of(way, columns_in(cells, tracks), w, columns, shifts))
}

// The same at the columns that the sets make candidates.
pub fn quick_along_page(
    cells: &[u8],
    tracks: usize,
    theme: &[u8],
    way: Way,
    bookmark: Bookmark,
    sets: &[u16],
    table: &mut [u32],
    columns: &mut [u16],
    shifts: &mut [i16],
) -> Result<Turn, Refusal>
    ensures { QuickAlongPages cells.now tracks theme.now way bookmark sets.now table.old (lent columns.old shifts.old) result table.new (lent columns.new shifts.new) }
{
    let w = walk_quick(
        cells, tracks, theme, way, bookmark, sets, table, columns, shifts,
    )?;
    Ok(turn_of(way, columns_in(cells, tracks), w, columns, shifts))
}

// The answer after a walk through n columns.
fn turn_of(way: Way, n: usize, w: Walked, columns: &[u16], shifts: &[i16]) -> Turn
    requires { n < 65536 }
    ensures { result ≡ read_turn (finished_bookmark (range_of way) (column_at n)) w.found w.looks (lent columns.now shifts.now) }
{
    let end = Bookmark::finished(AnyWay::Moved(way), Column(n as u16));
    turned(end, w.found, w.looks, columns, shifts)
}
