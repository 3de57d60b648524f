// The page call of the tune in its own key.

ghost use Rattle.std.specs.Prelude.{◌≡◌, ◌≤◌, ◌<◌};
ghost use Rattle.score.specs.Score.{column_at};
ghost use Rattle.ways.specs.Way.{range_as};
ghost use Rattle.ways.specs.Bookmarks.{finished_bookmark};
ghost use Rattle.asking.specs.Asking.{PlainAsks};
ghost use Rattle.paging.specs.Lent.{lent};
ghost use Rattle.paging.specs.Turning.{read_turn};
ghost use Rattle.written.specs.Written.{WrittenPages};
ghost use Rattle.written.specs.Walk.{passed, ListsFrom};

use crate::walk::list_from;
use crate::words::words_of;
use asking::check_plain;
use paging::{Turn, turned};
use score::{Column, Refusal, columns_in};
use ways::{AnyWay, Bookmark};

// How many columns lie before the first pair to consider, at this column and shift or later: a shift above 0 means the next
// column.
fn passed(column: Column, shift: i16) -> usize
    requires { 1 ≤ column.0 }
    ensures { result ≡ passed column.0 shift }
{
    let j = column.0 as usize;
    if 0 < shift { j } else { j - 1 }
}

// Lists what a page from the bookmark on shows, and gives how many pairs it wrote.
fn list(
    cells: &[u8],
    tracks: usize,
    theme: &[u8],
    bookmark: Bookmark,
    columns: &mut [u16],
    shifts: &mut [i16],
) -> usize
    requires { PlainAsks cells.now tracks theme.now AnyWay.Written bookmark columns.old shifts.old }
    ensures { ListsFrom cells.now tracks theme.now (passed bookmark.column.0 bookmark.shift) columns.old shifts.old result columns.new shifts.new }
{
    let words = words_of(theme);
    let column = bookmark.column;
    let from = passed(column, bookmark.shift);
    list_from(cells, tracks, theme, &words, from, columns, shifts)
}

// The answer after so many pairs were listed in a score of n columns. None costs a look.
fn answer(n: usize, found: usize, columns: &[u16], shifts: &[i16]) -> Turn
    requires { n < 65536 }
    ensures { result ≡ read_turn (finished_bookmark (range_as AnyWay.Written) (column_at n)) found 0 (lent columns.now shifts.now) }
{
    let end = Bookmark::finished(AnyWay::Written, Column(n as u16));
    turned(end, found, 0, columns, shifts)
}

// The first pairs at or after the bookmark, as many as there is room for, listed from the front of the buffers; what stands
// behind them stays. Refuses 1 to 5, 9 and 10, and then writes nothing.
pub fn written_page(
    cells: &[u8],
    tracks: usize,
    theme: &[u8],
    bookmark: Bookmark,
    columns: &mut [u16],
    shifts: &mut [i16],
) -> Result<Turn, Refusal>
    ensures { WrittenPages cells.now tracks theme.now bookmark (lent columns.old shifts.old) result (lent columns.new shifts.new) }
{
    check_plain(
        cells,
        tracks,
        theme,
        AnyWay::Written,
        bookmark,
        columns.len(),
        shifts.len(),
    )?;
    let found = list(cells, tracks, theme, bookmark, columns, shifts);
    Ok(answer(columns_in(cells, tracks), found, columns, shifts))
}
