// A page of a score with empty columns: they are taken out, the page goes along the others, and its columns get back the numbers
// that they have in the score.

ghost use Rattle.std.specs.Prelude.{◌≡◌, ◌≤◌, ◌<◌, eqb, length, get_or};
ghost use Rattle.score.specs.Score.{column_at};
ghost use Rattle.ways.specs.Way.{range_as};
ghost use Rattle.ways.specs.Bookmarks.{finished_bookmark};
ghost use Rattle.asking.specs.Asking.{PlainAsks, QuickAsks};
ghost use Rattle.paging.specs.Lent.{lent};
ghost use Rattle.search.specs.Page.{PlainPages, QuickPages};
ghost use Rattle.search.specs.Along.{among, Leaves, InScore};

use crate::along::{along_page, quick_along_page};
use paging::{Turn, turned};
use passing::{kept_sets, rank, rename, take_out};
use score::{Column, MOST_COLUMNS, Refusal, columns_in};
use ways::{AnyWay, Bookmark, Way};

// Whether this number, which is not 0, stands at a place.
fn stands_at(numbers: &[u16], at: usize, number: u16) -> bool
    requires { 1 ≤ number }
    ensures { result ≡ eqb (get_or numbers.now at 0) number }
{
    if at < numbers.len() {
        return numbers[at] == number;
    }
    false
}

// The columns with a pitch, by their numbers in a score of n columns, and the way in which the theme is sought along them.
#[derive(Clone, Copy)]
struct Heard<'a> {
    way: AnyWay,
    n: usize,
    numbers: &'a [u16],
    ghost columns_few: { n < 65536 },
    ghost numbers_few: { length numbers.now < 65535 },
}

impl Heard<'_> {
    // A bookmark of the score among these columns: at its own column, or, where that is none of them, at the lowest shift of the
    // next.
    fn among(&self, bookmark: Bookmark) -> Bookmark
        requires { 1 ≤ bookmark.column.0 }
        ensures { result ≡ among (range_as self.now.way) self.now.numbers.now bookmark }
    {
        let column = bookmark.column;
        let at = rank(self.numbers, column.0);
        if stands_at(self.numbers, at, column.0) {
            return Bookmark {
                column: Column((at + 1) as u16),
                shift: bookmark.shift,
            };
        }
        let first = Bookmark::first(self.way);
        Bookmark {
            column: Column((at + 1) as u16),
            shift: first.shift,
        }
    }

    // A page along these columns as one of the score: the columns that it wrote are renamed, and the answer is read off the
    // buffers anew.
    fn in_score(
        &self,
        page: Result<Turn, Refusal>,
        columns: &mut [u16],
        shifts: &[i16],
    ) -> Result<Turn, Refusal>
        ensures { InScore page (finished_bookmark (range_as self.now.way) (column_at self.now.n)) self.now.numbers.now
            columns.old shifts.now result columns.new }
    {
        let t = page?;
        rename(columns, t.written, self.numbers);
        let end = Bookmark::finished(self.way, Column(self.n as u16));
        Ok(turned(end, t.written, t.looks, columns, shifts))
    }
}

// The plain page. The cells that are kept go into the buffer. What is asked for tells of the buffers too, which are written: so
// it stays a clause here and in the quick page, and what is lent is passed on as it came.
pub fn passed_page(
    cells: &[u8],
    tracks: usize,
    theme: &[u8],
    way: AnyWay,
    bookmark: Bookmark,
    kept: &mut [u8],
    columns: &mut [u16],
    shifts: &mut [i16],
) -> Result<Turn, Refusal>
    requires plain_asks { PlainAsks cells.now tracks theme.now way bookmark columns.old shifts.old }
    requires leaves { Leaves cells.now tracks kept.old }
    ensures { PlainPages cells.now tracks theme.now way bookmark (lent columns.old shifts.old) result
        (lent columns.new shifts.new) }
{
    let mut all = [0u16; MOST_COLUMNS];
    let q = take_out(cells, tracks, kept, &mut all);
    let end = q * tracks;
    let numbers = &all[..q];
    let n = columns_in(cells, tracks);
    let heard = Heard { way, n, numbers };
    let b = heard.among(bookmark);
    let p = along_page(&kept[..end], tracks, theme, way, b, columns, shifts);
    heard.in_score(p, columns, shifts)
}

// The quick page. The entries of the columns that are kept go with them.
pub fn passed_quick_page(
    cells: &[u8],
    tracks: usize,
    theme: &[u8],
    way: Way,
    bookmark: Bookmark,
    sets: &[u16],
    table: &mut [u32],
    kept: &mut [u8],
    columns: &mut [u16],
    shifts: &mut [i16],
) -> Result<Turn, Refusal>
    requires quick_asks { QuickAsks cells.now tracks theme.now way bookmark sets.now table.old columns.old shifts.old }
    requires leaves { Leaves cells.now tracks kept.old }
    ensures { QuickPages cells.now tracks theme.now way bookmark sets.now table.old (lent columns.old shifts.old) result table.new
        (lent columns.new shifts.new) }
{
    let mut all = [0u16; MOST_COLUMNS];
    let q = take_out(cells, tracks, kept, &mut all);
    let end = q * tracks;
    let numbers = &all[..q];
    let last = q - 1;
    let mut entries = [0u16; MOST_COLUMNS];
    kept_sets(sets, &numbers[..last], &mut entries);
    let n = columns_in(cells, tracks);
    let heard = Heard {
        way: AnyWay::Moved(way),
        n,
        numbers,
    };
    let b = heard.among(bookmark);
    let p = quick_along_page(
        &kept[..end],
        tracks,
        theme,
        way,
        b,
        &entries[..last],
        table,
        columns,
        shifts,
    );
    heard.in_score(p, columns, shifts)
}
