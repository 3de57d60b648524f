// The search: as many pages as there are, each written out as it comes, and the line behind them.

ghost use Rattle.std.specs.Prelude.{◌≡◌, ◌≤◌, length};
ghost use Rattle.score.specs.Score.{score_of};
ghost use Rattle.score.specs.Sets.{sets as setsOf};
ghost use Rattle.asking.specs.Limits.{most_notes};
ghost use Rattle.asking.specs.Asking.{Accepted};
ghost use Rattle.paging.specs.Lent.{lent};
ghost use Rattle.telling.specs.Lines.{lines_of};
ghost use Rattle.telling.specs.Limits.{room};
ghost use Rattle.telling.specs.Steps.{Wrote, Room, PageTold};

use crate::limits::PAGE_PAIRS;
use crate::writing::Out;
use preparing::prepare;
use score::{MOST_COLUMNS, Refusal, TABLE_WORDS, columns_in};
use search::{Turn, plain_page, quick_page};
use ways::{AnyWay, Bookmark};

// What is sought, and where: an accepted score and theme, the way, and the score's own sets.
#[derive(Clone, Copy)]
struct Search<'a> {
    cells: &'a [u8],
    tracks: usize,
    theme: &'a [u8],
    way: AnyWay,
    sets: &'a [u16],
    ghost accepted: { Accepted most_notes cells.now tracks theme.now },
    ghost own: { sets.now ≡ setsOf (score_of cells.now tracks) },
}

// The buffers of a page stay beside each other here, as the two calls of `search` take them: a struct of them would be taken
// apart again at once.
impl Search<'_> {
    // One page of the search: a quick one, by the sets of the score; as the tune is written, a plain one.
    fn page(
        &self,
        bookmark: Bookmark,
        table: &mut [u32],
        columns: &mut [u16],
        shifts: &mut [i16],
    ) -> Result<Turn, Refusal>
        ensures { PageTold self.now.cells.now self.now.tracks self.now.theme.now self.now.way bookmark self.now.sets.now
            table.old (lent columns.old shifts.old) result (lent columns.new shifts.new) }
    {
        match self.way {
            AnyWay::Moved(w) => quick_page(
                self.cells,
                self.tracks,
                self.theme,
                w,
                bookmark,
                self.sets,
                table,
                columns,
                shifts,
            ),
            AnyWay::Written => plain_page(
                self.cells,
                self.tracks,
                self.theme,
                AnyWay::Written,
                bookmark,
                columns,
                shifts,
            ),
        }
    }

    // All pages, with room for some pairs in the two buffers, into the output from its front.
    fn pages(
        &self,
        table: &mut [u32],
        columns: &mut [u16],
        shifts: &mut [i16],
        out: &mut [u8],
    ) -> usize
        requires { Room table.old (lent columns.old shifts.old) out.old }
        ensures { Wrote (lines_of self.now.way (score_of self.now.cells.now self.now.tracks) self.now.theme.now) 0
            out.old result out.new }
    {
        let mut bookmark = Bookmark::first(self.way);
        let mut text = Out { bytes: out, at: 0 };
        let mut found: usize = 0;
        let mut looks: u32 = 0;
        loop {
            match self.page(bookmark, table, columns, shifts) {
                Ok(t) => {
                    text.hit_lines(columns, shifts, t.written);
                    found += t.written;
                    looks += t.looks;
                    bookmark = t.next;
                    if t.finished {
                        break;
                    }
                }
                Err(_) => break,
            }
        }
        text.end_line(found as u32, looks);
        text.at
    }
}

// Prepares the sets of an accepted score, and searches it, with room of its own for all that is between.
pub fn search_lines(cells: &[u8], tracks: usize, theme: &[u8], way: AnyWay, out: &mut [u8]) -> usize
    requires accepted { Accepted most_notes cells.now tracks theme.now }
    requires room_in_bounds { room ≤ length out.old }
    ensures { Wrote (lines_of way (score_of cells.now tracks) theme.now) 0 out.old result out.new }
{
    let mut any = [0u16; MOST_COLUMNS - 1];
    let last = columns_in(cells, tracks) - 1;
    // an accepted score is prepared, and the sets have their length
    let _ = prepare(cells, tracks, &mut any[..last]);
    let search = Search {
        cells,
        tracks,
        theme,
        way,
        sets: &any[..last],
    };
    let mut table = [0u32; TABLE_WORDS];
    let mut places = [0u16; PAGE_PAIRS];
    let mut shifts = [0i16; PAGE_PAIRS];
    search.pages(&mut table, &mut places, &mut shifts, out)
}
