// What a search turns away besides the score: the theme, the table, the room and the bookmark; the checks that calls share,
// and those of each call in order. Every check is total, and says what the rows of the table of refusals say.

ghost use Rattle.std.specs.Prelude.{◌≡◌, ◌||◌, ◌++◌, ◌+◌, eqb, ltb};
ghost use Rattle.theory.specs.Lists.{some, first};
ghost use Rattle.score.specs.Score.{columns_in};
ghost use Rattle.score.specs.Refusals.{verdict};
ghost use Rattle.ways.specs.Way.{range_of, range_as};
ghost use Rattle.asking.specs.Limits.{most_notes};
ghost use Rattle.asking.specs.Refusals.{bad_note, row10, theme_rows, request_rows, with_sets_rows, page_rows};

use crate::limits::MOST_NOTES;
use score::{
    Column, HIGHEST_PITCH, Refusal, Rule, TABLE_WORDS, check_score, check_sets, columns_in,
};
use ways::{AnyWay, Bookmark, Way, out_as};

// Refusals 1 to 5, for a score and a theme of `most` notes at most.
pub fn check_request(cells: &[u8], tracks: usize, theme: &[u8], most: usize) -> Result<(), Refusal>
    ensures { result ≡ verdict (request_rows most cells.now tracks theme.now) }
{
    check_score(cells, tracks)?;
    check_theme(theme, most)
}

// Refusals 1 to 5, 9 and 10, for a plain page with room r and as many shifts as `other`. What is asked stands apart, as C lends
// it and as the rows name it: a struct of what is lent would only be taken apart again in each row.
pub fn check_plain(
    cells: &[u8],
    tracks: usize,
    theme: &[u8],
    way: AnyWay,
    bookmark: Bookmark,
    r: usize,
    other: usize,
) -> Result<(), Refusal>
    ensures { result ≡ verdict (request_rows most_notes cells.now tracks theme.now ++ page_rows (range_as way) (columns_in cells.now tracks) bookmark r other) }
{
    check_request(cells, tracks, theme, MOST_NOTES)?;
    check_page(way, columns_in(cells, tracks), bookmark, r, other)
}

// Refusals 1 to 8, for a score and a theme with lent sets and a table as long as `table`.
pub fn check_with_sets(
    cells: &[u8],
    tracks: usize,
    theme: &[u8],
    sets: &[u16],
    table: usize,
) -> Result<(), Refusal>
    ensures { result ≡ verdict (with_sets_rows cells.now tracks theme.now sets.now table) }
{
    check_request(cells, tracks, theme, MOST_NOTES)?;
    check_sets(cells, tracks, sets)?;
    if table != TABLE_WORDS {
        return Err(Refusal::new(Rule::TableLength));
    }
    Ok(())
}

// Refusals 1 to 10, for a quick page with a table as long as `table`.
pub fn check_quick(
    cells: &[u8],
    tracks: usize,
    theme: &[u8],
    way: Way,
    bookmark: Bookmark,
    sets: &[u16],
    table: usize,
    r: usize,
    other: usize,
) -> Result<(), Refusal>
    ensures { result ≡ verdict (with_sets_rows cells.now tracks theme.now sets.now table ++ page_rows (range_of way) (columns_in cells.now tracks) bookmark r other) }
{
    check_with_sets(cells, tracks, theme, sets, table)?;
    let n = columns_in(cells, tracks);
    check_page(AnyWay::Moved(way), n, bookmark, r, other)
}

// Refusals 4 and 5: the number of notes, 2 to `most`, and the notes themselves.
pub fn check_theme(theme: &[u8], most: usize) -> Result<(), Refusal>
    ensures { result ≡ verdict (theme_rows most theme.now) }
{
    if (theme.len() < 2) | (most < theme.len()) {
        return Err(Refusal::new(Rule::Notes));
    }
    if any_bad_note(theme) {
        return Err(Refusal::at(Rule::Note, first_bad_note(theme)));
    }
    Ok(())
}

// Refusals 9 and 10: the room of the two buffers, and the bookmark.
pub fn check_page(
    way: AnyWay,
    n: usize,
    bookmark: Bookmark,
    r: usize,
    other: usize,
) -> Result<(), Refusal>
    ensures { result ≡ verdict (page_rows (range_as way) n bookmark r other) }
{
    if (r == 0) | (other != r) {
        return Err(Refusal::new(Rule::Room));
    }
    if bad_bookmark(way, n, bookmark) {
        return Err(Refusal::new(Rule::Bookmark));
    }
    Ok(())
}

// Whether the column is neither one of the n columns nor the one after them.
fn outside(column: Column, n: usize) -> bool
    ensures { result ≡ (eqb column.0 0 || ltb (n + 1) column.0) }
{
    let j = column.0 as usize;
    if j == 0 {
        return true;
    }
    n < j - 1
}

// Whether the bookmark has no column, or no shift, that a bookmark may have.
fn bad_bookmark(way: AnyWay, n: usize, bookmark: Bookmark) -> bool
    ensures { result ≡ (row10 (range_as way) n bookmark).applies }
{
    let column = bookmark.column;
    outside(column, n) | out_as(way, bookmark.shift)
}

fn bad_note(note: u8) -> bool
    ensures { result ≡ bad_note note }
{
    HIGHEST_PITCH < note
}

// Whether some note is bad. All are gone through whatever is found, so that many can be looked at together.
fn any_bad_note(theme: &[u8]) -> bool
    ensures { result ≡ some bad_note theme.now }
{
    theme.iter().fold(false, |bad, &note| bad | bad_note(note))
}

// The first note that is bad, or the number of notes where none is.
fn first_bad_note(theme: &[u8]) -> usize
    ensures { result ≡ first bad_note theme.now }
{
    theme
        .iter()
        .position(|&note| bad_note(note))
        .unwrap_or(theme.len())
}
