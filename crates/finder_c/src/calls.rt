// The exported calls. A slice is a pointer and a length in C, and a number is itself. No call asks anything of its caller
// but that the memory lent is there: what cannot be answered is refused, and a refused call writes nothing.

ghost use Rattle.paging.specs.Lent.{lent};
ghost use Rattle.finder_c.specs.Calls.{CPrepares, CUpdates, COccurs, CPlainPages, CQuickPages, CExplains, CRoutes};

use crate::limits::{ANSWER_NUMBERS, EXPLAIN_NUMBERS, NOT_CALLED, OCTAVE, ONE_NUMBER, WRITTEN};
use crate::reasons::told_explanation;
use crate::single::{of_occurrence, of_routed, of_summary};
use crate::told::{any_way_of, no_answer, no_call, told_page, told_single, way_of};
use explaining::explain;
use occurring::occurs;
use preparing::prepare;
use routing::route;
use score::Column;
use search::{Bookmark, Pair, plain_page, quick_page};
use summing::Summary;
use updating::update;

// Fills all n - 1 sets of the score: 0, and their summary in `answer`. Otherwise the refusal, 1, 2, 3 or 6, as number +
// 256 * place; or 255 where `answer` is not 1 long.
#[unsafe(no_mangle)]
pub extern "C" fn finder_prepare(
    cells: &[u8],
    tracks: usize,
    sets: &mut [u16],
    answer: &mut [i64],
) -> i64
    ensures { CPrepares cells.now tracks sets.old answer.old result sets.new answer.new }
{
    if no_answer(ONE_NUMBER, answer.len()) {
        return NOT_CALLED;
    }
    let p = prepare(cells, tracks, sets);
    told_single(of_summary(p), answer)
}

// Brings the sets up to date after `column` of the score was changed: 0, and their summary in `answer`. Otherwise the refusal, 1,
// 2, 3, 6, 7 or 19, as number + 256 * place; or 255 where `answer` is not 1 long.
#[unsafe(no_mangle)]
pub extern "C" fn finder_update(
    cells: &[u8],
    tracks: usize,
    column: u16,
    sets: &mut [u16],
    answer: &mut [i64],
) -> i64
    ensures { CUpdates cells.now tracks column sets.old answer.old result sets.new answer.new }
{
    if no_answer(ONE_NUMBER, answer.len()) {
        return NOT_CALLED;
    }
    let c = update(cells, tracks, Column(column), sets);
    told_single(of_summary(c), answer)
}

// Whether the theme stands anywhere, in exact or octave, with the prepared sets of the score and their summary: 0, and 1 or 0 for
// yes or no in `answer`; the theme's table is left in `table`. Otherwise the refusal, 1 to 8 or 12, as number + 256 * place; or
// 255 where `way` is above 1 or `answer` is not 1 long.
#[unsafe(no_mangle)]
pub extern "C" fn finder_occurs(
    cells: &[u8],
    tracks: usize,
    theme: &[u8],
    way: u8,
    sets: &[u16],
    summary: u16,
    table: &mut [u32],
    answer: &mut [i64],
) -> i64
    ensures { COccurs cells.now tracks theme.now way sets.now summary table.old answer.old result table.new answer.new }
{
    if no_call(OCTAVE, way, ONE_NUMBER, answer.len()) {
        return NOT_CALLED;
    }
    let o = occurs(
        cells,
        tracks,
        theme,
        way_of(way),
        sets,
        Summary(summary),
        table,
    );
    told_single(of_occurrence(o), answer)
}

// A plain page of a way, 0 exact, 1 octave, 2 written, from the bookmark (column, shift): 0, and the five numbers of the page
// in `answer`. Otherwise the refusal, 1 to 5, 9 or 10, as number + 256 * place; or 255 where `way` is above 2 or `answer` is not
// 5 long.
#[unsafe(no_mangle)]
pub extern "C" fn finder_plain_page(
    cells: &[u8],
    tracks: usize,
    theme: &[u8],
    way: u8,
    column: u16,
    shift: i16,
    columns: &mut [u16],
    shifts: &mut [i16],
    answer: &mut [i64],
) -> i64
    ensures { CPlainPages cells.now tracks theme.now way column shift (lent columns.old shifts.old) answer.old result (lent columns.new shifts.new) answer.new }
{
    if no_call(WRITTEN, way, ANSWER_NUMBERS, answer.len()) {
        return NOT_CALLED;
    }
    let bookmark = Bookmark {
        column: Column(column),
        shift,
    };
    let p = plain_page(
        cells,
        tracks,
        theme,
        any_way_of(way),
        bookmark,
        columns,
        shifts,
    );
    told_page(p, answer)
}

// A quick page: the same of exact and octave, with the prepared sets of the score; the theme's table is left in `table`.
// Refuses 1 to 10; way 2 gives 255.
#[unsafe(no_mangle)]
pub extern "C" fn finder_quick_page(
    cells: &[u8],
    tracks: usize,
    theme: &[u8],
    way: u8,
    column: u16,
    shift: i16,
    sets: &[u16],
    table: &mut [u32],
    columns: &mut [u16],
    shifts: &mut [i16],
    answer: &mut [i64],
) -> i64
    ensures { CQuickPages cells.now tracks theme.now way column shift sets.now table.old (lent columns.old shifts.old) answer.old result table.new (lent columns.new shifts.new) answer.new }
{
    if no_call(OCTAVE, way, ANSWER_NUMBERS, answer.len()) {
        return NOT_CALLED;
    }
    let bookmark = Bookmark {
        column: Column(column),
        shift,
    };
    let asked = way_of(way);
    let p = quick_page(
        cells, tracks, theme, asked, bookmark, sets, table, columns, shifts,
    );
    told_page(p, answer)
}

// Why the pair (column, shift) is listed or not, in exact or octave, and what the lent sets, which may be of any score, make of
// its column: 0, and 69 numbers in `answer`. First the reason: 0 listed, 1 the shift, 2 column 0, 3 too few columns, 4 an
// empty column, 5 a note outside 0 to 127, 6 a note absent; then the number of that note, or 0. Then what the sets make of the
// column: 0 nothing, 1 kept, 2 dismissed; and the number and the size of the interval that dismisses it, or 0 and 0. Last the
// 64 tracks. Otherwise the refusal, 1 to 7, as number + 256 * place; or 255 where `way` is above 1 or `answer` is not 69 long.
#[unsafe(no_mangle)]
pub extern "C" fn finder_explain(
    cells: &[u8],
    tracks: usize,
    theme: &[u8],
    way: u8,
    column: u16,
    shift: i16,
    sets: &[u16],
    answer: &mut [i64],
) -> i64
    ensures { CExplains cells.now tracks theme.now way column shift sets.now answer.old result answer.new }
{
    if no_call(OCTAVE, way, EXPLAIN_NUMBERS, answer.len()) {
        return NOT_CALLED;
    }
    let pair = Pair {
        column: Column(column),
        shift,
    };
    let e = explain(cells, tracks, theme, way_of(way), pair, sets);
    told_explanation(e, answer)
}

// The route of the pair (column, shift), in exact, octave or written: 0, the number of its changes in `answer`, and over the
// front of `places`, which the header calls `route`, a track from 1 for each note; the places behind keep what they hold.
// Otherwise the refusal, 1 to 5, 13 or 14, as number + 256 * place; or 255 where `way` is above 2 or `answer` is not 1 long.
#[unsafe(no_mangle)]
pub extern "C" fn finder_route(
    cells: &[u8],
    tracks: usize,
    theme: &[u8],
    way: u8,
    column: u16,
    shift: i16,
    places: &mut [u8],
    answer: &mut [i64],
) -> i64
    ensures { CRoutes cells.now tracks theme.now way column shift places.old answer.old result places.new answer.new }
{
    if no_call(WRITTEN, way, ONE_NUMBER, answer.len()) {
        return NOT_CALLED;
    }
    let pair = Pair {
        column: Column(column),
        shift,
    };
    let any = any_way_of(way);
    let a = route(cells, tracks, theme, any, pair, places);
    told_single(of_routed(a), answer)
}
