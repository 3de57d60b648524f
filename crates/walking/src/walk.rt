// The walks from a bookmark, along every column or along candidates: columns are listed, some at a time, and walked along.

ghost use Rattle.std.specs.Prelude.{◌≡◌, ◌+◌, ◌-◌, ◌≤◌, length};
ghost use Rattle.asking.specs.Asking.{PlainAsks, QuickAsks};
ghost use Rattle.walking.specs.Alive.{Cached};
ghost use Rattle.theory.specs.Lists.{count as numbers};
ghost use Rattle.walking.specs.Walk.{Along, TriesList, WalksEvery, WalksCandidates, listed, end_of};

use crate::alive::try_all;
use crate::register::Entries;
use crate::ring::Ring;
use crate::tune::Tune;
use crate::walked::{Spot, Walked};
use score::{Column, columns_in};
use ways::{AnyWay, Bookmark, Way};

// How many columns are listed at a time at most.
const LISTED: usize = 64;

// For so many looks taken, one more candidate is listed at a time.
const LOOKS_AHEAD: usize = 16;

// Tries the listed columns one after another, until none is left or no room. The spot's code counts on its own column only.
fn walk_along(
    tune: &Tune,
    spot: Spot,
    list: &[u16],
    columns: &mut [u16],
    shifts: &mut [i16],
    ring: &mut Ring,
) -> Walked
    requires along { Along tune.now.way tune.now.cells.now tune.now.tracks tune.now.theme.now spot list.now
        columns.old shifts.old }
    requires cached { Cached tune.now.way tune.now.cells.now tune.now.tracks ring.old }
    ensures { TriesList tune.now.way tune.now.cells.now tune.now.tracks tune.now.theme.now spot list.now
        columns.old shifts.old result columns.new shifts.new × Cached tune.now.way tune.now.cells.now tune.now.tracks ring.new }
{
    // a copy that no write to the buffers can reach, so that its fields stay in registers
    let own = *tune;
    let mut found = spot.found;
    let mut looks: u32 = 0;
    for &column in list {
        if found == columns.len() {
            break;
        }
        let next = spot.at(Column(column), found);
        let t = try_all(&own, next, columns, shifts, ring);
        found = t.found;
        looks += t.looks;
    }
    Walked { found, looks }
}

// Lists as many columns as the list has places, from the first on.
fn list_every(first: Column, list: &mut [u16])
    requires { first.0 + length list.old ≤ 65535 }
    ensures { list.new ≡ numbers first.0 (length list.old) }
{
    for (i, place) in list.iter_mut().enumerate() {
        *place = first.0 + i as u16;
    }
}

// How many columns, from this one on, the theme has room in.
fn columns_left(tune: &Tune, column: Column) -> usize
    ensures { result ≡ end_of tune.now.cells.now tune.now.tracks tune.now.theme.now - column.0 }
{
    let past = columns_in(tune.cells, tune.tracks) + 2;
    past.saturating_sub(tune.theme.len() + column.0 as usize)
}

// Walks along every column, until the page is full or no start is left.
pub fn walk_every(
    cells: &[u8],
    tracks: usize,
    theme: &[u8],
    way: Way,
    bookmark: Bookmark,
    columns: &mut [u16],
    shifts: &mut [i16],
) -> Walked
    requires { PlainAsks cells.now tracks theme.now (AnyWay.Moved way) bookmark columns.old shifts.old }
    ensures { WalksEvery way cells.now tracks theme.now bookmark
        columns.old shifts.old result columns.new shifts.new }
{
    let tune = Tune {
        cells,
        tracks,
        theme,
        way,
    };
    let mut spot = Spot::begin(way, bookmark);
    let mut left = columns_left(&tune, spot.column);
    let mut looks: u32 = 0;
    let mut ring = Ring::new();
    let mut list = [0u16; LISTED];
    // a turn walks along as many columns as it lists
    while 0 < left && spot.found < columns.len() {
        let many = left.min(LISTED);
        let some = &mut list[..many];
        list_every(spot.column, some);
        left -= many;
        let t = walk_along(&tune, spot, some, columns, shifts, &mut ring);
        looks += t.looks;
        spot = spot.go_on(many, t.found);
    }
    Walked {
        found: spot.found,
        looks,
    }
}

// How many candidates are listed at a time: as many as there is room for pairs, so that a page which fills early does not seek
// candidates that it never tries; and more of them the more looks there were, since a page that does not fill tries them all.
fn wanted_of(room: usize, looks: u32) -> usize
    requires { 1 ≤ room }
    ensures { (1 ≤ result) × (result ≤ listed) }
{
    room.saturating_add(looks as usize / LOOKS_AHEAD)
        .min(LISTED)
}

// The same along candidates. The register begins anew at the bookmark's column. It shares its inner functions with the walk along
// every column; between them stand the sets, the table and the register, which that one has not.
pub fn walk_candidates(
    cells: &[u8],
    tracks: usize,
    theme: &[u8],
    way: Way,
    bookmark: Bookmark,
    sets: &[u16],
    table: &[u32],
    columns: &mut [u16],
    shifts: &mut [i16],
) -> Walked
    requires { QuickAsks cells.now tracks theme.now way bookmark sets.now table.now columns.old shifts.old }
    ensures { WalksCandidates way cells.now tracks theme.now bookmark sets.now table.now
        columns.old shifts.old result columns.new shifts.new }
{
    let m = theme.len();
    let tune = Tune {
        cells,
        tracks,
        theme,
        way,
    };
    let mut spot = Spot::begin(way, bookmark);
    let mut left = columns_left(&tune, spot.column);
    let mut looks: u32 = 0;
    // what follows is made ready only where a column is left
    if left == 0 {
        return Walked {
            found: spot.found,
            looks,
        };
    }
    let entries = Entries { sets, table };
    let mut register = entries.warmed(spot.column.0 as usize - 1, m - 2);
    let mut ring = Ring::new();
    let mut list = [0u16; LISTED];
    // a turn walks along as many columns as it lists
    while 0 < left && spot.found < columns.len() {
        let wanted = wanted_of(columns.len() - spot.found, looks);
        let l = entries.list_candidates(register, m, spot.column, left, wanted, &mut list);
        register = l.register;
        left -= l.passed;
        let t = walk_along(&tune, spot, &list[..l.count], columns, shifts, &mut ring);
        looks += t.looks;
        spot = spot.go_on(l.passed, t.found);
    }
    Walked {
        found: spot.found,
        looks,
    }
}
