// The definition in the requirement's own words, tried at every column and every shift, by signed differences.

ghost use Rattle.std.specs.Prelude.{◌≡◌, ◌+◌, ◌%◌, ◌^◌};
ghost use Rattle.second.specs.Shifts.{lowest_of};
ghost use Rattle.second.specs.Columns.{columns_in};

use crate::asks::{Ask, Call, Case, Pair};
use crate::score::{Score, score_of};
use crate::totals::{REST, apart, get_or, less_one, more, product, twelves};
use crate::ways::{Way, counted, lowest, shift_at, span};

// What comes first at or after a bookmark: a pair, where there is one, and the looks on the way.
#[derive(Clone, Copy)]
pub struct Found {
    pub pair: Option<Pair>,
    pub looks: usize,
}

// Where a list goes on that is over: one column behind the last.
pub fn list_end(a: Ask) -> Pair
    ensures column { result.column ≡ (columns_in a.cells a.h + 1) % 2 ^ 64 }
    ensures shift { result.shift ≡ lowest_of a.way }
{
    Pair {
        column: score_of(&[], a).behind(),
        shift: lowest(a.way),
    }
}

// Whether column j is the first of at least m columns with a pitch.
fn roomy(score: Score<'_>, j: usize, m: usize) -> bool {
    score.heard(j) && score.onward(j, less_one(m)) <= score.n
}

// How many notes stand at column j with shift c, from the first to the one before the first that is missing: the first in
// column j, each other one in the next column with a pitch. Where it is asked there are enough of them.
fn standing(score: Score<'_>, theme: &[u8], a: Ask, j: usize, c: i16) -> usize {
    let mut k = j;
    for (i, &note) in theme.iter().take(a.notes).enumerate() {
        if !score.holds(k, note, c, a.way) {
            return i;
        }
        k = score.next_heard(k);
    }
    a.notes
}

// The looks of a place at which so many notes stand: one for each note from the second to the first missing one, or to the last.
// Where the first is missing there is no start. A way that counts no looks has none.
fn looks_of(way: Way, stood: usize, m: usize) -> usize {
    if counted(way) {
        stood.min(less_one(m))
    } else {
        0
    }
}

// The first pair of column j from a shift on.
fn in_column(case: Case<'_>, a: Ask, j: usize, from: i16) -> Found {
    let score = score_of(case.cells, a);
    let mut looks: usize = 0;
    for s in 0..span(a.way) {
        let shift = shift_at(a.way, s);
        if from <= shift {
            let stood = standing(score, case.theme, a, j, shift);
            looks = more(looks, looks_of(a.way, stood, a.notes));
            if stood == a.notes {
                let pair = Some(Pair { column: j, shift });
                return Found { pair, looks };
            }
        }
    }
    Found { pair: None, looks }
}

// The interval from x up to y with octaves ignored: the d of 0 to 11 with y - x - d divisible by 12.
pub fn interval(x: u8, y: u8) -> u8 {
    (0..12u8)
        .find(|&d| twelves(apart(y, x, i16::from(d))))
        .unwrap_or(0)
}

// Whether bit d of a number is 1.
pub fn bit(x: usize, d: u8) -> bool {
    if d < 32 { (x >> d) % 2 == 1 } else { true }
}

// Whether each interval of the theme is in its set, which has a 0 at its bit: the first in that of column j, each other one in
// that of the next column with a pitch. The sets of the columns between are not looked at.
fn candidate(case: Case<'_>, a: Ask, j: usize) -> bool {
    let score = score_of(case.cells, a);
    let theme = case.theme;
    let mut k = j;
    for (&x, &y) in theme
        .iter()
        .zip(theme.iter().skip(1))
        .take(less_one(a.notes))
    {
        let set = get_or(case.sets, less_one(k), 0);
        if bit(usize::from(set), interval(x, y)) {
            return false;
        }
        k = score.next_heard(k);
    }
    true
}

// Whether a call tries column j: where it has a pitch and the theme has room from there on; quick only where it is a candidate.
fn reached(case: Case<'_>, a: Ask, call: Call, j: usize) -> bool {
    roomy(score_of(case.cells, a), j, a.notes) && (call != Call::Quick || candidate(case, a, j))
}

// The first pair at or after another one that a call finds.
pub fn next_pair(case: Case<'_>, a: Ask, call: Call, from: Pair) -> Found {
    let mut looks: usize = 0;
    let mut low = from.shift;
    for j in from.column..score_of(case.cells, a).behind() {
        if reached(case, a, call, j) {
            let found = in_column(case, a, j, low);
            looks = more(looks, found.looks);
            if found.pair.is_some() {
                let pair = found.pair;
                return Found { pair, looks };
            }
        }
        low = lowest(a.way);
    }
    Found { pair: None, looks }
}

// At how many of q columns the theme has room: q - m + 1, or 0 where it is longer.
pub fn starts_among(q: usize, m: usize) -> usize {
    if m <= q { more(q - m, 1) } else { 0 }
}

// The most looks of a whole list: (q - m + 1) * h * (m - 1), where q columns hold a pitch, or 0 where the theme has more notes
// or none are counted.
pub fn most_looks(cells: &[u8], a: Ask) -> usize {
    if !counted(a.way) {
        return 0;
    }
    let q = score_of(cells, a).heard_from(1);
    product(product(starts_among(q, a.notes), a.h), less_one(a.notes))
}

// Whether some pitch x of column k and y of column l have (y - x) mod 12 = d.
fn spans(score: Score<'_>, k: usize, l: usize, d: u8) -> bool {
    score.column(k).iter().any(|&x| x < 128 && score.holds(l, x, i16::from(d), Way::Octave))
}

// Whether a number is the set of column k: bit d is 0 exactly where d is an interval from column k to the next one with a pitch,
// and bits 12 to 15 are 0. Where none follows, there is no interval.
pub fn set_right(score: Score<'_>, k: usize, set: u16) -> bool {
    let l = score.next_heard(k);
    if score.n < l {
        return set == 4095;
    }
    set < 4096 && (0..12u8).all(|d| bit(usize::from(set), d) != spans(score, k, l, d))
}

// The interval from note i of a theme to the next, notes counted from 0.
fn interval_from(theme: &[u8], i: usize) -> u8 {
    interval(get_or(theme, i, REST), get_or(theme, more(i, 1), REST))
}

// Whether a word is the theme table's entry l: bit i is bit d of l, d the interval from note i + 1 to note i + 2, and the bits
// from m - 1 on are 1.
fn word_right(theme: &[u8], m: usize, l: usize, word: u32) -> bool {
    (0..32u8).all(|i| {
        let k = usize::from(i);
        bit(word as usize, i) == (less_one(m) <= k || bit(l, interval_from(theme, k)))
    })
}

// Whether the entries of a table are the theme's: all 4096 of them, or each 273rd where it is not looked at deeply.
pub fn table_right(theme: &[u8], m: usize, table: &[u32], deep: bool) -> bool {
    table
        .iter()
        .enumerate()
        .take(4096)
        .step_by(if deep { 1 } else { 273 })
        .all(|(l, &word)| word_right(theme, m, l, word))
}

// Whether so many sets are those of the score, from the first on.
pub fn sets_right(cells: &[u8], sets: &[u16], a: Ask) -> bool {
    let score = score_of(cells, a);
    sets.iter()
        .take(a.sets)
        .enumerate()
        .all(|(i, &set)| set_right(score, more(i, 1), set))
}
