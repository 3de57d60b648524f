// Whether a pair is listed: the second finder searches from the pair on, and the first pair that it finds is this one.

use second::asks::{Ask, Call, Case};
use second::finder::next_pair;
use second::score::score_of;
use second::totals::{less_one, product};

// What is asked, with the score cut behind the last note. No later column has room for the theme then, and none is tried.
fn cut(cells: &[u8], a: Ask) -> Ask {
    let score = score_of(cells, a);
    let last = score.onward(usize::from(a.column), less_one(a.notes));
    let mut b = a;
    if last <= score.n {
        b.cells = product(last, a.h);
    }
    b
}

// A plain search looks at no sets.
pub fn listed(cells: &[u8], theme: &[u8], a: Ask) -> bool {
    let case = Case {
        cells,
        theme,
        sets: &[],
    };
    a.column != 0 && next_pair(case, cut(cells, a), Call::Plain, a.pair()).pair == Some(a.pair())
}
