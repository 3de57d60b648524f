// The intervals of a theme beside the lent sets.

use crate::answers::Screened;
use crate::columns::column_of;
use second::asks::{Ask, Case};
use second::finder::{bit, interval};
use second::totals::{get_or, less_one, more};

// Each interval beside the set of the column in which it begins: the first whose bit is 1 is not there.
pub fn by_intervals(case: Case<'_>, a: Ask) -> Screened {
    let theme = case.theme;
    let steps = theme.iter().zip(theme.iter().skip(1));
    for (before, (&x, &y)) in steps.take(less_one(a.notes)).enumerate() {
        let number = more(before, 1);
        let size = interval(x, y);
        let set = get_or(case.sets, less_one(column_of(case.cells, a, number)), 0);
        if bit(usize::from(set), size) {
            return Screened::Dismissed {
                interval: number,
                size,
            };
        }
    }
    Screened::Kept
}
