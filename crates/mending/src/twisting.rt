// A call on twists put into the lent buffers: score K, theme 60 62 64 and the sets, and then the twists.

use crate::arranging::lend_sets;
use crate::edit::Lent;
use crate::refused::{Asked, Twisted};
use crate::twists::{twist_column, twist_summary};
use jobs::buffers::{Cells, Sets, Theme};
use jobs::changes::{Change, change_bytes, change_sets};
use jobs::worked::{load, load_theme};
use judging::answers::ask_prepare;
use judging::marks::put_marks;
use second::asks::Ask;
use second::summaries::summary;
use second::totals::more;

// The lent sets before a twist: of a question the score's own, of an update wrong ones, so that whatever is written shows.
fn lent_in(asked: Asked) -> Lent {
    match asked {
        Asked::Question => Lent::Right,
        Asked::Update => Lent::Turned,
    }
}

fn put_sets(cells: &[u8], sets: &mut Sets, a: Ask, lent: Lent) {
    put_marks(sets, 0, more(a.sets, 1));
    let _ = ask_prepare(cells, sets, a);
    lend_sets(sets, a.sets, lent);
}

// A twist of what is lent.
fn twist(cells: &mut Cells, theme: &mut Theme, sets: &mut Sets, c: Option<Change>) {
    change_sets(sets, c);
    change_bytes(cells, theme, c);
}

pub fn arrange_twisted(cells: &mut Cells, theme: &mut Theme, sets: &mut Sets, t: Twisted) {
    load(cells, 0);
    load_theme(theme, 0);
    put_sets(cells, sets, t.a, lent_in(t.asked));
    twist(cells, theme, sets, t.c);
    twist(cells, theme, sets, t.d);
}

// The summary that is lent.
pub fn summary_in(sets: &[u16], t: Twisted) -> u16 {
    let right = summary(sets, t.a.sets);
    twist_summary(t.d, right, twist_summary(t.c, right, right))
}

// The changed column: the first, where no twist says another.
pub fn column_in(t: Twisted) -> u16 {
    twist_column(t.d, twist_column(t.c, 1))
}
