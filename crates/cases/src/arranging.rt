// A job put into the lent buffers: its score, the sets of that score or of another one, its theme, and the changes to them.

use crate::edges::{fill_edge, fill_edge_theme};
use crate::random::fill_theme;
use gapped::drawing::fill;
use gapped::sparse::{fill_sparse, fill_sparse_theme};
use gapped::spelling::spell;
use gapped::spreads::{fill_spread, fill_spread_theme};
use jobs::buffers::{Cells, Sets, Theme};
use jobs::changes::{change_bytes, change_sets};
use jobs::job::{Job, Source};
use jobs::worked::{load, load_theme};
use judging::answers::ask_prepare;
use second::asks::Ask;

// Puts a score into the lent buffer.
fn put_score(cells: &mut Cells, source: Source, k: usize, a: Ask) {
    let many = a.cells;
    match source {
        Source::Worked => load(cells, k),
        Source::World => spell(cells, many, k, &[0, 12, 127, 255]),
        Source::Random => fill(cells, many, k),
        Source::Edge => fill_edge(cells, many, k),
        Source::Gaps => spell(cells, many, k, &[12, 127, 255]),
        Source::Beats => spell(cells, many, k, &[127, 255]),
        Source::Spread => fill_spread(cells, many, k),
        Source::Sparse => fill_sparse(cells, many, a.h, k),
    }
}

fn put_theme(cells: &[u8], theme: &mut Theme, source: Source, k: usize, a: Ask) {
    match source {
        Source::Worked => load_theme(theme, k),
        Source::World => spell(theme, 3, k, &[0, 12, 127]),
        Source::Random => fill_theme(cells, theme, a, k),
        Source::Edge => fill_edge_theme(theme, k),
        Source::Gaps | Source::Beats => spell(theme, 3, k, &[12, 127]),
        Source::Spread => fill_spread_theme(theme),
        Source::Sparse => fill_sparse_theme(cells, theme, a, k),
    }
}

// The score and its sets, with the changes to them, or the sets of another score.
pub fn arrange(cells: &mut Cells, sets: &mut Sets, j: Job) {
    put_score(cells, j.source, j.sets_of, j.a);
    let _ = ask_prepare(cells, sets, j.a);
    change_sets(sets, j.c);
    change_sets(sets, j.d);
    put_score(cells, j.source, j.score, j.a);
}

// The theme, and the changes to it and to the score.
pub fn arrange_theme(cells: &mut Cells, theme: &mut Theme, j: Job) {
    put_theme(cells, theme, j.source, j.theme, j.a);
    change_bytes(cells, theme, j.c);
    change_bytes(cells, theme, j.d);
}
