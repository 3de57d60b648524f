// The first code, from one on, at which a column holds a note: in one pass over its cells.

ghost use Rattle.std.specs.Prelude.{◌≡◌, ◌≤◌};
ghost use Rattle.ways.specs.Way.{span};
ghost use Rattle.holding.specs.Next.{code_between, lowered, next_code, next_given};

use score::{HIGHEST_PITCH, Pitch};
use ways::{Way, span_of};

// The code at which the note p comes to stand on the pitch t.
fn code_between(way: Way, p: Pitch, t: Pitch) -> u16
    requires { (p.0 ≤ 127) × (t.0 ≤ 127) }
    ensures { result ≡ code_between way p t }
{
    let from = u16::from(p.0);
    let to = u16::from(t.0);
    match way {
        Way::Exact => to + 127 - from,
        Way::Octave => (to + 132 - from) % 12,
    }
}

// The lower of `best` and the cell's code, which counts only where the cell is a pitch and its code is x or more.
fn lowered(way: Way, p: Pitch, x: u16, best: u16, cell: u8) -> u16
    requires { p.0 ≤ 127 }
    ensures { result ≡ lowered way p x best cell }
{
    if HIGHEST_PITCH < cell {
        return best;
    }
    let code = code_between(way, p, Pitch(cell));
    if code < x { best } else { best.min(code) }
}

// The first code from x on at which the column holds the pitch p; the way's span where there is none.
fn lowest_code(column: &[u8], way: Way, p: Pitch, x: u16) -> u16
    requires { (p.0 ≤ 127) × (x ≤ span way) }
    ensures { result ≡ next_code way p column.now x }
{
    let mut best = span_of(way);
    for &cell in column {
        best = lowered(way, p, x, best, cell);
    }
    best
}

// The first code from x on at which the column holds the note p; the way's span where there is none, where p is no pitch, and
// where x is past the span.
pub fn next_code(column: &[u8], way: Way, p: Pitch, x: u16) -> u16
    ensures { result ≡ next_given way p column.now x }
{
    let end = span_of(way);
    if HIGHEST_PITCH < p.0 || end < x {
        end
    } else {
        lowest_code(column, way, p, x)
    }
}
