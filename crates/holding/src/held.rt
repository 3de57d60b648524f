// Whether a column holds a note moved by a code's shift.

ghost use Rattle.std.specs.Prelude.{◌≡◌, ◌%◌, ◌≤◌, ◌&&◌, leb, eqb};
ghost use Rattle.theory.specs.Lists.{some};
ghost use Rattle.score.specs.Score.{pitches};
ghost use Rattle.ways.specs.Way.{holds};

use score::{Class, HIGHEST_PITCH, Pitch, class_of};
use ways::Way;

// Whether the column has this pitch.
fn has_pitch(column: &[u8], p: Pitch) -> bool
    requires { p.0 ≤ 127 }
    ensures { result ≡ some (λ t. eqb t.0 p.0) (pitches column.now) }
{
    column.iter().any(|&cell| cell == p.0)
}

// Whether the cell is a pitch of this class.
fn is_class(cell: u8, class: Class) -> bool
    ensures { result ≡ (leb cell 127 && eqb (cell % 12) class.0) }
{
    cell <= HIGHEST_PITCH && class_of(Pitch(cell)).0 == class.0
}

// Whether the column has a pitch of this class.
fn has_class(column: &[u8], class: Class) -> bool
    ensures { result ≡ some (λ t. eqb (t.0 % 12) class.0) (pitches column.now) }
{
    column.iter().any(|&cell| is_class(cell, class))
}

// Whether the column holds the note p moved by the code's shift. A note that is no pitch and a code that no bookmark has are
// sought all the same.
pub fn holds_at(column: &[u8], way: Way, code: u16, p: Pitch) -> bool
    ensures { result ≡ holds way code p column.now }
{
    let moved = p.0 as u32 + code as u32;
    match way {
        Way::Exact => {
            if moved < 127 || 254 < moved {
                false
            } else {
                has_pitch(column, Pitch((moved - 127) as u8))
            }
        }
        Way::Octave => has_class(column, Class((moved % 12) as u8)),
    }
}
