// Whether a theme has an interval that no set has.

ghost use Rattle.std.specs.Prelude.{◌≡◌};
ghost use Rattle.occurring.specs.Occurring.{lacking};

use score::{Pitch, interval_of};
use summing::Summary;

// Whether the summary lacks some interval of the theme: a bit of 1 says that it is in no set. It takes any theme, also one that
// is refused later.
pub fn lacks(theme: &[u8], summary: Summary) -> bool
    ensures { result ≡ lacking theme.now summary.0 }
{
    let mut lacks = false;
    for notes in theme.windows(2) {
        let d = interval_of(Pitch(notes[0]), Pitch(notes[1]));
        lacks |= (summary.0 >> d.0) & 1 == 1;
    }
    lacks
}
