// Columns with a pitch, by class sets: a class set of 0 is that of an empty column. `sets` learns here where a set goes to.

ghost use Rattle.std.specs.Prelude.{◌≡◌, ◌≤◌, length};
ghost use Rattle.theory.specs.Lists.{some};
ghost use Rattle.score.specs.Limits.{most_columns};
ghost use Rattle.preparing.specs.Classes.{is_empty, Carried};

use score::MOST_COLUMNS;

// Whether some class set is that of an empty column. All are gone through whatever is found, so that many can be looked at
// together.
pub fn any_empty(others: &[u16]) -> bool
    ensures { result ≡ some is_empty others.now }
{
    others.iter().fold(false, |empty, &set| empty | (set == 0))
}

// For each place the first class set from there on that is not 0, carried from the last place to the first; 0 where none is.
pub fn carry(others: &[u16]) -> [u16; MOST_COLUMNS]
    requires { length others.now ≤ most_columns }
    ensures { Carried others.now result }
{
    let mut later = [0u16; MOST_COLUMNS];
    let mut next: u16 = 0;
    for k in (0..others.len()).rev() {
        let own = others[k];
        if own != 0 {
            next = own;
        }
        later[k] = next;
    }
    later
}
