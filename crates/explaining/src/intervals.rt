// The intervals of the theme beside the lent sets of the columns in which its notes are sought.

ghost use Rattle.std.specs.Prelude.{◌≡◌};
ghost use Rattle.explaining.specs.Explaining.{had, sifted_by};
ghost use Rattle.explaining.specs.Inner.{SetsThere};

use crate::answer::{Lacking, Sifted};
use score::{Pitch, interval_of};

// The lent sets beside a theme: each note but the last is sought in a column that has a set.
#[derive(Clone, Copy)]
pub struct Sieve<'a> {
    pub theme: &'a [u8],
    pub sets: &'a [u16],
    pub numbers: &'a [usize],
    ghost sets_there: { SetsThere theme.now sets.now numbers.now },
}

impl Sieve<'_> {
    // How many intervals come before the first that is not in the set of its column; all of them where there is none. It goes
    // from the last to the first, as with notes.
    #[tactic(auto, using(crate::proofs::Sifting::interval_lacks, crate::proofs::Sifting::interval_there))]
    fn first_lacking(&self) -> usize
        ensures { result ≡ had self.now.theme.now self.now.sets.now self.now.numbers.now }
    {
        let all = self.theme.len() - 1;
        let mut found = all;
        for i in (0..all).rev() {
            let d = interval_of(Pitch(self.theme[i]), Pitch(self.theme[i + 1]));
            let at = self.numbers[i] - 1;
            if (self.sets[at] >> d.0) & 1 == 1 {
                found = i;
            }
        }
        found
    }

    // What the sets make of a column that fits.
    pub fn sift(&self) -> Sifted
        ensures { result ≡ sifted_by self.now.theme.now self.now.sets.now self.now.numbers.now }
    {
        let k = self.first_lacking();
        let next = k + 1;
        if next < self.theme.len() {
            let size = interval_of(Pitch(self.theme[k]), Pitch(self.theme[next]));
            return Sifted::Dismissed(Lacking {
                number: next as u8,
                size,
            });
        }
        Sifted::Kept
    }
}
