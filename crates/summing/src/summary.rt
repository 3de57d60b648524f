// The summary, and how it is made: the and of all sets, since a bit of 0 says that the interval is there.

ghost use Rattle.std.specs.Prelude.{◌≡◌};
ghost use Rattle.summing.specs.Summary.{summary_of};

use score::HIGHEST_SET;

// Twelve bits as those of a set: bit d is 0 where some set has the interval d. A kind of its own, so that no set passes for it.
#[derive(Clone, Copy)]
pub struct Summary(pub u16);

// The summary of the sets, whatever numbers they are; bits above the twelve play no part. Of no sets it is 4095.
pub fn summary_of(sets: &[u16]) -> Summary
    ensures { result ≡ summary_of sets.now }
{
    Summary(sets.iter().fold(HIGHEST_SET, |kept, &set| kept & set))
}
