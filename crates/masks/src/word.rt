// A word of 128 bits, which the contracts say as one number.

ghost use Rattle.std.specs.Prelude.{◌≡◌};
ghost use Rattle.masks.specs.Masks.{value, width, all_starts};

use ways::Way;

// The twelve bits of octave, one for each class.
pub(crate) const ALL_CLASSES: u64 = 0xfff;

// The lower 64 bits, and those above.
#[derive(Clone, Copy)]
pub struct Word {
    pub low: u64,
    pub high: u64,
}

// Every start there may be.
pub fn all_starts(way: Way) -> Word
    ensures { value result.low result.high ≡ all_starts way }
{
    match way {
        Way::Exact => Word {
            low: u64::MAX,
            high: u64::MAX,
        },
        Way::Octave => Word {
            low: ALL_CLASSES,
            high: 0,
        },
    }
}

// How many they are, which is how many bits of a word are used.
pub fn width_of(way: Way) -> u32
    ensures { result ≡ width way }
{
    match way {
        Way::Exact => 128,
        Way::Octave => 12,
    }
}
