// The register: one word more at each column, and whether a column is marked.

ghost use Rattle.std.specs.Prelude.{◌≡◌, ◌%◌, ◌==◌};
ghost use Rattle.theory.specs.Bits.{bit};
ghost use Rattle.theory.specs.Register as Register;
ghost use Rattle.filter.specs.Limits.{word_bits};

use crate::limits::WORD_BITS;

// One word more: the register is doubled with its top bit lost, then or-ed with the word.
pub fn step(register: u32, word: u32) -> u32
    ensures { result ≡ Register.step word_bits register word }
{
    register.wrapping_add(register) | word
}

// Whether the register marks a column: its bit `top` is zero. For candidates of a theme of m notes that is bit m - 2, for the
// tune as it is written bit m - 1. Bits go round: bit 32 is bit 0.
pub fn marks(register: u32, top: u32) -> bool
    ensures { result ≡ (bit register (top % word_bits) == 0) }
{
    (register >> (top % WORD_BITS)) & 1 == 0
}
