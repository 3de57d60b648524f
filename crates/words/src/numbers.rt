// A number or a cell at a place of a text.

ghost use Rattle.std.specs.Prelude.{◌≤◌, length, drop, Some};
ghost use Rattle.words.specs.Words.{more_digits, number as number_of, cell as cell_of};
ghost use Rattle.words.specs.Places.{Numbered};

use crate::bytes::digit_at;
use score::{HIGHEST_PITCH, REST};

// A value, and the place behind it.
#[derive(Clone, Copy, Debug, PartialEq, Eq)]
pub struct Numeral {
    pub value: u8,
    pub next: usize,
}

// One digit more behind a number, where there is one and the number stays 127 or less.
fn more_digits(text: &[u8], at: usize, value: u8) -> Numeral
    requires { at ≤ length text.now }
    ensures { Numbered text.now (Some result) (more_digits value (drop at text.now)) }
{
    if let Some(digit) = digit_at(text, at) {
        let more = u16::from(value) * 10 + u16::from(digit);
        if more <= u16::from(HIGHEST_PITCH) {
            return Numeral {
                value: more as u8,
                next: at + 1,
            };
        }
    }
    Numeral { value, next: at }
}

// A number 0 to 127 without leading zeros.
#[tactic(auto, using(crate::proofs::Places::number_zero))]
fn number(text: &[u8], at: usize) -> Option<Numeral>
    ensures { Numbered text.now result (number_of (drop at text.now)) }
{
    let digit = digit_at(text, at)?;
    if digit == 0 {
        return Some(Numeral {
            value: 0,
            next: at + 1,
        });
    }
    let two = more_digits(text, at + 1, digit);
    Some(more_digits(text, two.next, two.value))
}

// A number, or `-` where rests may stand; or bad text.
pub fn cell(text: &[u8], at: usize, rests: bool) -> Option<Numeral>
    ensures { Numbered text.now result (cell_of rests (drop at text.now)) }
{
    if rests && text.get(at).copied() == Some(b'-') {
        return Some(Numeral {
            value: REST,
            next: at + 1,
        });
    }
    number(text, at)
}
