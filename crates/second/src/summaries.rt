// The summary of interval sets, bit by bit.

use crate::finder::bit;

// Whether some of so many sets has bit d at 0.
fn some_zero(sets: &[u16], many: usize, d: u8) -> bool {
    sets.iter().take(many).any(|&set| !bit(usize::from(set), d))
}

// A number with bit d alone, one of twelve.
fn alone(d: u8) -> u16 {
    if d < 12 { 1 << d } else { 0 }
}

// The summary of so many sets: bit d of twelve is 0 exactly where some set has bit d at 0. So of no sets it is 4095.
pub fn summary(sets: &[u16], many: usize) -> u16 {
    (0..12u8)
        .filter(|&d| !some_zero(sets, many, d))
        .fold(0, |number, d| number | alone(d))
}
