// What a line is made of: numbers one after another, pairs, and what a change makes of something.

use jobs::changes::{What, end_shift};
use second::asks::Pair;
use std::{fmt, io};

pub fn line(rt: &impl Print) -> io::Result<()> {
    print!(rt; "\n")
}

// So many numbers, a space before each.
pub fn numbers<T: fmt::Display>(rt: &impl Print, s: &[T], many: usize) -> io::Result<()> {
    for x in s.iter().take(many) {
        print!(rt; " {x}")?;
    }
    Ok(())
}

// So many pairs.
pub fn pairs(rt: &impl Print, columns: &[u16], shifts: &[i16], many: usize) -> io::Result<()> {
    for (&column, &shift) in columns.iter().zip(shifts).take(many) {
        let pair = Pair {
            column: usize::from(column),
            shift,
        };
        print!(rt; " {pair}")?;
    }
    Ok(())
}

// The number that something gets; a shift goes by its own number.
pub fn value_name(rt: &impl Print, what: What, value: u16) -> io::Result<()> {
    if let What::Shift = what {
        let shift = end_shift(value);
        print!(rt; " {shift}")
    } else {
        print!(rt; " {value}")
    }
}

// The refusals that are due, no lower one where there is one alone.
pub fn refusals_due(rt: &impl Print, low: Option<usize>, high: usize) -> io::Result<()> {
    if let Some(low) = low {
        print!(rt; " {low} and")?;
    }
    print!(rt; " {high}:")
}
