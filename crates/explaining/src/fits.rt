// The column by itself: whether a theme has room there, whatever its notes are.

ghost use Rattle.std.specs.Prelude.{◌≡◌, ◌≤◌, length};
ghost use Rattle.explaining.specs.Inner.{fit_by};

use score::Column;

// The column is 0; from it on there are too few columns with a pitch; it has none itself; or it fits.
#[derive(Clone, Copy)]
pub enum Fit {
    Zero,
    Short,
    NoPitch,
    Fits,
}

// By the numbers of the columns in which the notes are sought, of which 0 is none: there is a column for the last note, and the
// first is the column itself.
pub fn fit_by(numbers: &[usize], m: usize, column: Column) -> Fit
    requires { (1 ≤ m) × (m ≤ length numbers.now) }
    ensures { result ≡ fit_by numbers.now m column }
{
    let j = column.0 as usize;
    let first = numbers[0];
    let last = numbers[m - 1];
    if j == 0 {
        return Fit::Zero;
    }
    if last == 0 {
        return Fit::Short;
    }
    if first != j {
        return Fit::NoPitch;
    }
    Fit::Fits
}
