// By the numbers of the columns that are kept: their sets, where a column stands among them, and the numbers of columns found
// among them.

ghost use Rattle.std.specs.Prelude.{◌≡◌, ◌-◌, leb, get_or};
ghost use Rattle.theory.specs.Lists.{first};
ghost use Rattle.passing.specs.Passing.{KeepsSets, Renames};

// Writes the entry of each numbered column from the front of the buffer, as many as have room. A column without an entry has 0.
pub fn kept_sets(sets: &[u16], numbers: &[u16], kept: &mut [u16])
    ensures { KeepsSets sets.now numbers.now kept.old kept.new }
{
    // By places: after a `zip` of what is written, nothing would be known of the entries.
    for i in 0..numbers.len().min(kept.len()) {
        kept[i] = entry_at(sets, numbers[i]);
    }
}

// The entry that stands at a number, from 1; 0 where there is none.
fn entry_at(entries: &[u16], number: u16) -> u16
    ensures { result ≡ get_or entries.now (number - 1) 0 }
{
    let at = (number as usize).saturating_sub(1);
    entries.get(at).copied().unwrap_or(0)
}

// How many of the numbers, which rise, come before the given one.
pub fn rank(numbers: &[u16], number: u16) -> usize
    ensures { result ≡ first (λ k. leb number k) numbers.now }
{
    numbers
        .iter()
        .position(|&k| number <= k)
        .unwrap_or(numbers.len())
}

// Puts, for each of the first columns, the number that stands at its own number.
pub fn rename(columns: &mut [u16], many: usize, numbers: &[u16])
    ensures { Renames columns.old many numbers.now columns.new }
{
    let found = many.min(columns.len());
    for column in columns[..found].iter_mut() {
        *column = entry_at(numbers, *column);
    }
}
