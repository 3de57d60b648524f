// The words of columns, kept from column to column: a ring of slots, each with the word of a column and the number of that
// column.

ghost use Rattle.std.specs.Prelude.{◌≡◌, List, ℕ, ◌+◌, ◌-◌, ◌*◌, ◌≤◌, length, take, drop};
ghost use Rattle.masks.specs.Masks.{value, column_word};
ghost use Rattle.score.specs.Limits.{most_columns};
ghost use Rattle.ways.specs.declared.way.Way.{Way};
ghost use Rattle.walking.specs.Alive.{Cached};

use crate::tune::Tune;
use masks::{Word, word_of};
use score::Column;

// How many columns have a slot.
const PLACES: usize = 32;

// A column's number, counted from 1, and its word. The number is 0 where there is none yet, so that one comparison decides a
// look-up: with an `Option` of a slot, plain pages of several tracks took 6 per cent longer.
#[derive(Clone, Copy)]
struct Slot {
    number: usize,
    word: Word,
}

// Column 1 has the first slot, and column 33 again. Whose words they are, each clause says (`Cached`): a ring that held the tune
// would have each clause say that the tune stays.
#[derive(Drop)]
pub struct Ring {
    slots: [Slot; PLACES],
}

impl Ring {
    // A ring without words, whatever it will keep words of.
    pub fn new() -> Self
        ensures { (way : Way) → (cells : List ℕ) → (h : ℕ) → Cached way cells h result }
    {
        let none = Slot {
            number: 0,
            word: Word { low: 0, high: 0 },
        };
        Ring {
            slots: [none; PLACES],
        }
    }

    // The word of the column so many further on than the given one: as the ring has it, or found now and kept there.
    pub fn word_at(&mut self, tune: &Tune, column: Column, further: usize) -> Word
        requires le_column { (1 ≤ column.0)
            × ((column.0 + further - 1) * tune.now.tracks + tune.now.tracks ≤ length tune.now.cells.now)
            × (column.0 + further ≤ most_columns) }
        requires cached { Cached tune.now.way tune.now.cells.now tune.now.tracks self.old }
        ensures { (value result.low result.high ≡ column_word tune.now.way
            (take tune.now.tracks (drop ((column.0 + further - 1) * tune.now.tracks) tune.now.cells.now)))
            × Cached tune.now.way tune.now.cells.now tune.now.tracks self.new }
    {
        let k = column.0 as usize + further - 1;
        let s = k % PLACES;
        let number = k + 1;
        if self.slots[s].number == number {
            return self.slots[s].word;
        }
        let base = k * tune.tracks;
        let end = base + tune.tracks;
        let word = word_of(tune.way, &tune.cells[base..end]);
        self.slots[s] = Slot { number, word };
        word
    }
}
