// The theme table: a word for each of the 4,096 sets.
//
// The set of no interval, 4095, has a word of ones. Every other set has a lowest interval, and its word is the word of the set
// without that interval, and-ed with the word of that interval alone.

ghost use Rattle.std.specs.Prelude.{◌≡◌, ◌<◌};
ghost use Rattle.score.specs.Limits.{highest_set};
ghost use Rattle.filter.specs.Limits.{word_bits};
ghost use Rattle.filter.specs.Table.{table_after};
ghost use Rattle.filter.specs.LowestInterval.{interval_words, LowestInterval};

use score::{HIGHEST_SET, Pitch, TABLE_WORDS, interval_of};

// The word of each interval alone: a 0 for each place where it stands in the theme. From the 33rd interval on the mark is 0 and
// takes nothing away.
fn interval_words(theme: &[u8]) -> [u32; 12]
    ensures { result ≡ interval_words word_bits theme.now }
{
    let mut words = [u32::MAX; 12];
    let mut mark: u32 = 1;
    for notes in theme.windows(2) {
        let d = interval_of(Pitch(notes[0]), Pitch(notes[1]));
        words[d.0 as usize] &= !mark;
        mark <<= 1;
    }
    words
}

// The lowest interval of a set that has one: the place of its lowest 0, which adding 1 turns into the lowest 1. Counted by `!set`,
// which has it too, the filling takes a seventh longer.
fn lowest_interval(set: usize) -> usize
    requires { set < highest_set }
    ensures { LowestInterval set result }
{
    (set + 1).trailing_zeros() as usize
}

// The whole table of a theme, whatever it held. Of a theme with more than 33 notes a word has the first 32 intervals. A theme
// without notes, and a table that is not 4,096 long, leave it as it is.
//
// Adding 1 to a set turns its lowest 0 into a 1 and the ones below it into zeros, and the or puts those back. So
// `set | (set + 1)` is the set without its lowest interval. That is a larger number, so from 4095 downward its entry is already
// there. By hand, with the first set of the manual's score K: 3451 = 4095 - 4 - 128 - 512, so it has 2, 7 and 9.
//
//     entry 3451 = entry 3455 & word of 2        3451 | 3452 = 3455
//     entry 3455 = entry 3583 & word of 7        3455 | 3456 = 3583
//     entry 3583 = entry 4095 & word of 9        3583 | 3584 = 4095
//     entry 3450 = entry 3451 & word of 0        3450 | 3451 = 3451
//
// The theme 60 62 69 has the interval 2 and then 7, so the word of 2 is 0xffff_fffe, the word of 7 is 0xffff_fffd, those of the
// others are ones, and entries 3451 and 3450 are both 0xffff_fffc.
//
// 3450 is even, as half of the sets are. An even set has the interval 0, and without it is the odd set after it. So each turn
// fills two entries: an odd one, and from it the even one before it.
#[tactic(auto, using(crate::proofs::Words::after_none, crate::proofs::Words::after_other))]
pub fn fill_table(theme: &[u8], table: &mut [u32])
    ensures { table.new ≡ table_after word_bits theme.now table.old }
{
    if theme.is_empty() || table.len() != TABLE_WORDS {
        return;
    }
    let words = interval_words(theme);
    // 4095 has no interval, and 4094 has the interval 0 alone
    let last = HIGHEST_SET as usize;
    table[last] = u32::MAX;
    table[last - 1] = words[0];
    for half in (0..last / 2).rev() {
        let even = 2 * half;
        let odd = even + 1;
        table[odd] = table[odd | (odd + 1)] & words[lowest_interval(odd)];
        table[even] = table[odd] & words[0];
    }
}
