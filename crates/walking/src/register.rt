// The register along the sets: one entry more at each column, and the candidates that it marks.

ghost use Rattle.std.specs.Prelude.{◌≡◌, ℕ, ◌+◌, ◌-◌, ◌≤◌, ◌<◌, cond, length, get_or, set};
ghost use Rattle.theory.specs.Register as Register;
ghost use Rattle.score.specs.Limits.{table_words};
ghost use Rattle.filter.specs.Limits.{word_bits};
ghost use Rattle.walking.specs.Scan.{entry_word, Filters, Lent, Seeks, ListsCandidates};

use filter::{marks, step};
use score::Column;

// How many columns are passed, whether the last of them is a candidate, and what the register is behind it. Both numbers mean the
// same whether it is one or not, so the flag guards neither.
#[derive(Clone, Copy)]
pub struct Sought {
    pub register: u32,
    pub passed: usize,
    pub marked: bool,
}

// How many columns are passed, how many candidates among them are listed, and what the register is behind them.
#[derive(Clone, Copy)]
pub struct Listed {
    pub register: u32,
    pub passed: usize,
    pub count: usize,
}

// Writes the last of the columns that are passed, from the first on, at its place of the list where it is marked, and gives
// the next place; otherwise the place is given back.
fn noted(list: &mut [u16], at: usize, first: Column, passed: usize, marked: bool) -> usize
    requires { (at < length list.old) × (1 ≤ passed) × (first.0 + passed ≤ 65535) }
    ensures { (result ≡ cond marked (at + 1) at) × (list.new ≡ cond marked (set list.old at (first.0 + passed - 1)) list.old) }
{
    if !marked {
        return at;
    }
    list[at] = first.0 + (passed - 1) as u16;
    at + 1
}

// The sets of a score, and the theme's table, which has a word for each set that may be.
#[derive(Clone, Copy)]
pub struct Entries<'a> {
    pub sets: &'a [u16],
    pub table: &'a [u32],
    ghost table_long: { length table.now ≡ table_words },
    ghost sets_small: { (k : ℕ) → get_or sets.now k 0 < table_words },
}

impl Entries<'_> {
    // One entry of the sets more: the table's word for it.
    fn taken(&self, register: u32, at: usize) -> u32
        requires { at < length self.now.sets.now }
        ensures { result ≡ Register.step word_bits register (entry_word self.now.table.now self.now.sets.now at) }
    {
        let set = self.sets[at] as usize;
        step(register, self.table[set])
    }

    // The register that begins, all ones, at an entry of the sets and takes as many as are counted. For a theme of m notes
    // they are m - 2, and the next one makes the first column a candidate or not.
    pub fn warmed(&self, from: usize, count: usize) -> u32
        requires { from + count ≤ length self.now.sets.now }
        ensures { result ≡ Register.reg_from word_bits (entry_word self.now.table.now self.now.sets.now) from (from + count) }
    {
        let end = from + count;
        let mut register: u32 = 0xffff_ffff;
        for at in from..end {
            register = self.taken(register, at);
        }
        register
    }

    // Decides column after column of so many from the first on, behind those already passed: up to a candidate, or to the last
    // where there is none.
    fn seek(&self, register: u32, m: usize, first: Column, passed: usize, many: usize) -> Sought
        requires lent { Lent self.now.sets.now m (first.0 + passed) (first.0 + many) }
        requires filters { Filters self.now.table.now self.now.sets.now m register (first.0 + passed) }
        ensures { Seeks self.now.table.now self.now.sets.now m (first.0 + passed) (first.0 + many)
            result.register (first.0 + result.passed) result.marked }
    {
        let top = (m - 2) as u32;
        // the entry that decides the next column, and the one behind the last
        let next = first.0 as usize + passed + m - 3;
        let end = next + (many - passed);
        let mut word = register;
        for at in next..end {
            word = self.taken(word, at);
            if marks(word, top) {
                return Sought {
                    register: word,
                    passed: at + 1 - next + passed,
                    marked: true,
                };
            }
        }
        Sought {
            register: word,
            passed: many,
            marked: false,
        }
    }

    // Lists, from the front, the candidates among so many columns from the first on, until as many are listed as are wanted. What
    // goes on is given back by value: a struct of register, column and columns left would hold again what the walk's spot and
    // count hold, and each clause would have to say what of it stays.
    pub fn list_candidates(
        &self,
        register: u32,
        m: usize,
        first: Column,
        many: usize,
        wanted: usize,
        list: &mut [u16],
    ) -> Listed
        requires lent { Lent self.now.sets.now m first.0 (first.0 + many) }
        requires filters { Filters self.now.table.now self.now.sets.now m register first.0 }
        requires le_wanted { (1 ≤ wanted) × (wanted ≤ length list.old) }
        ensures { ListsCandidates self.now.table.now self.now.sets.now m first.0 (first.0 + many) list.old
            result.register (first.0 + result.passed) result.count list.new }
    {
        let mut word = register;
        let mut passed: usize = 0;
        let mut count: usize = 0;
        // a turn passes as many columns as it takes to the next candidate
        while passed < many && count < wanted {
            let s = self.seek(word, m, first, passed, many);
            word = s.register;
            passed = s.passed;
            count = noted(list, count, first, passed, s.marked);
        }
        Listed {
            register: word,
            passed,
            count,
        }
    }
}
