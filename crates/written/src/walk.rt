// The register along the columns: it has taken their words, and its bit m - 1 is zero where a theme of m notes has just ended.

ghost use Rattle.std.specs.Prelude.{◌≡◌, List, ℕ, ◌+◌, ◌*◌, ◌≤◌, length};
ghost use Rattle.theory.specs.Register as Register;
ghost use Rattle.filter.specs.Limits.{word_bits};
ghost use Rattle.written.specs.Words.{word_at, Words};
ghost use Rattle.written.specs.Walk.{Walkable, ListsFrom};

use crate::words::{BYTES, column_word};
use filter::{marks, step};
use score::columns_in;

// The register after one column more, that after k others: it takes the word of its cells.
fn taken(register: u32, cells: &[u8], h: usize, words: &[u32; BYTES], k: usize) -> u32
    requires { (k * h + h ≤ length cells.now) × (1 ≤ h) }
    ensures { (theme : List ℕ) → Words theme words.now → result ≡ Register.step word_bits register (word_at word_bits cells.now h theme k) }
{
    let base = k * h;
    let end = base + h;
    step(register, column_word(&cells[base..end], words))
}

// Goes along the columns behind the first `from` and writes, from the front, the number of each at which the theme stands, with
// the shift 0, until there is no column left or no room. Gives how many it wrote.
// It stays a function of its own: amid a page's other code its loops are moved by what stands before them, and take up to half
// as long again where a jump then lies across a border of 32 bytes.
#[inline(never)]
pub fn list_from(
    cells: &[u8],
    h: usize,
    theme: &[u8],
    words: &[u32; BYTES],
    from: usize,
    columns: &mut [u16],
    shifts: &mut [i16],
) -> usize
    requires walkable { Walkable cells.now h theme.now from columns.old shifts.old }
    requires words { Words theme.now words.now }
    ensures { ListsFrom cells.now h theme.now from columns.old shifts.old result columns.new shifts.new }
{
    let n = columns_in(cells, h);
    let m = theme.len();
    let top = (m - 1) as u32;
    let mut register: u32 = 0xffff_ffff;
    let mut found: usize = 0;
    // Room is tested here and behind each pair: with a test at each column, one track takes a fifth longer.
    if columns.is_empty() {
        return found;
    }
    for k in from..n {
        register = taken(register, cells, h, words, k);
        if marks(register, top) {
            columns[found] = (k + 2 - m) as u16;
            shifts[found] = 0;
            found += 1;
            if found == columns.len() {
                break;
            }
        }
    }
    found
}
