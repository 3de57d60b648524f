// The theme's words: one for each byte that a cell may be, and one for a column.

ghost use Rattle.std.specs.Prelude.{◌≡◌, List, ℕ, ◌≤◌, length};
ghost use Rattle.filter.specs.Limits.{word_bits};
ghost use Rattle.written.specs.Words.{cells_word, Words};

// How many bytes there are: a look-up has a place for each.
pub const BYTES: usize = 256;

// The word of every byte: bit i is 0 where note i + 1 of the theme is that pitch, and all other bits are 1. A rest is no note,
// so its word is all ones.
pub fn words_of(theme: &[u8]) -> [u32; BYTES]
    requires { length theme.now ≤ word_bits }
    ensures { Words theme.now result }
{
    let mut words = [0xffff_ffffu32; BYTES];
    for (i, &pitch) in theme.iter().enumerate() {
        words[pitch as usize] &= !(1 << i);
    }
    words
}

// The words of a column's cells, and-ed: all ones where there are only rests. After the first cell it takes two a turn,
// and then the one that may be left.
// The index stays: tried as a `fold` over the cells and as `chunks_exact(2)`, both take longer where there are few tracks.
// The last place is reckoned once, before the loop: with `i + 1` in its test a turn has one sum more.
pub fn column_word(column: &[u8], words: &[u32; BYTES]) -> u32
    requires { 1 ≤ length column.now }
    ensures { (theme : List ℕ) → Words theme words.now → result ≡ cells_word word_bits theme column.now }
{
    let mut word = words[column[0] as usize];
    let last = column.len() - 1;
    let mut i = 1;
    while i < last {
        word = word & words[column[i] as usize] & words[column[i + 1] as usize];
        i += 2;
    }
    if i == last {
        return word & words[column[i] as usize];
    }
    word
}
