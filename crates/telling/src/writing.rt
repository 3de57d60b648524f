// Numbers and lines put into the output. Each call needs room for just what it puts.

ghost use Rattle.std.specs.Prelude.{◌≡◌, [], ◌∷◌, ◌+◌, ◌%◌, ◌≤◌, ◌<◌, nat_abs, length};
ghost use Rattle.telling.specs.Text.{decimal, signed, field, line as line_of};
ghost use Rattle.paging.specs.Lent.{lent, read_pairs};
ghost use Rattle.telling.specs.Lines.{pair_of, hit_line, hit_lines, end_line, refused_line};
ghost use Rattle.telling.specs.Outputs.{HasRoom, Puts};

use score::Column;

// The output, and the place behind what was put into it.
#[derive(Drop)]
pub struct Out<'a> {
    pub bytes: &'a mut [u8],
    pub at: usize,
}

impl Out<'_> {
    fn put(&mut self, b: u8)
        requires { self.old.at < length self.old.bytes.now }
        ensures { Puts (b ∷ []) self.old self.new }
    {
        self.bytes[self.at] = b;
        self.at += 1;
    }

    fn put_word(&mut self, word: &[u8])
        requires { HasRoom word.now self.old }
        ensures { Puts word.now self.old self.new }
    {
        let end = self.at + word.len();
        self.bytes[self.at..end].copy_from_slice(word);
        self.at = end;
    }

    // The last digit of a number.
    fn put_digit(&mut self, n: u32)
        requires { self.old.at < length self.old.bytes.now }
        ensures { Puts ((48 + n % 10) ∷ []) self.old self.new }
    {
        self.put(b'0' + (n % 10) as u8);
    }

    // A number in decimal: what stands before its last digit is a number, too.
    fn put_number(&mut self, n: u32)
        requires { HasRoom (decimal n) self.old }
        ensures { Puts (decimal n) self.old self.new }
    {
        if n < 10 {
            return self.put_digit(n);
        }
        self.put_number(n / 10);
        self.put_digit(n);
    }

    // A tab and a number.
    fn put_field(&mut self, n: u32)
        requires { HasRoom (field (decimal n)) self.old }
        ensures { Puts (field (decimal n)) self.old self.new }
    {
        self.put(b'\t');
        self.put_number(n);
    }

    // A tab and a shift, with `-` before the digits of a negative one.
    fn put_shift(&mut self, shift: i16)
        requires { HasRoom (field (signed shift)) self.old }
        ensures { Puts (field (signed shift)) self.old self.new }
    {
        let size = u32::from(shift.unsigned_abs());
        if shift < 0 {
            self.put(b'\t');
            self.put(b'-');
            return self.put_number(size);
        }
        self.put_field(size);
    }

    // The line of one pair.
    fn hit_line(&mut self, column: Column, shift: i16)
        requires { HasRoom (hit_line (pair_of column.0 shift)) self.old }
        ensures { Puts (hit_line (pair_of column.0 shift)) self.old self.new }
    {
        self.put_word(b"hit");
        self.put_field(column.0 as u32);
        self.put_shift(shift);
        self.put(b'\n');
    }

    // The lines of as many pairs as were found, from the front of the two buffers.
    pub fn hit_lines(&mut self, columns: &[u16], shifts: &[i16], found: usize)
        requires found_in_bounds { (found ≤ length columns.now) × (length shifts.now ≡ length columns.now) }
        requires shifts_in_bounds { HasRoom (hit_lines (read_pairs found (lent columns.now shifts.now))) self.old }
        ensures { Puts (hit_lines (read_pairs found (lent columns.now shifts.now))) self.old self.new }
    {
        for (&column, &shift) in columns[..found].iter().zip(&shifts[..found]) {
            self.hit_line(Column(column), shift);
        }
    }

    // A line of a word and two numbers.
    fn line(&mut self, word: &[u8], first: u32, second: u32)
        requires { HasRoom (line_of word.now (decimal first) (decimal second)) self.old }
        ensures { Puts (line_of word.now (decimal first) (decimal second)) self.old self.new }
    {
        self.put_word(word);
        self.put_field(first);
        self.put_field(second);
        self.put(b'\n');
    }

    // The line behind all pairs.
    pub fn end_line(&mut self, found: u32, looks: u32)
        requires { HasRoom (end_line found looks) self.old }
        ensures { Puts (end_line found looks) self.old self.new }
    {
        self.line(b"end", found, looks);
    }

    // The line of a refused input.
    pub fn refused_line(&mut self, number: u32)
        requires { HasRoom (refused_line number) self.old }
        ensures { Puts (refused_line number) self.old self.new }
    {
        self.line(b"refused", 11, number);
    }
}
