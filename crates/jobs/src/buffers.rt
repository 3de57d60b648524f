// The buffers that are lent, each with room for the largest case and a place behind; and how one is filled.

ghost use Rattle.std.specs.Prelude.{◌≡◌, ℕ, ◌<◌, length, drop, replicate, slice_index, pos};

use second::asks::Case;

pub type Cells = [u8; 34000];

pub type Theme = [u8; 64];

pub type Sets = [u16; 2100];

pub type Table = [u32; 4100];

pub type Columns = [u16; 4100];

pub type Shifts = [i16; 4100];

// The buffers of a case: its score, its theme and the sets that are lent.
#[derive(Drop)]
pub struct Buffers {
    pub cells: Cells,
    pub theme: Theme,
    pub sets: Sets,
}

impl Buffers {
    pub fn new() -> Buffers
        ensures cells { result.cells ≡ replicate 34000 0 }
        ensures theme { result.theme ≡ replicate 64 0 }
        ensures sets { result.sets ≡ replicate 2100 0 }
    {
        Buffers {
            cells: [0; 34000],
            theme: [0; 64],
            sets: [0; 2100],
        }
    }

    // As they are lent to be read.
    pub fn case(&self) -> Case<'_>
        ensures cells { result.cells.now ≡ self.now.cells }
        ensures theme { result.theme.now ≡ self.now.theme }
        ensures sets { result.sets.now ≡ self.now.sets }
    {
        Case {
            cells: &self.cells,
            theme: &self.theme,
            sets: &self.sets,
        }
    }
}

// The buffers that a page is written into, and the theme's table.
#[derive(Drop)]
pub struct Rooms {
    pub table: Table,
    pub columns: Columns,
    pub shifts: Shifts,
}

impl Rooms {
    pub fn new() -> Rooms
        ensures table { result.table ≡ replicate 4100 0 }
        ensures columns { result.columns ≡ replicate 4100 0 }
        ensures shifts { result.shifts ≡ replicate 4100 (pos 0) }
    {
        Rooms {
            table: [0; 4100],
            columns: [0; 4100],
            shifts: [0; 4100],
        }
    }
}

// Writes so many bytes, each as it is said of its place; all, where there are fewer.
pub fn fill_by<F: Fn(usize) -> u8>(s: &mut [u8], many: usize, byte_at: F)
    requires { F.IsAlwaysCallable byte_at }
    ensures each { (i : ℕ) → i < many → i < length s.new → F.post byte_at i (slice_index s.new i) }
    ensures behind { drop many s.new ≡ drop many s.old }
{
    let end = many.min(s.len());
    for (i, x) in s[..end].iter_mut().enumerate() {
        *x = byte_at(i);
    }
}
