// Marks: what a lent buffer holds before a call, a number for each place, so that a place that should be untouched shows it.

ghost use Rattle.std.specs.Prelude.{◌≡◌, ◌==◌, ◌<◌, ◌≤◌, ◌+◌, ◌%◌, ℕ, pos, negsuc, cond, IsTrue, IfSome, take, drop, slice_get};
ghost use Rattle.std.specs.List.{list_all, enumerate_from};

// The mark of each place, by its number from 0.
pub trait Mark: Copy + PartialEq {
    ghost mark_of: { ℕ → Self };

    fn mark(i: usize) -> Self
        ensures { result ≡ mark_of i };
}

// No set, no column.
impl Mark for u16 {
    ghost mark_of = { λ i. 40000 + i % 1009 };

    fn mark(i: usize) -> u16 {
        40000 + (i % 1009) as u16
    }
}

impl Mark for u32 {
    ghost mark_of = { λ i. 2000000000 + i % 1009 };

    fn mark(i: usize) -> u32 {
        2000000000 + (i % 1009) as u32
    }
}

// No shift, and no next one.
impl Mark for i16 {
    ghost mark_of = { λ i. cond (i % 4 == 0) (pos 9000)
        (cond (i % 4 == 1) (negsuc 9000) (cond (i % 4 == 2) (pos 9002) (negsuc 9002))) };

    fn mark(i: usize) -> i16 {
        match i % 4 {
            0 => 9000,
            1 => -9001,
            2 => 9002,
            _ => -9003,
        }
    }
}

// No track.
impl Mark for u8 {
    ghost mark_of = { λ i. 200 + i % 50 };

    fn mark(i: usize) -> u8 {
        200 + (i % 50) as u8
    }
}

// Marks the places from one to another that are there; all others stay as they were.
pub fn put_marks<T: Mark>(s: &mut [T], from: usize, to: usize)
    ensures each { (i : ℕ) → from ≤ i → i < to → IfSome (slice_get s.new i) (λ x. x ≡ T.mark_of i) }
    ensures before { take from s.new ≡ take from s.old }
    ensures behind { drop to s.new ≡ drop to s.old }
{
    let end = to.min(s.len());
    let start = from.min(end);
    for (i, x) in s[start..end].iter_mut().enumerate() {
        *x = T::mark(start + i);
    }
}

// Whether each place from one to another that is there has its mark.
pub fn kept<T: Mark>(s: &[T], from: usize, to: usize) -> bool
    ensures each { result ≡ list_all (λ (i, x). T.eq x (T.mark_of i)) (drop from (take to (enumerate_from 0 s.now))) }
    ensures none { to ≤ from → IsTrue result }
{
    s.iter()
        .enumerate()
        .take(to)
        .skip(from)
        .all(|(i, &x)| x == T::mark(i))
}
