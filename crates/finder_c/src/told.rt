// An answer in numbers: 0 where the call was accepted, and otherwise the refusal.

ghost use Rattle.std.specs.Prelude.{◌≡◌, [], ◌∷◌, length};
ghost use Rattle.finder_c.specs.Limits.{answer_numbers, one_number};
ghost use Rattle.finder_c.specs.Numbers.{way_of, any_way_of, no_answer, no_call, refusal_number};
ghost use Rattle.finder_c.specs.Numbers.{single_number, single_numbers, page_number, turn_numbers, page_numbers};
ghost use Rattle.finder_c.specs.Small.{SmallPlace, SmallSingle, SmallPage, SmallTurn};

use crate::limits::{PLACE_WEIGHT, WRITTEN};
use score::Refusal;
use search::{AnyWay, Turn, Way};

// The way of a number that is one: 0 exact, 1 octave.
pub fn way_of(way: u8) -> Way
    ensures { result ≡ way_of way }
{
    if way == 0 { Way::Exact } else { Way::Octave }
}

// The same with 2 written.
pub fn any_way_of(way: u8) -> AnyWay
    ensures { result ≡ any_way_of way }
{
    if way < WRITTEN {
        AnyWay::Moved(way_of(way))
    } else {
        AnyWay::Written
    }
}

// Whether the answer has not as many places as a call writes numbers.
pub fn no_answer(numbers: usize, len: usize) -> bool
    ensures { result ≡ no_answer numbers len }
{
    len != numbers
}

// The same of a call of a way: also whether the number is above the highest way of the call.
pub fn no_call(highest: u8, way: u8, numbers: usize, len: usize) -> bool
    ensures { result ≡ no_call highest way numbers len }
{
    highest < way || no_answer(numbers, len)
}

// A refusal's number + 256 * its place.
pub fn refusal_number(e: Refusal) -> i64
    requires { SmallPlace e }
    ensures { result ≡ refusal_number e }
{
    (e.rule.number() as usize + PLACE_WEIGHT * e.place) as i64
}

// The result of a call that says one number, with that number written; a refused call writes nothing.
pub fn told_single(s: Result<u16, Refusal>, answer: &mut [i64]) -> i64
    requires small_single { SmallSingle s }
    requires answer_len { length answer.old ≡ one_number }
    ensures value { result ≡ single_number s }
    ensures answer_after { answer.new ≡ single_numbers s answer.old }
{
    match s {
        Err(e) => refusal_number(e),
        Ok(n) => {
            answer[0] = n as i64;
            0
        }
    }
}

// Writes the five places of an answer.
pub fn put_five(answer: &mut [i64], a: i64, b: i64, c: i64, d: i64, e: i64)
    requires { length answer.old ≡ answer_numbers }
    ensures { answer.new ≡ a ∷ b ∷ c ∷ d ∷ e ∷ [] }
{
    answer.copy_from_slice(&[a, b, c, d, e]);
}

// A shift as a number of 64 bits.
fn wide(shift: i16) -> i64
    ensures { result ≡ shift }
{
    shift as i64
}

// Writes the five numbers of a page.
fn write_turn(t: Turn, answer: &mut [i64])
    requires small_turn { SmallTurn t }
    requires answer_len { length answer.old ≡ answer_numbers }
    ensures { answer.new ≡ turn_numbers t }
{
    let written = t.written as i64;
    let next = t.next;
    let column = next.column;
    let finished = if t.finished { 1 } else { 0 };
    put_five(
        answer,
        written,
        column.0 as i64,
        wide(next.shift),
        finished,
        t.looks as i64,
    );
}

// The result of a page call, with the five numbers of a page written; a refused call writes nothing.
pub fn told_page(p: Result<Turn, Refusal>, answer: &mut [i64]) -> i64
    requires small_page { SmallPage p }
    requires answer_len { length answer.old ≡ answer_numbers }
    ensures value { result ≡ page_number p }
    ensures answer_after { answer.new ≡ page_numbers p answer.old }
{
    match p {
        Err(e) => refusal_number(e),
        Ok(t) => {
            write_turn(t, answer);
            0
        }
    }
}
