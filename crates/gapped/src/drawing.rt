// Pseudo-random draws by the number of a round: numbers, the cells of a score, the notes of a theme that is cut from it, and
// the column from which it is cut.

ghost use Rattle.std.specs.Prelude.{◌<◌, ◌≤◌};

use second::asks::Ask;
use second::totals::{REST, get_or, more, place, product};

// The next state of the generator.
fn step(x: u64) -> u64 {
    (x % 2147483648 * 1103515245 + 12345) % 2147483648
}

// A number below k by a state, from its upper bits.
fn pick(x: u64, k: u64) -> usize
    ensures { 0 < k → result < k }
{
    if k == 0 {
        return 0;
    }
    (x / 8192 % k) as usize
}

// A number below k by a round and a purpose.
pub fn draw(round: usize, purpose: usize, k: u64) -> usize
    ensures { 0 < k → result < k }
{
    let x = more(
        product(round % 65536, 40503),
        product(purpose % 65536, 7919),
    );
    pick(step(step(step(x as u64))), k)
}

// A pitch by a state, one of k from low on.
fn tone(x: u64, low: u8, k: u64) -> u8 {
    lifted(low, (pick(x, k) % 256) as u8)
}

// A pitch that lies so far above the lowest of one of three places: at the lower end, at the upper end, or in the middle.
pub fn tone_at(place: usize, above: u8) -> u8
    ensures { above ≤ 12 → result < 128 }
{
    match place % 3 {
        0 => above,
        1 => above.wrapping_add(115),
        _ => above.wrapping_add(60),
    }
}

// Pitches at the ends.
const ENDS: [u8; 8] = [0, 1, 12, 13, 115, 120, 126, 127];

// Two tones, each in six octaves.
const OCTAVES: [u8; 12] = [24, 36, 48, 60, 72, 84, 31, 43, 55, 67, 79, 91];

// A cell by a state and a kind of score: narrow and dense; half rests; wide; the ends; mostly rests; octaves of two tones. The
// kind is drawn, and read here alone: an enum would be a second match.
fn cell_of(x: u64, kind: usize) -> u8 {
    match kind {
        0 => tone(x, 60, 9),
        1 => rest_or(x, 2, tone(x, 48, 25)),
        2 => rest_or(x, 9, tone(x, 0, 128)),
        3 => rest_or(x, 5, ENDS[pick(x, 8)]),
        4 => pitch_or(x, 8, tone(x, 58, 5)),
        _ => rest_or(x, 7, OCTAVES[pick(x, 12)]),
    }
}

// A pitch, but a rest once in so many.
fn rest_or(x: u64, k: u64, p: u8) -> u8 {
    if pick(x / 4, k) == 0 { 255 } else { p }
}

// A rest, but a pitch once in so many.
fn pitch_or(x: u64, k: u64, p: u8) -> u8 {
    if pick(x / 4, k) == 0 { p } else { 255 }
}

// A score of a kind.
pub fn fill(cells: &mut [u8], many: usize, round: usize) {
    let kind = draw(round, 4, 6);
    let mut x = step(round as u64);
    for cell in cells.iter_mut().take(many) {
        x = step(x);
        *cell = cell_of(x, kind);
    }
}

// A pitch of a column, from a track on; 60 where it has none.
fn pitch_in(cells: &[u8], h: usize, j: usize, from: usize) -> u8 {
    if h == 0 {
        return 60;
    }
    (0..h)
        .map(|track| get_or(cells, place(j, h, more(track, from) % h), REST))
        .find(|&p| p < 128)
        .unwrap_or(60)
}

// A pitch moved up, or left where that leaves the range.
fn lifted(p: u8, up: u8) -> u8 {
    p.checked_add(up).filter(|&t| t < 128).unwrap_or(p)
}

fn lowered(p: u8, down: u8) -> u8 {
    p.checked_sub(down).unwrap_or(p)
}

// Note i of the theme, about column j: cut from the score; moved up with all others; spoilt at one place; an octave off here and
// there; or of its own.
pub fn note_of(cells: &[u8], a: Ask, j: usize, round: usize, i: usize) -> u8 {
    let p = pitch_in(cells, a.h, j, draw(round, more(i, 100), 16));
    match round % 5 {
        0 => p,
        1 => lifted(p, (round % 40) as u8),
        2 => spoilt(p, i == draw(round, 9, a.notes as u64)),
        3 => octave_off(p, draw(round, more(i, 200), 3)),
        _ => tone(step(more(round, i) as u64), 58, 12),
    }
}

fn spoilt(p: u8, here: bool) -> u8 {
    if here { lifted(p, 1) } else { p }
}

fn octave_off(p: u8, k: usize) -> u8 {
    match k {
        0 => p,
        1 => lifted(p, 12),
        _ => lowered(p, 12),
    }
}

// One of so many columns; in one round of seven the last of them.
pub fn start_in(starts: usize, round: usize) -> usize {
    if round.is_multiple_of(7) {
        return starts;
    }
    more(draw(round, 8, starts as u64), 1)
}
