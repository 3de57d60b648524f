// How a theme is moved in a score: the score's notes stand some semitones above a base, and the theme's some above the same base.

use gapped::drawing::draw;
use jobs::changes::at;
use second::asks::Ask;
use second::ways::{Way, shift_at};

// How far the score's notes are up, and the theme's.
#[derive(Clone, Copy)]
pub struct Move {
    pub score: u8,
    pub theme: u8,
}

// A move by a number: in exact both are up by anything, in octave the score alone, in written neither.
pub fn move_of(way: Way, k: usize) -> Move {
    let up = (draw(k, 21, 12) % 12) as u8;
    match way {
        Way::Exact => Move {
            score: up,
            theme: (draw(k, 22, 12) % 12) as u8,
        },
        Way::Octave => Move {
            score: up,
            theme: 0,
        },
        Way::Written => Move { score: 0, theme: 0 },
    }
}

// A pitch that is up by so much.
pub fn up_by(base: u8, up: u8) -> u8 {
    base.wrapping_add(up)
}

// The shift of a theme that is moved: the score's part less the theme's.
fn shift_by(way: Way, m: Move) -> i16 {
    match way {
        Way::Exact => shift_at(way, up_by(127, m.score).wrapping_sub(m.theme)),
        _ => shift_at(way, m.score),
    }
}

// What is asked, at a column at which the moved theme stands.
pub fn moved_at(a: Ask, column: u16, m: Move) -> Ask {
    at(a, column, shift_by(a.way, m))
}

// A note in a track: in octave it is any number of octaves off, by the track.
pub fn octave_in(way: Way, p: u8, track: usize) -> u8 {
    match way {
        Way::Exact | Way::Written => p,
        Way::Octave => match track % 3 {
            0 => p,
            1 => p.wrapping_sub(24),
            _ => up_by(p, 12),
        },
    }
}

// The track of cell i, from 0, in a score of h tracks.
pub fn track_of(i: usize, h: usize) -> usize {
    i.checked_rem(h).unwrap_or(0)
}
