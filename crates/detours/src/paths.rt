// Routes as plain numbers.

use second::totals::less_one;

// A track for each note of a theme; what stands behind them plays no part.
pub type Path = [u8; 64];

// A route that was found: its changes, and how many routes have no more; it is the one that is known of where they were not
// counted.
#[derive(Clone, Copy)]
pub struct Best {
    pub path: Path,
    pub changes: usize,
    pub alike: usize,
}

// How many neighbours among so many notes are in different tracks.
pub fn changes_of(path: &Path, m: usize) -> usize {
    path.iter()
        .zip(path.iter().skip(1))
        .take(less_one(m))
        .filter(|&(x, y)| *x != *y)
        .count()
}

// A track as a byte.
pub fn track_byte(track: usize) -> u8 {
    (track % 256) as u8
}
