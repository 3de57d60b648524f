// Theme and chord lines at a place of the input.

ghost use Rattle.std.specs.Prelude.{◌+◌, ◌≤◌, length, drop};
ghost use Rattle.score.specs.Limits.{most_tracks, most_columns, most_cells};
ghost use Rattle.asking.specs.Limits.{most_notes};
ghost use Rattle.reading.specs.Reading.{fields as fields_of, chord_line, notes_of, theme_line};
ghost use Rattle.reading.specs.Request.{chords as chords_of};
ghost use Rattle.reading.specs.Steps.{Filled, Themed, Scored};

use asking::MOST_NOTES;
use score::{MOST_COLUMNS, MOST_TRACKS};
use ways::{AnyWay, Way};
use words::{cell, stands};

// A line that was read: how many values it has, and the place behind its line feed.
#[derive(Clone, Copy, Debug, PartialEq, Eq)]
pub struct Line {
    pub count: usize,
    pub next: usize,
}

// A theme line that was read.
#[derive(Clone, Copy)]
pub struct ThemeLine {
    pub way: AnyWay,
    pub count: usize,
    pub next: usize,
}

// All chord lines: how many tracks and columns they make.
#[derive(Clone, Copy, Debug, PartialEq, Eq)]
pub struct ChordLines {
    pub tracks: usize,
    pub columns: usize,
}

// How many right chord lines stand before the first faulty one.
#[derive(Clone, Copy, Debug, PartialEq, Eq)]
pub struct FaultyAfter(pub u16);

// The fields up to the line feed, `limit` at most, into the buffer from a base on.
fn fields(
    text: &[u8],
    from: usize,
    rests: bool,
    limit: usize,
    into: &mut [u8],
    base: usize,
) -> Option<Line>
    requires { (from ≤ length text.now) × (base + limit ≤ length into.old) }
    ensures { Filled text.now limit base into.old result into.new (fields_of rests limit (drop from text.now)) }
{
    let mut at = from;
    let mut count = 0;
    // a turn reads a field, and fields differ in length
    while let Some(&b) = text.get(at) {
        if b == b'\n' {
            return Some(Line {
                count,
                next: at + 1,
            });
        }
        if b != b'\t' || count == limit {
            return None;
        }
        let field = cell(text, at + 1, rests)?;
        into[base + count] = field.value;
        count += 1;
        at = field.next;
    }
    None // no line feed
}

// The chord line at the place, into the cells from a base on: as many cells as h, or any number where h is 0.
fn chord_line(text: &[u8], from: usize, h: usize, cells: &mut [u8], base: usize) -> Option<Line>
    requires { (from ≤ length text.now) × (base + most_tracks ≤ length cells.old) }
    ensures { Filled text.now most_tracks base cells.old result cells.new (chord_line h (drop from text.now)) }
{
    if !stands(text, from, b"chord") {
        return None;
    }
    let line = fields(text, from + 5, true, MOST_TRACKS, cells, base)?;
    if line.count == 0 || (h != 0 && line.count != h) {
        return None;
    }
    Some(line)
}

// All chord lines from the place on, to the end of the input.
#[tactic(auto, using(crate::proofs::Scoring::scoring_many))]
pub fn chord_lines(text: &[u8], from: usize, cells: &mut [u8]) -> Result<ChordLines, FaultyAfter>
    requires { (from ≤ length text.now) × (most_cells ≤ length cells.old) }
    ensures { Scored result cells.new (chords_of most_columns 0 (drop from text.now)) }
{
    let mut at = from;
    let mut tracks = 0;
    let mut columns = 0;
    let mut base = 0;
    // the place goes on by a line at a time, and lines differ in length
    while at < text.len() {
        if columns == MOST_COLUMNS {
            return Err(FaultyAfter(columns as u16));
        }
        let line = chord_line(text, at, tracks, cells, base).ok_or(FaultyAfter(columns as u16))?;
        tracks = line.count;
        columns += 1;
        base += line.count;
        at = line.next;
    }
    Ok(ChordLines { tracks, columns })
}

// The notes of a theme line, from the place behind its way on.
fn notes(text: &[u8], from: usize, way: AnyWay, theme: &mut [u8]) -> Option<ThemeLine>
    requires { (from ≤ length text.now) × (most_notes ≤ length theme.old) }
    ensures { Themed text.now result theme.new (notes_of way (drop from text.now)) }
{
    let Line { count, next } = fields(text, from, false, MOST_NOTES, theme, 0)?;
    if count < 2 {
        return None;
    }
    Some(ThemeLine { way, count, next })
}

// The theme line at the front of the input.
pub fn theme_line(text: &[u8], theme: &mut [u8]) -> Option<ThemeLine>
    requires { most_notes ≤ length theme.old }
    ensures { Themed text.now result theme.new (theme_line text.now) }
{
    if stands(text, 0, b"theme\texact") {
        return notes(text, 11, AnyWay::Moved(Way::Exact), theme);
    }
    if stands(text, 0, b"theme\toctave") {
        return notes(text, 12, AnyWay::Moved(Way::Octave), theme);
    }
    if stands(text, 0, b"theme\twritten") {
        return notes(text, 13, AnyWay::Written, theme);
    }
    None
}
