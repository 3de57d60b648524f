// What a walk goes along.

ghost use Rattle.walking.specs.Walk.{Ready};

use ways::Way;

// An accepted score and theme, and the way in which the theme is sought.
#[derive(Clone, Copy)]
pub struct Tune<'a> {
    pub cells: &'a [u8],
    pub tracks: usize,
    pub theme: &'a [u8],
    pub way: Way,
    ghost ready: { Ready cells.now tracks theme.now },
}
