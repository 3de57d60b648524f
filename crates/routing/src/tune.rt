// What a route is sought in.

ghost use Rattle.std.specs.Prelude.{◌≤◌, length};
ghost use Rattle.score.specs.Limits.{most_tracks};
ghost use Rattle.asking.specs.Limits.{most_notes};

// An accepted score and theme.
#[derive(Clone, Copy)]
pub struct Tune<'a> {
    pub cells: &'a [u8],
    pub tracks: usize,
    pub theme: &'a [u8],
    ghost tracks_few: { tracks ≤ most_tracks },
    ghost notes_few: { length theme.now ≤ most_notes },
}
