// The kinds of quantity that code must not be able to pass for one another.

ghost use Rattle.std.specs.Prelude.{◌≡◌, ◌%◌};
ghost use Rattle.score.specs.Sets.{interval};

// A MIDI pitch: 0 to 127 where it was checked.
#[derive(Clone, Copy)]
pub struct Pitch(pub u8);

// The distance of two pitches with octaves ignored, in semitones upwards: 0 to 11 where `interval_of` made it.
#[derive(Clone, Copy)]
pub struct Interval(pub u8);

// A pitch with octaves ignored, which is one of twelve tones: 0 to 11 where `class_of` made it.
#[derive(Clone, Copy)]
pub struct Class(pub u8);

// How far two pitches are apart, octaves included, in semitones; it does not say which is the higher.
#[derive(Clone, Copy)]
pub struct Distance(pub u8);

// The number of a column, counted from 1.
#[derive(Clone, Copy)]
pub struct Column(pub u16);

// The interval from x to y, a falling one too: 22 octaves are added before x is taken away.
pub fn interval_of(x: Pitch, y: Pitch) -> Interval
    ensures { result ≡ interval x y }
{
    Interval(((y.0 as u16 + 264 - x.0 as u16) % 12) as u8)
}

// The class of a pitch. Every byte has one.
pub fn class_of(p: Pitch) -> Class
    ensures { result.0 ≡ p.0 % 12 }
{
    Class(p.0 % 12)
}
