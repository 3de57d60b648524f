// The limits of a theme.

// The most notes of a theme.
pub const MOST_NOTES: usize = 32;
