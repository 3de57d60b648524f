// The room that listing takes.

// Room for an input, in bytes: one more than any right input has, so that what lies behind changes nothing of the output.
pub const INPUT_ROOM: usize = 143503;
