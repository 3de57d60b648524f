// The ways of matching.

// The ways that move a theme. Exact: each note moved by the shift stands in its column. Octave: the same with octaves ignored.
#[derive(Clone, Copy)]
pub enum Way {
    Exact,
    Octave,
}

// All ways. Written: each note stands in its column as it is, which is exact with shift 0. It is a way of its own and not the
// lack of one, so no `Option` of a way says it more plainly.
#[derive(Clone, Copy)]
pub enum AnyWay {
    Moved(Way),
    Written,
}
