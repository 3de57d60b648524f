// What an edit is: a score of so many tracks and columns, by its number, a column that is changed, and what it becomes.

// How a score and its changed column are made.
#[derive(Clone, Copy)]
pub enum Kind {
    Worked,
    Small,
    Far,
    Drawn,
}

// The lent sets: those of the score before the change; these with some bits of each turned; all with no interval, 4095; or all
// with every interval, 0.
#[derive(Clone, Copy)]
pub enum Lent {
    Right,
    Turned,
    NoInterval,
    EveryInterval,
}

#[derive(Clone, Copy)]
pub struct Edit {
    pub kind: Kind,
    pub h: usize,
    pub n: usize,
    // the score before the change, the changed column from 1, and what it becomes, by its number: each kind of edit counts or
    // draws it and reads it in one place, so that an enum would be a second match
    pub score: usize,
    pub column: usize,
    pub into: usize,
    pub lent: Lent,
}

// The lent sets by a number, which stays one: edits are counted by turns and drawn by it.
pub fn lent_of(k: usize) -> Lent {
    match k {
        0 => Lent::Right,
        1 => Lent::Turned,
        2 => Lent::NoInterval,
        _ => Lent::EveryInterval,
    }
}
