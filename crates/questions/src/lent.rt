// The buffers that are lent beside a case.

use jobs::buffers::{Sets, Table};

// The theme's table, the sets before an update, and those of a fresh preparation.
#[derive(Drop)]
pub struct Mending {
    pub table: Table,
    pub old: Sets,
    pub fresh: Sets,
}

impl Mending {
    pub(crate) fn new() -> Mending {
        Mending {
            table: [0; 4100],
            old: [0; 2100],
            fresh: [0; 2100],
        }
    }
}
