// For how many notes a column is sought.

pub const MOST_SOUGHT: usize = 64;
