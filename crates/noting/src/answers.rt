// The answers of a question, an update or a preparation as plain numbers, and what was seen of a call.

use judging::answers::Denied;
use judging::compare::Fault;

// What an accepted call says: whether the theme occurs, or the summary of the sets.
#[derive(Clone, Copy, PartialEq, Eq)]
pub enum Said {
    Occurs(bool),
    Summary(u16),
}

// What was seen of a call: its answer, and what differs.
#[derive(Clone, Copy)]
pub struct Judged {
    pub said: Result<Said, Denied>,
    pub verdict: Result<(), Fault>,
}

// Whether a question was answered with yes.
pub(crate) fn occurs_in(said: Result<Said, Denied>) -> bool {
    match said {
        Ok(Said::Occurs(yes)) => yes,
        _ => false,
    }
}

// The summary that a call gave, or 0.
pub(crate) fn summary_in(said: Result<Said, Denied>) -> u16 {
    match said {
        Ok(Said::Summary(summary)) => summary,
        _ => 0,
    }
}
