// How many explanations there were, by what they say.

use crate::calls::Told;
use grounds::answers::{Screened, Why};
use second::totals::add;

// Those of a reason, by what the sets make of the column.
#[derive(Clone, Copy, Default)]
pub struct Screenings {
    pub unasked: u64,
    pub kept: u64,
    pub dismissed: u64,
}

impl Screenings {
    fn count(&mut self, screened: Screened) {
        match screened {
            Screened::Unasked => add(&mut self.unasked, 1),
            Screened::Kept => add(&mut self.kept, 1),
            Screened::Dismissed { .. } => add(&mut self.dismissed, 1),
        }
    }
}

#[derive(Clone, Copy, Default)]
pub struct Counts {
    // by their reasons
    pub listed: Screenings,
    pub no_shift: Screenings,
    pub no_column: Screenings,
    pub too_few: Screenings,
    pub empty: Screenings,
    pub outside: Screenings,
    pub absent: Screenings,
    pub refused: Screenings,
    // how many were compared, and how many differed
    pub compared: u64,
    pub differed: u64,
    // how many fail by another note than the first, are dismissed by another interval than the first, and have the first note in
    // another track than the first
    pub later_note: u64,
    pub later_interval: u64,
    pub higher_track: u64,
}

fn count_reason(counts: &mut Counts, told: Told) {
    let screened = told.answer.screened;
    match told.answer.why {
        Ok(Why::Listed) => counts.listed.count(screened),
        Ok(Why::NoShift) => counts.no_shift.count(screened),
        Ok(Why::NoColumn) => counts.no_column.count(screened),
        Ok(Why::TooFew) => counts.too_few.count(screened),
        Ok(Why::Empty) => counts.empty.count(screened),
        Ok(Why::Outside(_)) => counts.outside.count(screened),
        Ok(Why::Absent(_)) => counts.absent.count(screened),
        Err(_) => counts.refused.count(screened),
    }
}

// Counts one that is right.
pub(crate) fn count(counts: &mut Counts, told: Told) {
    count_reason(counts, told);
    if let Ok(why) = told.answer.why {
        add(
            &mut counts.later_note,
            u64::from(1 < why.note().unwrap_or(0)),
        );
    }
    if let Screened::Dismissed { interval, .. } = told.answer.screened {
        add(&mut counts.later_interval, u64::from(1 < interval));
    }
    let first = told.tracks.first().copied().unwrap_or(0);
    add(&mut counts.higher_track, u64::from(1 < first));
}
