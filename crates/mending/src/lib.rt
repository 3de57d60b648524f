// What is tried of updates, and what is turned away of updates and of questions; neither is asked here.
//
// `edit` says what an edit is: a score, a column of it that is changed, and how wrong the lent sets are. `worked` has some that
// can be checked by hand, `small` every edit of small scores, `far` those of scores in which the columns with a pitch lie far
// apart, and `drawn` pseudo-random ones; `families` has all of them by their numbers, and `arranging` puts them into the lent
// buffers. `refused` are calls with changes to what is lent, `twists` are those of what is lent beside the buffers, and
// `twisting` puts all into the lent buffers. The functions promise only to be safe and to end, and a count that is divided by to
// be above 0.

#![tactic(auto)]

pub mod arranging;
mod drawn;
pub mod edit;
pub mod families;
mod far;
pub mod refused;
mod small;
pub mod twisting;
mod twists;
mod worked;
