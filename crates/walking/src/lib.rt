// From a bookmark to the hits that fill a page. A walk goes along the columns that it is handed, one after another; empty
// columns, those without a pitch, are taken out before, by its caller.
//
// A `tune` is what a walk goes along. `walked` says where a walk stands and how far it has come. `starts` are the places whose
// first note is present, and what is looked at from there. The starts of a `column` are tried one by one; the `ring` keeps
// columns as words of bits, by which `alive` tries all of them at once. The `register` lists candidates, a `walk` goes along
// listed columns, and the `calls` check what is asked and walk.

#![tactic(auto)]

mod alive;
pub mod calls;
mod column;
mod register;
mod ring;
mod starts;
mod tune;
mod walk;
mod walked;

pub use calls::{walk_plain, walk_quick};
pub use walked::Walked;
