//! All that a run will still read, seen as one flat list: tokens that were put in front, the texts of macros
//! with their arguments, and the lines of files (The TeXbook, chapters 8 and 20; `tex.web`, part 22).
#![tactic(auto)]

pub use pending::{Event, Pending};
pub use source::Origin;

mod level;
mod pending;
mod settle;
mod source;
mod sources;
#[cfg(test)]
mod tests;
mod waiting;
