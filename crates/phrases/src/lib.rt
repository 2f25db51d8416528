//! Phrases one inside another (The TeXbook, chapters 20 and 24): what they come to by recursion, and that a stack of
//! unfinished ones comes to the same.
#![tactic(auto, using(crate::specs::Laws::nesting_law, crate::specs::Stack::stack_law))]

pub use laws::{nesting_law, stack_law};

mod laws;
