//! Conditions: those that are open, and the text that is passed over until the chosen branch begins or the
//! condition ends (The TeXbook, chapter 20; `tex.web`, part 28).
#![tactic(auto)]

pub use laws::words_law;
pub use skip::{Skip, SkipScan};
pub use stack::{Branch, Condition, IfStack};
pub use word::{Word, word_of};

mod laws;
mod skip;
mod stack;
#[cfg(test)]
mod tests;
mod word;
