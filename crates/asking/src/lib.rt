//! Meanings of commands that may ask the world for files, and how files are handed out to them.
#![tactic(auto, using(crate::specs::Asked::asking))]

pub use example::{Part, Whole};
pub use known::{Known, Start};
pub use laws::{loop_law, sequence_law, turns_law};
pub use library::Library;

mod example;
mod known;
mod laws;
mod library;
#[cfg(test)]
mod tests;
