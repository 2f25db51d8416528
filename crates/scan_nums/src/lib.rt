//! Whole numbers, dimensions and glue as a document writes them (The TeXbook, chapter 24; `tex.web`, part
//! 26), read by automata that are handed one token at a time. Who owns an automaton takes the tokens, expands
//! them, and answers what is asked of quantities.
#![tactic(auto)]

pub use dimen_scan::DimenScan;
pub use glue_scan::GlueScan;
pub use int_scan::IntScan;
pub use number::{Number, Quantity};
pub use verdict::{Phrase, Verdict};

mod constant;
mod decimals;
mod dimen_scan;
mod dimen_state;
mod dimen_unit;
mod glue_scan;
mod glue_state;
mod int_scan;
mod keyword;
pub mod laws;
mod number;
mod start;
#[cfg(test)]
mod tests;
mod unit;
mod verdict;
