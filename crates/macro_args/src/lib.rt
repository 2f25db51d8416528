//! The arguments of a macro call, read token by token (The TeXbook, chapter 20; `tex.web` 389 to 401).
#![tactic(auto)]

pub use laws::delimited_law;
pub use rules::Rules;
pub use scan::{ArgScan, takes_tokens};
pub use verdict::{Refusal, Verdict};

mod braces;
mod judge;
mod laws;
mod matching;
mod place;
mod rules;
mod scan;
#[cfg(test)]
mod tests;
mod verdict;
