//! The expressions of e-TeX: sums of products of operands or expressions in parentheses (the e-TeX manual,
//! section 3.5; `etex.ch`, "scan_expr").
#![tactic(auto)]

pub use scan::ExprScan;
pub use scan_nums::{Number, Phrase, Quantity, Verdict};

pub mod laws;
mod level;
mod mark;
mod parts;
mod place;
mod scan;
mod sort;
#[cfg(test)]
mod tests;
