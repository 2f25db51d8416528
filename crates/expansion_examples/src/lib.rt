//! Whole lines, what expansion leaves of them and what their commands show, worked out by hand from The TeXbook's chapters 20
//! and 24. There is no code besides: each call of `gullet` and of `commands` is made on lines, macros and files as a document
//! has them.
#![tactic(auto)]

#[cfg(test)]
mod tests;
