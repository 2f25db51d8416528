//! Pages of a DVI file: from a shipped box to the bytes that a device reads (The TeXbook, chapter 23; `tex.web`, part
//! 31 and sections 600 to 642). Dimensions and positions are whole numbers of scaled points, sp; positions grow to the
//! right and down, and are taken modulo 2^32, between -2^31 and 2^31-1.
//!
//! A page is made in two passes. The first walks through the box, each node once, and lists symbolic commands. The second
//! writes them as bytes. A movement whose width was kept in `w`, `x`, `y` or `z` repeats it, and the command of a movement
//! is changed in the bytes when a later one repeats its width.
#![tactic(auto)]

mod codes;
mod command;
mod dvi;
mod font;
mod growth;
pub mod laws;
mod movements;
mod numbers;
mod pages;
mod positions;
pub mod reading;
mod speller;
mod track;
mod walker;
mod walking;
mod writer;

pub use dvi::Dvi;
pub use font::FontDef;

#[cfg(test)]
mod tests;
