//! Characters set in a font, whose program turns them into ligatures and kerns (The TeXbook, chapter 4 and appendix F;
//! `tex.web`, sections 1029 to 1040).
#![tactic(auto)]

pub use setter::Setter;

mod element;
pub mod laws;
mod meeting;
mod rewriter;
mod setter;
#[cfg(test)]
mod tests;
