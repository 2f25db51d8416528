//! Font metrics: the reader of TFM files, whose bytes nobody vouches for, and the metrics that they
//! stand for (tex.web part 30, sections 539 to 582; The TeXbook, appendix F).
#![tactic(auto)]

pub use action::Action;
pub use error::TfmError;
pub use metrics::Metrics;
pub use reader::read_tfm;
pub use size::Size;

mod action;
mod character;
mod characters;
mod checks;
mod error;
mod fixwords;
mod instructions;
mod lengths;
mod metrics;
mod numbers;
mod programs;
mod quarters;
mod reader;
mod size;
mod tables;
#[cfg(test)]
mod tests;
