//! TeX's arithmetic: glue, badness, exact quotients, decimal fractions, and the printed forms of
//! numbers and dimensions. It is part 7 of `tex.web`, with the roman numerals of part 5 and the glue
//! specifications of part 10. Dimensions are whole numbers of scaled points, sp; 65536 sp are 1 pt.
#![tactic(auto)]

pub mod decimals;
pub mod numerals;
pub mod printing;
pub mod quality;
pub mod quotients;
pub mod spacing;
#[cfg(test)]
mod tests;

pub use decimals::round_decimals;
pub use numerals::roman;
pub use printing::points;
pub use quality::badness;
pub use quotients::{fraction, nearest, xn_over_d};
pub use spacing::{Glue, Order};
