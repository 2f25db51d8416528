//! Boxes packed from lists: their sizes, how their glue is set, and how bad that is (The TeXbook, chapter 12; `tex.web`,
//! part 33, sections 644 to 679). Dimensions are whole numbers of scaled points, sp.
#![tactic(auto)]

pub use goal::Goal;
pub use horizontal::hpack;
pub use laws::packed_boxes_tell;
pub use packed::Packed;
pub use report::Report;
pub use vertical::{vpack, vtop};

mod extent;
mod fit;
mod flexibility;
mod goal;
mod horizontal;
mod laws;
mod limits;
mod measuring;
mod packed;
mod report;
mod sums;
#[cfg(test)]
mod tests;
mod vertical;
