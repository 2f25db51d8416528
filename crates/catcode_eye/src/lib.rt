//! TeX's eyes: they read the bytes of a file line by line, and see characters, names and line ends
//! (The TeXbook, chapter 8; `tex.web`, parts 22 and 24).
#![tactic(auto)]

pub use eye::Eye;
pub use seen::{Glance, Seen, State};

mod eye;
mod head;
mod lines;
mod name;
mod role;
mod seen;
mod sight;
