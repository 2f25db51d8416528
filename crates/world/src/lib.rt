//! The world outside of TeX, as files and a terminal behind one trait, and the printer that makes
//! the terminal's text (tex.web parts 3, 5 and 29 in this program's form).
#![tactic(auto)]

mod counts;
mod disk;
mod files;
mod folder;
mod honest;
mod laws;
mod memory;
mod printer;
mod strip;
mod target;
#[cfg(test)]
mod tests;
mod whole;
mod world;
#[cfg(test)]
mod world_tests;

pub use folder::DirWorld;
pub use honest::{HonestWorld, honest_world_laws};
pub use laws::printing_laws;
pub use memory::{MemWorld, faulty_world_laws};
pub use printer::Printer;
pub use target::Target;
pub use world::{World, WorldError, is_good_name};
