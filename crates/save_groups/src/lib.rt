//! Groups and the save stack: one environment and a list of old values, which stand for environments that are
//! copied whole at the beginning of each group (The TeXbook, chapter 24; `tex.web`, part 19).
#![tactic(auto)]

pub use call::{Call, Told, make};
pub use entry::Entry;
pub use env::Env;
pub use group::Left;
pub use heap_box::HeapBox;
pub use key::{Key, Scope};
pub use laws::{calls_law, given_law, levels_law, nodes_law, places_law, saves_law};
pub use save::Save;
pub use trees::Trees;
pub use value::Value;

mod call;
mod current;
mod entry;
mod env;
mod group;
mod heap_box;
mod initial;
mod key;
mod laws;
mod numbers;
pub mod parameters;
mod save;
mod slots;
mod start;
mod table;
mod tables;
#[cfg(test)]
mod tests;
mod trees;
mod value;
