//! Registers in trees of hexadecimal digits: a total map from register numbers to values, of which only those take
//! nodes that aren't initial or are held (`etex.ch`, on sparse arrays).
#![tactic(auto)]

pub use laws::neighbours_law;
pub use prefix::Prefix;
pub use slot::Slot;
pub use tree::Tree;

mod arena;
mod children;
mod laws;
mod node;
mod places;
mod prefix;
mod slot;
#[cfg(test)]
mod tests;
mod tree;
