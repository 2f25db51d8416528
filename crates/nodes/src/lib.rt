//! Nodes: what horizontal and vertical lists, boxes and pages are made of (The TeXbook, chapters 11, 12, 14, 15 and
//! 21; `tex.web`, part 10). Dimensions are whole numbers of scaled points, sp.
//!
//! A list of nodes is a `Vec<Node>` while it is built, and an `Items<Node>` inside a node. `Items::from_vec` makes the
//! one the other and copies nothing; `pop`, `push` and `append` of `Items` move nodes, whole trees with them.
//!
//! Copying, measuring, printing and dropping take room on the stack for each level of a tree: with 8 MB, lists nested
//! 10,000 deep were tried, and 20,000 were too many.
//!
//! The parts of a node that hold nodes are generic in these, so that contracts see each as a plain record of its
//! fields: a `BoxNode` is a `BoxNode<Items<Node>>`.
#![tactic(auto)]

pub use boxes::{BoxNode, GlueSet};
pub use copying::copy_list;
pub use discretionary::DiscNode;
pub use laws::{told_lists_are_measured, told_trees_are_built};
pub use ligature::LigNode;
pub use measuring::measure;
pub use node::{KernKind, Node};
pub use page_material::{InsertNode, MarkNode};
pub use spacing::{Leaders, SkipNode};
pub use taking::into_vec;
pub use whatsit::Whatsit;

mod boxes;
mod copying;
mod discretionary;
mod laws;
mod ligature;
mod measuring;
mod node;
mod page_material;
mod spacing;
mod taking;
#[cfg(test)]
mod tests;
mod whatsit;
