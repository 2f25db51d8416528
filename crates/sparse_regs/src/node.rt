//! Nodes of a tree.

use crate::children::Children;
use crate::prefix::Prefix;

/// What a register has.
#[derive(Debug, Drop)]
pub struct Register<T> {
    pub value: T,
    pub holders: u128,
}

/// A node: an index node with children, or with all four digits a leaf.
#[derive(Drop)]
pub struct Node<T> {
    /// The digits that lead to this node; its own is the last.
    pub prefix: Prefix,
    /// The index of the node with a digit less, None above those with one digit.
    pub parent: Option<u32>,
    pub content: Content<T>,
}

#[derive(Drop)]
pub enum Content<T> {
    Index(Children),
    Leaf(Register<T>),
}
