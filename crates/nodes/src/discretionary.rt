//! Discretionary breaks (`tex.web`, section 145).

use crate::node::Node;
use sqlite_items::Items;

/// A place where a line can break. Lists have the type `L`.
#[derive(Debug, Drop)]
pub struct DiscNode<L = Items<Node>> {
    /// What stands in front of the break.
    pub pre: L,
    /// What stands behind the break.
    pub post: L,
    /// How many of the nodes behind it go if the line breaks here; where fewer follow, all of them.
    pub replace: u8,
}
