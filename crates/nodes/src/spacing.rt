//! Glue and leaders in a list (`tex.web`, section 149).

use crate::node::Node;
use scaled::Glue;
use sqlite_items::Boxed;

/// Glue in a list, which may be filled by leaders. Nodes have the type `N`.
#[derive(Debug, Drop)]
pub struct SkipNode<N = Node> {
    pub glue: Glue,
    /// 1 more than the place of the glue parameter that it was taken from, among the glue parameters; 0 for any other
    /// glue (`tex.web`, section 224).
    pub name: u8,
    pub leaders: Option<Leaders<N>>,
}

/// What fills the space of a glue. Nodes have the type `N`.
#[derive(Debug, Drop)]
pub struct Leaders<N = Node> {
    /// 0 for `\leaders`, 1 for `\cleaders`, 2 and above for `\xleaders`.
    pub how: u8,
    /// A box or a rule. Leaders of another item are plain glue.
    pub item: Boxed<N>,
}
