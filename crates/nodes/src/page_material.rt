//! What a list holds for the page that it comes to: marks and insertions (`tex.web`, sections 140 and 141).

ghost use Rattle.std.specs.Prelude.{◌≡◌};

use crate::node::Node;
use scaled::Glue;
use sqlite_items::Items;
use tokens::TokenList;

/// A mark of a class (the e-TeX manual, on marks).
#[derive(Debug, Drop)]
pub struct MarkNode {
    pub class: u16,
    pub text: TokenList,
}

/// An insertion of a class, with its list, of the type `L`. Dimensions are in sp.
#[derive(Debug, Drop)]
pub struct InsertNode<L = Items<Node>> {
    pub class: u8,
    /// Height and depth of its list together.
    pub size: i32,
    /// The greatest depth of a part that it is split to.
    pub max_depth: i32,
    /// The glue at the top of what is left behind a split.
    pub top: Glue,
    /// The penalty where it is split over pages.
    pub cost: i32,
    pub list: L,
}

impl InsertNode {
    /// The same insertion with another list.
    pub(crate) fn with_list(&self, list: Items<Node>) -> InsertNode
        ensures { result ≡ record self.now { list = list } }
    {
        InsertNode {
            class: self.class,
            size: self.size,
            max_depth: self.max_depth,
            top: self.top,
            cost: self.cost,
            list,
        }
    }
}
