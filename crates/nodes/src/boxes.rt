//! Boxes and the setting of their glue (`tex.web`, sections 135 to 137).

ghost use Rattle.std.specs.Prelude.{◌≡◌};

use crate::node::Node;
use scaled::Order;
use sqlite_items::Items;

/// An hbox or a vbox with its list, of the type `L`. Dimensions are in sp.
#[derive(Debug, Drop)]
pub struct BoxNode<L = Items<Node>> {
    pub vertical: bool,
    pub width: i32,
    pub height: i32,
    pub depth: i32,
    /// By how much it is moved down in a horizontal list, or to the right in a vertical one.
    pub shift: i32,
    pub list: L,
    pub set: GlueSet,
    /// 1 where no box stands in it, else 1 more than the nesting of its deepest box; 65535 also stands for more.
    pub nesting: u16,
    /// How many nodes are in its list, with all nodes inside them; 4294967295 also stands for more.
    pub count: u32,
}

impl BoxNode {
    /// The same box with another list.
    pub(crate) fn with_list(&self, list: Items<Node>) -> BoxNode
        ensures { result ≡ record self.now { list = list } }
    {
        BoxNode {
            vertical: self.vertical,
            width: self.width,
            height: self.height,
            depth: self.depth,
            shift: self.shift,
            list,
            set: self.set,
            nesting: self.nesting,
            count: self.count,
        }
    }
}

/// How the glue of a box is set: glue whose stretch or shrink is of the order grows, or diminishes, by its share of
/// `excess / total`.
#[derive(Clone, Copy, Debug, PartialEq, Eq)]
pub struct GlueSet {
    /// Above 0 the glue stretches, below 0 it shrinks, and with 0 it is natural.
    pub sign: i8,
    pub order: Order,
    /// The sum by which all glue of the order grows or diminishes, in sp.
    pub excess: i64,
    /// The stretch or shrink of all glue of the order, in sp or in 65536ths of its unit.
    pub total: i64,
}
