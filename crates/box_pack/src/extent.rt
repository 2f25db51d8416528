//! Boxes and rules as they are, also as the items of leaders (`tex.web`, sections 138, 656 and 671).

ghost use Rattle.std.specs.Prelude.{◌≡◌};
ghost use Rattle.nodes.specs.declared.node.Node.TheViews.{out-Node};

use nodes::{Leaders, Node};

/// The sizes of a box or a rule, in sp.
#[derive(Clone, Copy)]
pub(crate) struct Extent {
    pub(crate) width: i32,
    pub(crate) height: i32,
    pub(crate) depth: i32,
}

impl Extent {
    ghost use Rattle.box_pack.specs.PackingExtents.{nowhere, rule_extent, extent_in, leaders_extent};

    fn nowhere() -> Extent
        ensures { result ≡ nowhere }
    {
        Extent {
            width: 0,
            height: 0,
            depth: 0,
        }
    }

    /// A rule's sizes; one that is missing is 0.
    pub(crate) fn of_rule(width: Option<i32>, height: Option<i32>, depth: Option<i32>) -> Extent
        ensures { result ≡ rule_extent width height depth }
    {
        Extent {
            width: width.unwrap_or(0),
            height: height.unwrap_or(0),
            depth: depth.unwrap_or(0),
        }
    }

    /// The sizes of a node that is a box or a rule. Any other has none.
    pub(crate) fn of_node(node: &Node) -> Extent
        ensures { result ≡ extent_in (out-Node node.now) }
    {
        match node {
            Node::Char { .. } => Extent::nowhere(),
            Node::Lig(_) => Extent::nowhere(),
            Node::Boxed(boxed) => {
                let boxed = boxed.get();
                Extent {
                    width: boxed.width,
                    height: boxed.height,
                    depth: boxed.depth,
                }
            }
            Node::Rule {
                width,
                height,
                depth,
            } => Extent::of_rule(*width, *height, *depth),
            Node::Skip(_) => Extent::nowhere(),
            Node::Kern { .. } => Extent::nowhere(),
            Node::Penalty(_) => Extent::nowhere(),
            Node::Disc(_) => Extent::nowhere(),
            Node::Mark(_) => Extent::nowhere(),
            Node::Insert(_) => Extent::nowhere(),
            Node::Adjust(_) => Extent::nowhere(),
            Node::Whatsit(_) => Extent::nowhere(),
        }
    }

    /// The sizes of one item of leaders, of which there may be none.
    pub(crate) fn of_leaders(leaders: &Option<Leaders>) -> Extent
        ensures { result ≡ leaders_extent leaders.now }
    {
        match leaders {
            None => Extent::nowhere(),
            Some(leaders) => Extent::of_node(leaders.item.get()),
        }
    }
}
