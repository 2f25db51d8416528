//! Nesting and count of a list, and of a box over it.

ghost use Rattle.std.specs.Prelude.{◌≡◌, ◌<◌, min, length, []};
ghost use Rattle.nodes.specs.PackingMeasure.{node_nesting, node_count};
ghost use Rattle.box_pack.specs.PackingLimits.{first_passed};

use nodes::{Node, measure};
use std::slice;
use tokens::{Cap, Stop};

/// How deeply boxes are nested, and how many nodes there are, with all nodes inside them.
#[derive(Clone, Copy)]
pub(crate) struct Measure {
    pub(crate) nesting: u16,
    /// 4294967295 also stands for more.
    pub(crate) count: u32,
}

impl Measure {
    ghost use Rattle.box_pack.specs.MeasureSums.{list_measure, with_measured, box_measured};

    pub(crate) fn none() -> Measure
        ensures { result ≡ list_measure [] }
    {
        Measure {
            nesting: 0,
            count: 0,
        }
    }

    /// One more node of a list.
    pub(crate) fn add(&mut self, node: &Node)
        ensures { self.new ≡ with_measured node.now self.old }
    {
        let (nesting, count) = measure_node(node);
        self.nesting = self.nesting.max(nesting);
        self.count = self.count.saturating_add(count);
    }

    /// What a box over a list with this measure tells of itself.
    pub(crate) fn of_box(self) -> Result<Measure, Stop>
        ensures { result ≡ box_measured self }
    {
        if self.nesting >= 500 {
            return Err(Stop::Capacity(Cap::BoxNesting));
        }
        if self.count > 16_777_215 {
            return Err(Stop::Capacity(Cap::Items));
        }
        Ok(Measure {
            nesting: self.nesting + 1,
            count: self.count,
        })
    }
}

/// Nesting and count of one node. Most nodes are characters, in which nothing stands.
fn measure_node(node: &Node) -> (u16, u32)
    ensures nesting { result.0 ≡ node_nesting node.now }
    ensures count { result.1 ≡ min 4294967295 (node_count node.now) }
{
    if let Node::Char { .. } = node {
        (0, 1)
    } else {
        measure(slice::from_ref(node))
    }
}

/// The limit that a list of more than 16777215 nodes passes first.
pub(crate) fn first_passed(list: &[Node]) -> Stop
    requires { 16777215 < length list.now }
    ensures { result ≡ first_passed list.now }
{
    let (nesting, _) = measure(list);
    if nesting >= 500 {
        Stop::Capacity(Cap::BoxNesting)
    } else {
        Stop::Capacity(Cap::Items)
    }
}
