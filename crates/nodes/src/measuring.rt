//! How deeply boxes stand in one another in a list, and how many nodes it has.

ghost use Rattle.std.specs.Prelude.{◌≡◌, ◌+◌, min, max};
ghost use Rattle.nodes.specs.Inside.{item_of};
ghost use Rattle.nodes.specs.PackingMeasure.{node_nesting, node_count, nesting_of, count_of};

use crate::node::Node;
use crate::spacing::Leaders;

/// Nesting and count of a list. A box tells its own, by its fields `nesting` and `count`, and isn't looked into; the
/// item of leaders and the lists of discretionaries, insertions and adjustments are. Each number stops at the last of
/// its type.
#[cycle(measuring)]
pub fn measure(list: &[Node]) -> (u16, u32)
    ensures nesting { result.0 ≡ nesting_of list.now }
    ensures count { result.1 ≡ min 4294967295 (count_of list.now) }
{
    let mut measured = (0, 0);
    for i in 0..list.len() {
        measured = together(measured, measure_node(&list[i]));
    }
    measured
}

#[cycle(measuring)]
fn measure_node(node: &Node) -> (u16, u32)
    ensures nesting { result.0 ≡ node_nesting node.now }
    ensures count { result.1 ≡ min 4294967295 (node_count node.now) }
{
    match node {
        Node::Char { .. } => (0, 1),
        Node::Lig(_) => (0, 1),
        Node::Boxed(boxed) => {
            let boxed = boxed.get();
            one_node_more((boxed.nesting, boxed.count))
        }
        Node::Rule { .. } => (0, 1),
        Node::Skip(skip) => one_node_more(measure_leaders(&skip.get().leaders)),
        Node::Kern { .. } => (0, 1),
        Node::Penalty(_) => (0, 1),
        Node::Disc(disc) => {
            let disc = disc.get();
            let pre = measure(disc.pre.as_slice());
            let post = measure(disc.post.as_slice());
            one_node_more(together(pre, post))
        }
        Node::Mark(_) => (0, 1),
        Node::Insert(insert) => one_node_more(measure(insert.get().list.as_slice())),
        Node::Adjust(list) => one_node_more(measure(list.as_slice())),
        Node::Whatsit(_) => (0, 1),
    }
}

#[cycle(measuring)]
fn measure_leaders(leaders: &Option<Leaders>) -> (u16, u32)
    ensures nesting { result.0 ≡ nesting_of (item_of leaders.now) }
    ensures count { result.1 ≡ min 4294967295 (count_of (item_of leaders.now)) }
{
    match leaders {
        None => (0, 0),
        Some(leaders) => measure_node(leaders.item.get()),
    }
}

/// The measure of two lists, one behind the other.
fn together(front: (u16, u32), behind: (u16, u32)) -> (u16, u32)
    ensures nesting { result.0 ≡ max front.0 behind.0 }
    ensures count { result.1 ≡ min 4294967295 (front.1 + behind.1) }
{
    (front.0.max(behind.0), front.1.saturating_add(behind.1))
}

/// The measure of a node in which something stands that was measured.
fn one_node_more(inside: (u16, u32)) -> (u16, u32)
    ensures nesting { result.0 ≡ inside.0 }
    ensures count { result.1 ≡ min 4294967295 (1 + inside.1) }
{
    (inside.0, inside.1.saturating_add(1))
}
