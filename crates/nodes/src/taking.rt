//! Lists that are taken apart.

ghost use Rattle.std.specs.Prelude.{◌≡◌, IfOk};

use crate::node::Node;
use sqlite_items::Items;
use std::alloc::{AllocError, Global};

/// The nodes of a list, which are moved: none is copied, and nothing inside them is touched. `Items::from_vec` is the
/// way back.
pub fn into_vec(alloc: Global, mut list: Items<Node>) -> Result<Vec<Node>, AllocError>
    ensures { IfOk result (λ nodes. nodes.items ≡ list) }
{
    let mut nodes = Vec::with_capacity(alloc, list.len())?;
    while let Some(node) = list.pop() {
        nodes.push(node)?;
    }
    nodes.reverse();
    Ok(nodes)
}
