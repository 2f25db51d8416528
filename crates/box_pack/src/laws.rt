//! Laws of packed boxes: the contract of a function is the law, and its body is empty.

ghost use Rattle.box_pack.specs.PackingTells.{HboxesTell, VboxesTell, VtopsTell};

/// A packed box tells what its list gives. So where each box in the trees of a list does so, as the law of `nodes` on
/// `measure` asks for, each box in the tree of a packed box does so.
pub fn packed_boxes_tell()
    ensures hboxes { HboxesTell }
    ensures vboxes { VboxesTell }
    ensures vtops { VtopsTell }
{}
