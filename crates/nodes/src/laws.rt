//! Laws of nesting and count: the contract of each function is the law, and its body is empty.

ghost use Rattle.nodes.specs.PackingTold.{ToldTreesAreBuilt};
ghost use Rattle.nodes.specs.PackingTree.{ToldListsAreMeasured};

/// Where each box of a tree tells what its list gives, the numbers that `measure` gives are those of the whole tree.
pub fn told_lists_are_measured()
    ensures { ToldListsAreMeasured }
{}

/// Which trees these are, node by node.
pub fn told_trees_are_built()
    ensures { ToldTreesAreBuilt }
{}
