//! Examples of ways and nodes, computed by the definitions.
ghost use Rattle.sparse_regs.specs.Examples.{WaysAreDigits, NodesAreCounted};

/// The ways to two neighbouring registers, and how many nodes they take, alone, together and one after another.
pub fn neighbours_law()
    ensures ways { WaysAreDigits }
    ensures nodes { NodesAreCounted }
{}
