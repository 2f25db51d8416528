//! What holds of printed text, whatever is printed: it may be printed in portions, its column is
//! that of its last line, and no line is longer than 79 bytes.
ghost use Rattle.world.specs.Output.{PrintsInPortions, StripsCompose};
ghost use Rattle.world.specs.Lines.{PrintsLines};

/// The laws of printed text. It does nothing when it runs: its clauses are what is proved.
pub fn printing_laws()
    ensures compose { StripsCompose }
    ensures portions { PrintsInPortions }
    ensures lines { PrintsLines }
{}
