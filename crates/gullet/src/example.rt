//! Worked expansions, which the definitions give without any code.
ghost use Rattle.gullet.specs.Example.{WorkedExpansions};

/// Phrases, from a number to a macro's call, with what they leave to be read.
pub fn worked_expansions()
    ensures worked { WorkedExpansions }
{}
