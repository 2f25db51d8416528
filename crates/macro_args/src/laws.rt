//! A law of the definitions, the contract of a function that does nothing.
ghost use Rattle.macro_args.specs.Shortest.{DelimitedLaw};

/// A delimited argument is the shortest balanced list before its delimiter.
pub fn delimited_law()
    ensures { DelimitedLaw }
{}
