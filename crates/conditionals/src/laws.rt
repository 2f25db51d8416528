//! Laws of the definitions, each the contract of a function that does nothing.
ghost use Rattle.conditionals.specs.Word.{WordsLaw};

/// The words that count in a text that is passed over are the primitives of these names.
pub fn words_law()
    ensures { WordsLaw }
{}
