//! Laws of expansion, of the definitions alone.
#![tactic(auto, using(crate::specs::Laws::phrase_law, crate::proofs::ValueSteps::value_law))]

ghost use Rattle.gullet.specs.Laws.{PhraseLaw};
ghost use Rattle.gullet.specs.ValueText.{ValueLaw};

/// What a phrase comes to.
pub fn phrase_law()
    ensures law { PhraseLaw }
{}

/// What `\the` wants, and what is told of it as a list.
pub fn value_law()
    ensures law { ValueLaw }
{}
