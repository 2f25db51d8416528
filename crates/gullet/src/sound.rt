//! Expansion keeps the condition of its calls, by the definitions alone.
#![tactic(auto, using(crate::specs::SoundLaw::sound_law, crate::specs::SoundCopies::copies_law, crate::specs::SoundCalls::keeping_law))]

ghost use Rattle.gullet.specs.SoundCalls.{KeepingLaw};
ghost use Rattle.gullet.specs.SoundCopies.{CopiesLaw};
ghost use Rattle.gullet.specs.SoundLaw.{SoundLaw};

/// What a call of expansion leaves meets the condition of the next one.
pub fn sound_law()
    ensures law { SoundLaw }
{}

/// A call that does what a definition says keeps the condition where the definition does.
pub fn keeping_law<A, B>()
    ensures law { KeepingLaw A B }
{}

/// Assignments of sound values to what is known, and the beginnings and ends of groups, keep environments sound.
pub fn copies_law()
    ensures law { CopiesLaw }
{}
