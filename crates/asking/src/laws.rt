//! Laws of calls that may ask, for every state and every meaning.
ghost use Rattle.asking.specs.Laws.{LoopLaw, SequenceLaw, TurnsLaw};

/// What is said of one call, and of what follows it, is said of both.
pub fn sequence_law<S, A, B>()
    ensures law { SequenceLaw S A B }
{}

/// A loop whose record stands at each time does what its meaning says.
pub fn loop_law<S, X>()
    ensures law { LoopLaw S X }
{}

/// Turns are made one by one; once a run is over, more of them mean the same, and show no more.
pub fn turns_law<S>()
    ensures law { TurnsLaw S }
{}
