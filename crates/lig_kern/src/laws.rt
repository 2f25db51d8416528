//! Laws of the definitions: functions that do nothing and promise them.
ghost use Rattle.lig_kern.specs.Examples.{WorkedWords};
ghost use Rattle.lig_kern.specs.Sources.{IsSetInOrder};

/// What was fed is what is set, in order: the characters of a list with those that its ligatures stand for.
pub fn set_in_order()
    ensures { IsSetInOrder }
{}

/// Words and their lists, worked out by the definitions.
pub fn worked_words()
    ensures { WorkedWords }
{}
