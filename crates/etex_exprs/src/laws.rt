//! Laws of the definitions: functions that do nothing and promise them.
ghost use Rattle.etex_exprs.specs.TermTreeExamples.{WorkedExpressions};
ghost use Rattle.etex_exprs.specs.TermTreeLaws.{WordsAreRead, TreesAreRead};

/// What was read of a list is written with the list's words: no word is lost or changed but blanks.
pub fn words_are_read()
    ensures { WordsAreRead }
{}

/// Every tree of the right operands is read as itself.
pub fn trees_are_read()
    ensures { TreesAreRead }
{}

/// Expressions and their values, worked out by the definitions.
pub fn worked_expressions()
    ensures { WorkedExpressions }
{}
