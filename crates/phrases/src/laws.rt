//! Laws of phrases, whatever their rules are.
ghost use Rattle.phrases.specs.Laws.{NestingLaw};
ghost use Rattle.phrases.specs.Stack.{StackLaw};

/// What a phrase comes to is what it comes to behind its next turn; and where some turns suffice, more turns mean the
/// same.
pub fn nesting_law<S, C, K, X, Y>()
    ensures law { NestingLaw S C K X Y }
{}

/// Turns of the innermost phrase of a stack come to what the recursion gives.
pub fn stack_law<S, C, K, X, Y>()
    ensures law { StackLaw S C K X Y }
{}
