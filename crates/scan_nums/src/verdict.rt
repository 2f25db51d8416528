//! What an automaton says when it was handed a token or an answer.
ghost use Rattle.std.specs.Prelude.{◌≡◌};
ghost use Rattle.scan_nums.specs.Number.{is_of_phrase};

use crate::number::{Number, Quantity};
use tokens::Kind;

/// A kind of phrase that gives a number.
#[derive(Clone, Copy, Debug, PartialEq, Eq)]
pub enum Phrase {
    Int,
    Dimen,
    /// A dimension in mu.
    Mu,
    Glue,
    MuGlue,
    /// An expression: 0 for `\numexpr`, 1 for `\dimexpr`, 2 for `\glueexpr`, 3 for `\muexpr`.
    Expr(u8),
}

impl Phrase {
    /// Whether the number is of the kind that the phrase gives.
    pub fn gives(self, number: Number) -> bool
        ensures { result ≡ is_of_phrase self number }
    {
        match (self, number) {
            (Phrase::Int, Number::Int(_)) => true,
            (Phrase::Dimen, Number::Dimen(_)) => true,
            (Phrase::Mu, Number::Dimen(_)) => true,
            (Phrase::Glue, Number::Glue(_)) => true,
            (Phrase::MuGlue, Number::MuGlue(_)) => true,
            (Phrase::Expr(0), Number::Int(_)) => true,
            (Phrase::Expr(1), Number::Dimen(_)) => true,
            (Phrase::Expr(2), Number::Glue(_)) => true,
            (Phrase::Expr(3), Number::MuGlue(_)) => true,
            _ => false,
        }
    }
}

/// What is to be done next.
#[derive(Drop)]
pub enum Verdict {
    /// Hand in the next token.
    Need,
    /// Answer the value of the quantity.
    Ask(Quantity),
    /// Read the phrase, which begins with the next token, and answer its value.
    Sub(Phrase),
    /// The phrase ended with the last token or answer.
    Done(Number),
    /// The phrase has ended. The last `back` tokens, 1 to 5, aren't part of it: the one that can't continue
    /// it, and in front of that the letters of a keyword that wasn't completed.
    DoneBefore { number: Number, back: u8 },
    /// The phrase can't be read.
    Trouble(Kind),
    /// A trouble that TeX reports and passes over. The last `back` tokens, 0 to 5, are to be read
    /// again, and then the automaton is to be resumed.
    Pass { kind: Kind, back: u8 },
}
