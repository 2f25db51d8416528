//! The four sorts of expressions.
ghost use Rattle.std.specs.Prelude.{◌≡◌};
ghost use Rattle.etex_exprs.specs.TermTreeParts.{phrase_of, bound_of, parts_of, number_of, rigid};

use scaled::{Glue, Order};
use scan_nums::{Number, Phrase};

/// What an expression gives: a whole number, a dimension, a glue or a mu glue.
#[derive(Clone, Copy)]
pub enum Sort {
    Whole,
    Length,
    Spread,
    MuSpread,
}

impl Sort {
    /// The phrase that an operand of this sort is.
    pub fn phrase(self) -> Phrase
        ensures { result ≡ phrase_of self }
    {
        match self {
            Sort::Whole => Phrase::Int,
            Sort::Length => Phrase::Dimen,
            Sort::Spread => Phrase::Glue,
            Sort::MuSpread => Phrase::MuGlue,
        }
    }

    /// The most that a number or a part of a glue may be, either way.
    pub fn bound(self) -> i32
        ensures { result ≡ bound_of self }
    {
        match self {
            Sort::Whole => i32::MAX,
            Sort::Length | Sort::Spread | Sort::MuSpread => (1 << 30) - 1,
        }
    }

    /// The value as a number of this sort.
    pub fn number(self, value: Glue) -> Number
        ensures { result ≡ number_of self value }
    {
        match self {
            Sort::Whole => Number::Int(value.width),
            Sort::Length => Number::Dimen(value.width),
            Sort::Spread => Number::Glue(value),
            Sort::MuSpread => Number::MuGlue(value),
        }
    }
}

fn rigid(width: i32) -> Glue
    ensures { result ≡ rigid width }
{
    Glue {
        width,
        stretch: 0,
        stretch_order: Order::Normal,
        shrink: 0,
        shrink_order: Order::Normal,
    }
}

/// The number as a glue, which for a number or a dimension neither stretches nor shrinks.
pub fn parts_of(number: Number) -> Glue
    ensures { result ≡ parts_of number }
{
    match number {
        Number::Int(n) => rigid(n),
        Number::Dimen(n) => rigid(n),
        Number::Glue(glue) => glue,
        Number::MuGlue(glue) => glue,
    }
}
