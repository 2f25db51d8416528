//! What is kept of an expression while it is read: for each parenthesis that is open, the sum and the
//! product in front of what comes next, by their values.
ghost use Rattle.std.specs.Prelude.{◌≡◌};
ghost use Rattle.etex_exprs.specs.Levels.{factor_sort};
ghost use Rattle.etex_exprs.specs.Steps.{start_level, carried_out, term_of, joined, whole_of, with_product, with_sum, divided_level, with_operator};

use crate::mark::Operator;
use crate::parts::{self, scaled_by};
use crate::sort::Sort;
use scaled::Glue;

/// The sum in front of the last sign of a level, with that sign.
#[derive(Clone, Copy)]
pub enum Lead {
    Nothing,
    Plus(Glue),
    Minus(Glue),
}

/// The product in front of the last `*` or `/` behind that sign.
#[derive(Clone, Copy)]
pub enum Product {
    Nothing,
    Times(Glue),
    Over(Glue),
    /// A product that is divided, and so isn't carried out: `value * factor /`.
    Fraction { value: Glue, factor: i32 },
}

/// An expression, or one in parentheses, of which the end hasn't come.
#[derive(Clone, Copy)]
pub struct Level {
    pub sort: Sort,
    pub lead: Lead,
    pub product: Product,
}

/// A level of which nothing was read.
pub fn start_level(sort: Sort) -> Level
    ensures { result ≡ start_level sort }
{
    Level {
        sort,
        lead: Lead::Nothing,
        product: Product::Nothing,
    }
}

impl Default for Level {
    fn default() -> Level {
        start_level(Sort::Whole)
    }
}

impl Level {
    /// The sort of the next factor: operands of `*` and `/` are whole numbers.
    pub fn factor_sort(self) -> Sort
        ensures { result ≡ factor_sort self }
    {
        match self.product {
            Product::Nothing => self.sort,
            Product::Times(_) | Product::Over(_) | Product::Fraction { .. } => Sort::Whole,
        }
    }

    // The product with one more factor.
    fn carried_out(self, factor: Glue) -> Option<Glue>
        ensures { result ≡ carried_out self factor }
    {
        let bound = self.sort.bound();
        match self.product {
            Product::Nothing => Some(factor),
            Product::Times(value) => parts::multiplied(bound, value, factor.width),
            Product::Over(value) => parts::divided(bound, value, factor.width),
            Product::Fraction { value, factor: n } => scaled_by(bound, value, n, factor.width),
        }
    }

    // The product with a factor of which the bound wasn't looked at.
    fn term_of(self, factor: Glue) -> Option<Glue>
        ensures { result ≡ term_of self factor }
    {
        let factor = parts::checked(self.factor_sort().bound(), factor)?;
        self.carried_out(factor)
    }

    // The sum with one more term.
    fn joined(self, term: Glue) -> Option<Glue>
        ensures { result ≡ joined self term }
    {
        let bound = self.sort.bound();
        match self.lead {
            Lead::Nothing => Some(term),
            Lead::Plus(value) => parts::glue_sum(bound, value, term),
            Lead::Minus(value) => parts::glue_difference(bound, value, term),
        }
    }

    /// The value of the level with its last factor.
    pub fn whole_of(self, factor: Glue) -> Option<Glue>
        ensures { result ≡ whole_of self factor }
    {
        let term = self.term_of(factor)?;
        self.joined(term)
    }

    fn with_sum(self, lead: Lead) -> Level
        ensures { result ≡ with_sum self lead }
    {
        Level {
            sort: self.sort,
            lead,
            product: Product::Nothing,
        }
    }

    fn with_product(self, product: Product) -> Level
        ensures { result ≡ with_product self product }
    {
        Level {
            sort: self.sort,
            lead: self.lead,
            product,
        }
    }

    // A product that is divided isn't carried out.
    fn divided(self, factor: Glue) -> Option<Level>
        ensures { result ≡ divided_level self factor }
    {
        match self.product {
            Product::Times(value) => {
                let factor = parts::checked(Sort::Whole.bound(), factor)?;
                Some(self.with_product(Product::Fraction {
                    value,
                    factor: factor.width,
                }))
            }
            Product::Nothing | Product::Over(_) | Product::Fraction { .. } => {
                let term = self.term_of(factor)?;
                Some(self.with_product(Product::Over(term)))
            }
        }
    }

    /// The level behind a factor and an operator.
    pub fn with_operator(self, factor: Glue, operator: Operator) -> Option<Level>
        ensures { result ≡ with_operator self factor operator }
    {
        match operator {
            Operator::Plus => {
                let value = self.whole_of(factor)?;
                Some(self.with_sum(Lead::Plus(value)))
            }
            Operator::Minus => {
                let value = self.whole_of(factor)?;
                Some(self.with_sum(Lead::Minus(value)))
            }
            Operator::Times => {
                let term = self.term_of(factor)?;
                Some(self.with_product(Product::Times(term)))
            }
            Operator::Over => self.divided(factor),
        }
    }
}
