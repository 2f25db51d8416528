//! How far a dimension was read, and what one thing more leads to.

use crate::constant::{Constant, Radix};
use crate::decimals::Decimals;
use crate::keyword::Letters;
use crate::unit::{Extent, Factor, TrueFactor};
use crate::verdict::Verdict;
use scaled::Order;

/// Which units a dimension may have.
#[derive(Clone, Copy)]
pub struct DimenKind {
    /// The unit is mu, not one of length.
    pub mu: bool,
    /// It may be `fil` and its mates too.
    pub orders: bool,
}

/// How far a dimension was read.
#[derive(Clone, Copy)]
pub enum DimenState {
    /// Nothing but signs and spaces.
    Signs {
        negative: bool,
    },
    /// The mark of a character constant.
    Character {
        negative: bool,
    },
    /// Digits of a whole number, or their mark.
    Digits {
        negative: bool,
        constant: Constant,
    },
    /// Digits that passed the bound just now.
    TooBig {
        negative: bool,
        radix: Radix,
    },
    /// A token where a number should stand.
    Missing {
        negative: bool,
    },
    /// A decimal point, and digits behind it.
    Fraction {
        negative: bool,
        whole: u32,
        decimals: Decimals,
    },
    /// A quantity with which the dimension begins. Its value was asked for.
    Asked {
        negative: bool,
    },
    /// A factor, and spaces behind it.
    AtUnit {
        negative: bool,
        factor: Factor,
    },
    /// Letters of the unit.
    Word {
        negative: bool,
        factor: Factor,
        letters: Letters,
    },
    /// A quantity as the unit. Its value was asked for.
    UnitAsked {
        negative: bool,
        factor: Factor,
    },
    /// `em` or `ex`. Its value was asked for.
    FontAsked {
        negative: bool,
        factor: Factor,
    },
    /// `true`. The magnification was asked for.
    MagAsked {
        negative: bool,
        factor: Factor,
    },
    /// `true` and spaces behind it, and what the factor is without it.
    Physical {
        negative: bool,
        factor: TrueFactor,
    },
    /// Letters of the unit behind `true`.
    PhysicalWord {
        negative: bool,
        factor: TrueFactor,
        letters: Letters,
    },
    /// `fil` with further letters l and spaces.
    Fil {
        extent: Extent,
        order: Order,
    },
    /// A whole dimension, behind which a space may stand.
    Space {
        extent: Extent,
        order: Order,
    },
    /// No unit, behind a factor that is this dimension.
    NoUnit {
        extent: Extent,
    },
    /// A dimension that is too large.
    TooLarge {
        negative: bool,
        order: Order,
    },
    Ended,
}

/// What one thing more has led to.
#[derive(Drop)]
pub enum DimenStep {
    Going {
        state: DimenState,
        verdict: Verdict,
    },
    /// The dimension has ended; the last token may not be part of it.
    Finished {
        value: i32,
        order: Order,
        given_back: bool,
    },
}
