//! How far a glue was read.
ghost use Rattle.std.specs.Prelude.{◌≡◌};
ghost use Rattle.scan_nums.specs.GlueStanding.{expected_letter, following_letters, given_back, orders_of};

use crate::dimen_state::DimenState;
use scaled::Order;

/// A part of a glue, with the parts in front of it.
#[derive(Clone, Copy)]
pub enum GluePart {
    Width,
    Stretch {
        width: i32,
    },
    Shrink {
        width: i32,
        stretch: i32,
        order: Order,
    },
}

/// Letters of `plus` or `minus` that were read.
#[derive(Clone, Copy)]
pub enum PartLetters {
    P,
    Pl,
    Plu,
    M,
    Mi,
    Min,
    Minu,
}

/// How far a glue was read.
#[derive(Clone, Copy)]
pub enum GlueState {
    /// Nothing but signs and spaces.
    Signs {
        negative: bool,
    },
    /// A quantity with which the glue begins. Its value was asked for.
    Asked {
        negative: bool,
    },
    /// A part of it, so far.
    Part {
        part: GluePart,
        state: DimenState,
    },
    /// The width, and spaces behind it.
    BehindWidth {
        width: i32,
    },
    /// The stretch, and spaces behind it.
    BehindStretch {
        width: i32,
        stretch: i32,
        order: Order,
    },
    /// Letters of the keyword in front of a part.
    Word {
        part: GluePart,
        letters: PartLetters,
    },
    Ended,
}

impl GluePart {
    /// Whether it may be infinite.
    pub fn orders(self) -> bool
        ensures { result ≡ orders_of self }
    {
        match self {
            GluePart::Width => false,
            GluePart::Stretch { .. } | GluePart::Shrink { .. } => true,
        }
    }
}

impl PartLetters {
    /// The letter with which the keyword goes on.
    pub fn expected(self) -> u8
        ensures { result ≡ expected_letter self }
    {
        match self {
            PartLetters::P => b'l',
            PartLetters::Pl => b'u',
            PartLetters::Plu => b's',
            PartLetters::M => b'i',
            PartLetters::Mi => b'n',
            PartLetters::Min => b'u',
            PartLetters::Minu => b's',
        }
    }

    /// What is read with that letter. `None` where the keyword is whole then.
    pub fn following(self) -> Option<PartLetters>
        ensures { result ≡ following_letters self }
    {
        match self {
            PartLetters::P => Some(PartLetters::Pl),
            PartLetters::Pl => Some(PartLetters::Plu),
            PartLetters::Plu => None,
            PartLetters::M => Some(PartLetters::Mi),
            PartLetters::Mi => Some(PartLetters::Min),
            PartLetters::Min => Some(PartLetters::Minu),
            PartLetters::Minu => None,
        }
    }

    /// How many tokens are given back where another one comes: the letters and that one.
    pub fn given_back(self) -> u8
        ensures { result ≡ given_back self }
    {
        match self {
            PartLetters::P => 2,
            PartLetters::Pl => 3,
            PartLetters::Plu => 4,
            PartLetters::M => 2,
            PartLetters::Mi => 3,
            PartLetters::Min => 4,
            PartLetters::Minu => 5,
        }
    }
}
