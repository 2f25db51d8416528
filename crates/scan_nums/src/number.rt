//! Quantities and their values: what TeX reads and stores as numbers, dimensions and glue.
ghost use Rattle.std.specs.Prelude.{◌≡◌, ◌↔◌, IsTrue};
ghost use Rattle.scan_nums.specs.Number.{IsNegatable, first_number};

use scaled::Glue;

/// A value with its kind. Dimensions are in sp, and the numbers of a mu glue in 65536ths of a mu.
#[derive(Clone, Copy, Debug, PartialEq, Eq)]
pub enum Number {
    Int(i32),
    /// A dimension, of which the unit may also be mu.
    Dimen(i32),
    Glue(Glue),
    MuGlue(Glue),
}

impl Number {
    /// The number or dimension itself, or the width of a glue.
    pub fn first(self) -> i32
        ensures { result ≡ first_number self }
    {
        match self {
            Number::Int(n) => n,
            Number::Dimen(n) => n,
            Number::Glue(glue) => glue.width,
            Number::MuGlue(glue) => glue.width,
        }
    }

    /// Whether the negative of each of its numbers is a number too: -2147483648 has none.
    pub fn is_negatable(self) -> bool
        ensures { IsTrue result ↔ IsNegatable self }
    {
        match self {
            Number::Int(n) => n > i32::MIN,
            Number::Dimen(n) => n > i32::MIN,
            Number::Glue(glue) => is_negatable_glue(glue),
            Number::MuGlue(glue) => is_negatable_glue(glue),
        }
    }
}

fn is_negatable_glue(glue: Glue) -> bool
    ensures { IsTrue result ↔ IsNegatable (Number.Glue glue) }
{
    glue.width > i32::MIN && glue.stretch > i32::MIN && glue.shrink > i32::MIN
}

/// What a document can ask for by a name: a parameter, a register, a size. The code is a primitive's.
#[derive(Clone, Copy, Debug, PartialEq, Eq)]
pub struct Quantity {
    pub code: u16,
    /// The register or font parameter where it is known. Where it is `None`, what the primitive takes
    /// as operands of its own is still to be read.
    pub index: Option<u16>,
}
