//! Where in its innermost level an expression stands.

use scaled::Glue;

/// What comes next.
#[derive(Clone, Copy)]
pub enum Place {
    /// An operand or a parenthesis comes next.
    Operand,
    /// The value of an operand comes next.
    Begun,
    /// An operator or the end comes next. The factor in front of it has this value, of which the bound wasn't
    /// looked at.
    Behind(Glue),
    /// Nothing more comes.
    Ended,
}
