//! What an environment has an entry for (The TeXbook, chapter 24; `tex.web`, part 17, the table of
//! equivalents).

use tokens::{NameId, RegKind};

/// One entry of an environment.
#[derive(Clone, Copy, Debug, PartialEq, Eq)]
pub enum Key {
    /// A register, 0 to 32767, or to 255 in compatibility mode.
    Register { kind: RegKind, number: u16 },
    /// A parameter, by its place among all of them (`parameters`).
    Parameter(u8),
    /// A code of a byte. The tables 0 to 5 are those of `\catcode`, `\lccode`, `\uccode`, `\sfcode`,
    /// `\mathcode` and `\delcode`.
    Code { table: u8, byte: u8 },
    /// What a name stands for.
    Name(NameId),
    /// What an active character stands for.
    Active(u8),
    /// The font that is in use.
    CurrentFont,
    /// The font of a family, 0 to 15. The sizes 0 to 2 are those of `\textfont`, `\scriptfont` and
    /// `\scriptscriptfont`.
    Family { size: u8, number: u8 },
    /// The shape of paragraphs (`\parshape`).
    Shape,
    /// An array of penalties, 0 to 3: `\interlinepenalties`, `\clubpenalties`, `\widowpenalties` and
    /// `\displaywidowpenalties`. Only extended mode has them.
    Penalties(u8),
}

/// For how long an assignment holds.
#[derive(Clone, Copy, Debug, PartialEq, Eq)]
pub enum Scope {
    /// To the end of the group.
    Local,
    /// In all groups.
    Global,
}
