//! Meanings: what a name or an active character stands for (The TeXbook, chapters 7 and 24; `tex.web`,
//! part 15, on command codes).
ghost use Rattle.std.specs.Prelude.{◌≡◌, ◌↔◌, IsTrue, IfOk};
ghost use Rattle.tokens.specs.Meaning.{same_reg_kind, same_macro, same_meaning};

use crate::list::TokenList;
use std::alloc::AllocError;

/// The six kinds of registers.
#[derive(Clone, Copy, Debug, PartialEq, Eq, Hash)]
pub enum RegKind {
    Count,
    Dimen,
    Skip,
    Muskip,
    Box,
    Toks,
}

impl RegKind {
    /// Whether the two kinds are equal.
    pub fn is_same(self, other: RegKind) -> bool
        ensures equal { IsTrue result ↔ (self ≡ other) }
        ensures value { result ≡ same_reg_kind self other }
    {
        match (self, other) {
            (RegKind::Count, RegKind::Count) => true,
            (RegKind::Dimen, RegKind::Dimen) => true,
            (RegKind::Skip, RegKind::Skip) => true,
            (RegKind::Muskip, RegKind::Muskip) => true,
            (RegKind::Box, RegKind::Box) => true,
            (RegKind::Toks, RegKind::Toks) => true,
            _ => false,
        }
    }
}

/// A macro: the flags of `\long`, `\outer` and `\protected`, its parameter text and its body. In both
/// texts `Token::Arg` stands for a parameter.
#[derive(Debug, Drop)]
pub struct Macro {
    pub long: bool,
    pub outer: bool,
    pub guarded: bool,
    pub params: TokenList,
    pub body: TokenList,
}

impl Macro {
    /// An equal macro, which shares the two texts.
    pub fn share(&self) -> Result<Macro, AllocError>
        ensures { IfOk result (λ copy. copy ≡ self.now) }
    {
        Ok(Macro {
            long: self.long,
            outer: self.outer,
            guarded: self.guarded,
            params: self.params.share()?,
            body: self.body.share()?,
        })
    }

    /// Whether the two macros are equal in flags and texts.
    pub fn is_same(&self, other: &Macro) -> bool
        ensures equal { IsTrue result ↔ (self.now ≡ other.now) }
        ensures value { result ≡ same_macro self.now other.now }
    {
        self.long == other.long
            && self.outer == other.outer
            && self.guarded == other.guarded
            && self.params.is_same(&other.params)
            && self.body.is_same(&other.body)
    }
}

/// What a name or an active character stands for.
#[derive(Debug, Drop)]
pub enum Meaning {
    Undefined,
    /// A primitive, by its place in the tables (`primitive_name`).
    Primitive(u16),
    Macro(Macro),
    /// A character with its category, as `\let` gives it.
    Char { cat: u8, byte: u8 },
    /// A character by `\chardef`.
    CharDef(u8),
    /// A mathematical character by `\mathchardef`, 0 to 32767.
    MathCharDef(u16),
    /// A register by `\countdef` and its mates.
    Register { kind: RegKind, number: u16 },
    /// A font, 0 for `\nullfont`.
    Font(u8),
}

impl Meaning {
    /// An equal meaning, which shares the texts of a macro.
    pub fn share(&self) -> Result<Meaning, AllocError>
        ensures { IfOk result (λ copy. copy ≡ self.now) }
    {
        match self {
            Meaning::Undefined => Ok(Meaning::Undefined),
            Meaning::Primitive(code) => Ok(Meaning::Primitive(*code)),
            Meaning::Macro(m) => Ok(Meaning::Macro(m.share()?)),
            Meaning::Char { cat, byte } => Ok(Meaning::Char {
                cat: *cat,
                byte: *byte,
            }),
            Meaning::CharDef(byte) => Ok(Meaning::CharDef(*byte)),
            Meaning::MathCharDef(code) => Ok(Meaning::MathCharDef(*code)),
            Meaning::Register { kind, number } => Ok(Meaning::Register {
                kind: *kind,
                number: *number,
            }),
            Meaning::Font(font) => Ok(Meaning::Font(*font)),
        }
    }

    /// Whether the two meanings are equal. Macros are where flags and texts are.
    pub fn is_same(&self, other: &Meaning) -> bool
        ensures equal { IsTrue result ↔ (self.now ≡ other.now) }
        ensures value { result ≡ same_meaning self.now other.now }
    {
        match (self, other) {
            (Meaning::Undefined, Meaning::Undefined) => true,
            (Meaning::Primitive(code), Meaning::Primitive(c)) => *code == *c,
            (Meaning::Macro(m), Meaning::Macro(n)) => m.is_same(n),
            (Meaning::Char { cat, byte }, Meaning::Char { cat: c, byte: b }) => {
                *cat == *c && *byte == *b
            }
            (Meaning::CharDef(byte), Meaning::CharDef(b)) => *byte == *b,
            (Meaning::MathCharDef(code), Meaning::MathCharDef(c)) => *code == *c,
            (Meaning::Register { kind, number }, Meaning::Register { kind: k, number: n }) =>
                kind.is_same(*k) && *number == *n,
            (Meaning::Font(font), Meaning::Font(f)) => *font == *f,
            _ => false,
        }
    }
}
