//! What a token is where a number may begin (`tex.web` 413 and 440 to 444).
ghost use Rattle.std.specs.Prelude.{◌≡◌};
ghost use Rattle.scan_nums.specs.Starts.{other_byte, byte_of, is_space, is_asked, start_of, start_of_meaning, start_of_primitive, start_of_register};
ghost use Rattle.scan_nums.specs.Dimension.{is_point};

use crate::number::Quantity;
use tokens::{Meaning, RegKind, Token, codes};

/// The ways in which a number can begin, and what can stand in front of it.
#[derive(Clone, Copy)]
pub enum Start {
    Space,
    Plus,
    Minus,
    /// The mark of a character constant.
    Accent,
    /// The mark of an octal constant.
    Octal,
    /// The mark of a hexadecimal constant.
    Hexadecimal,
    /// A character by `\chardef` or `\mathchardef`, which is its number.
    Given(u16),
    /// A parameter, a register or the like.
    Wanted(Quantity),
    /// An expression, counted from `\numexpr`.
    Expression(u8),
    Other,
}

/// The category of characters that are neither letters nor special.
const OTHER: u8 = 12;

/// The category of spaces.
const SPACER: u8 = 10;

/// What the token is where a number may begin.
#[tactic(auto, unfolding(crate::specs::Starts::start_of))]
pub fn start_of(token: Token, meaning: &Meaning) -> Start
    ensures { result ≡ start_of token meaning.now }
{
    match other_byte(token) {
        Some(byte) => {
            if byte == b'+' {
                Start::Plus
            } else if byte == b'-' {
                Start::Minus
            } else if byte == b'`' {
                Start::Accent
            } else if byte == b'\'' {
                Start::Octal
            } else if byte == b'"' {
                Start::Hexadecimal
            } else {
                start_of_meaning(meaning)
            }
        }
        None => start_of_meaning(meaning),
    }
}

/// The byte of a character of category 12.
pub fn other_byte(token: Token) -> Option<u8>
    ensures { result ≡ other_byte token }
{
    match token {
        Token::Char { cat, byte } => if cat == OTHER { Some(byte) } else { None },
        Token::Active(_) | Token::Name(_) | Token::Arg(_) | Token::Frozen(_) => None,
    }
}

/// Whether the token is a decimal point or comma.
#[tactic(auto, unfolding(crate::specs::Dimension::is_point))]
pub fn is_point(token: Token) -> bool
    ensures { result ≡ is_point token }
{
    match other_byte(token) {
        Some(byte) => byte == b'.' || byte == b',',
        None => false,
    }
}

/// The byte that a character constant gives for the token.
#[tactic(auto, unfolding(crate::specs::Starts::byte_of))]
pub fn byte_of(token: Token) -> Option<u8>
    ensures { result ≡ byte_of token }
{
    match token {
        Token::Char { cat: _, byte } => Some(byte),
        Token::Active(byte) => Some(byte),
        Token::Name(_) | Token::Arg(_) | Token::Frozen(_) => None,
    }
}

/// Whether the token is a space by its meaning.
#[tactic(auto, unfolding(crate::specs::Starts::is_space))]
pub fn is_space(meaning: &Meaning) -> bool
    ensures { result ≡ is_space meaning.now }
{
    match meaning {
        Meaning::Char { cat, byte: _ } => *cat == SPACER,
        Meaning::Undefined
        | Meaning::Primitive(_)
        | Meaning::Macro(_)
        | Meaning::CharDef(_)
        | Meaning::MathCharDef(_)
        | Meaning::Register { .. }
        | Meaning::Font(_) => false,
    }
}

fn start_of_meaning(meaning: &Meaning) -> Start
    ensures { result ≡ start_of_meaning meaning.now }
{
    match meaning {
        Meaning::Primitive(code) => start_of_primitive(*code),
        Meaning::Char { cat, byte: _ } => if *cat == SPACER {
            Start::Space
        } else {
            Start::Other
        },
        Meaning::CharDef(byte) => Start::Given(u16::from(*byte)),
        Meaning::MathCharDef(number) => Start::Given(*number),
        Meaning::Register { kind, number } => start_of_register(*kind, *number),
        Meaning::Undefined | Meaning::Macro(_) | Meaning::Font(_) => Start::Other,
    }
}

fn start_of_register(kind: RegKind, number: u16) -> Start
    ensures { result ≡ start_of_register kind number }
{
    match kind {
        RegKind::Count => register(codes::COUNT, number),
        RegKind::Dimen => register(codes::DIMEN, number),
        RegKind::Skip => register(codes::SKIP, number),
        RegKind::Muskip => register(codes::MUSKIP, number),
        RegKind::Box | RegKind::Toks => Start::Other,
    }
}

fn register(code: u16, number: u16) -> Start
    ensures { result ≡ Start.Wanted (record { code = code; index = Some number }) }
{
    Start::Wanted(Quantity {
        code,
        index: Some(number),
    })
}

fn start_of_primitive(code: u16) -> Start
    ensures { result ≡ start_of_primitive code }
{
    if codes::NUMEXPR <= code && code <= codes::MUEXPR {
        Start::Expression((code - codes::NUMEXPR) as u8)
    } else if is_asked(code) {
        Start::Wanted(Quantity { code, index: None })
    } else {
        Start::Other
    }
}

// Whether the primitive has a number, a dimension or a glue as its value.
fn is_asked(code: u16) -> bool
    ensures { result ≡ is_asked code }
{
    (codes::PRETOLERANCE <= code && code <= codes::THICKMUSKIP)
        || (codes::COUNT <= code && code <= codes::MUSKIP)
        || (codes::WD <= code && code <= codes::SKEWCHAR)
        || (codes::PARSHAPE <= code && code <= codes::BADNESS)
        || (codes::GLUESTRETCH <= code && code <= codes::SAVINGHYPHCODES)
}
