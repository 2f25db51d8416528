//! What a token is to an expression.
ghost use Rattle.std.specs.Prelude.{◌≡◌};
ghost use Rattle.etex_exprs.specs.TermTreeMarks.{is_blank, is_relax, character_mark, command_mark, mark_of};

use tokens::codes::RELAX;
use tokens::{Meaning, Token};

/// The category of a space.
const SPACE: u8 = 10;

/// The category of digits and signs.
const OTHER_CHARACTER: u8 = 12;

/// What joins two operands.
#[derive(Clone, Copy)]
pub enum Operator {
    Plus,
    Minus,
    Times,
    Over,
}

/// What a token is to an expression.
#[derive(Clone, Copy)]
pub enum Mark {
    Blank,
    Open,
    Close,
    Operator(Operator),
    Relax,
    Other,
}

fn is_blank(meaning: &Meaning) -> bool
    ensures { result ≡ is_blank meaning.now }
{
    match meaning {
        Meaning::Char { cat, .. } => *cat == SPACE,
        _ => false,
    }
}

fn is_relax(meaning: &Meaning) -> bool
    ensures { result ≡ is_relax meaning.now }
{
    match meaning {
        Meaning::Primitive(code) => *code == RELAX,
        _ => false,
    }
}

fn character_mark(byte: u8) -> Mark
    ensures { result ≡ character_mark byte }
{
    match byte {
        b'(' => Mark::Open,
        b')' => Mark::Close,
        b'*' => Mark::Operator(Operator::Times),
        b'+' => Mark::Operator(Operator::Plus),
        b'-' => Mark::Operator(Operator::Minus),
        b'/' => Mark::Operator(Operator::Over),
        _ => Mark::Other,
    }
}

fn command_mark(meaning: &Meaning) -> Mark
    ensures { result ≡ command_mark meaning.now }
{
    if is_relax(meaning) {
        Mark::Relax
    } else {
        Mark::Other
    }
}

/// What the token is, with the meaning that it has now.
pub fn mark_of(token: Token, meaning: &Meaning) -> Mark
    ensures { result ≡ mark_of token meaning.now }
{
    if is_blank(meaning) {
        return Mark::Blank;
    }
    match token {
        Token::Char { cat, byte } if cat == OTHER_CHARACTER => character_mark(byte),
        _ => command_mark(meaning),
    }
}
