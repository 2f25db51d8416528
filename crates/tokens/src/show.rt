//! The texts of tokens and token lists, as `\message`, `\write` and troubles show them (`tex.web`, parts 18
//! and 20).
ghost use Rattle.std.specs.Prelude.{◌≡◌, [], ◌∷◌, ◌++◌, decimal, IfOk, OnOk, if◌then◌else◌};
ghost use Rattle.tokens.specs.Names.{name_at};
ghost use Rattle.tokens.specs.TokenText.{control_text, space_behind, name_text, argument_text, token_text, tokens_text, token_shown, character_meaning, category_words, escaped};

use crate::categories::CatTable;
use crate::list::TokenList;
use crate::names::NameTable;
use crate::token::{NameId, Token};
use std::alloc::{AllocError, Global};

/// The text of a list. A name that wasn't given by `names` is shown as the empty name.
pub fn tokens_text(
    alloc: Global,
    tokens: &[Token],
    names: &NameTable,
    cats: &CatTable,
    escape: i32,
) -> Result<Vec<u8>, AllocError>
    ensures { IfOk result (λ text. text.items ≡ tokens_text names.now cats.now escape tokens.now) }
{
    let mut text = Vec::new(alloc);
    push_tokens(&mut text, alloc, tokens, names, cats, escape)?;
    Ok(text)
}

/// The text of a list, behind what `text` has already.
pub fn push_tokens(
    text: &mut Vec<u8>,
    alloc: Global,
    tokens: &[Token],
    names: &NameTable,
    cats: &CatTable,
    escape: i32,
) -> Result<(), AllocError>
    ensures { OnOk result (text.new.items ≡ text.old.items ++ tokens_text names.now cats.now escape tokens.now) }
{
    for token in tokens {
        push_token(text, alloc, *token, names, cats, escape)?;
    }
    Ok(())
}

/// A token as troubles name it: a name without a space behind it, a character by its meaning.
pub fn token_shown(
    alloc: Global,
    token: Token,
    names: &NameTable,
    escape: i32,
) -> Result<Vec<u8>, AllocError>
    ensures { IfOk result (λ text. text.items ≡ token_shown names.now escape token) }
{
    let mut text = Vec::new(alloc);
    match token {
        Token::Char { cat, byte } => push_character(&mut text, cat, byte)?,
        Token::Active(byte) => text.push(byte)?,
        Token::Name(id) => push_control(&mut text, name_of(names, id), escape)?,
        Token::Arg(number) => push_argument(&mut text, alloc, number)?,
        Token::Frozen(_) => push_escaped(&mut text, b"relax", escape)?,
    }
    Ok(text)
}

/// The same of a shared list.
pub fn push_list(
    text: &mut Vec<u8>,
    alloc: Global,
    list: &TokenList,
    names: &NameTable,
    cats: &CatTable,
    escape: i32,
) -> Result<(), AllocError>
    ensures { OnOk result (text.new.items ≡ text.old.items ++ tokens_text names.now cats.now escape list.now) }
{
    push_tokens(text, alloc, list.as_slice(), names, cats, escape)
}

fn push_token(
    text: &mut Vec<u8>,
    alloc: Global,
    token: Token,
    names: &NameTable,
    cats: &CatTable,
    escape: i32,
) -> Result<(), AllocError>
    ensures { OnOk result (text.new.items ≡ text.old.items ++ token_text names.now cats.now escape token) }
{
    match token {
        Token::Char { cat: 6, byte } => text.extend_from_slice(&[byte, byte])?,
        Token::Char { cat: _, byte } => text.push(byte)?,
        Token::Active(byte) => text.push(byte)?,
        Token::Name(id) => push_name(text, name_of(names, id), cats, escape)?,
        Token::Arg(number) => push_argument(text, alloc, number)?,
        Token::Frozen(_) => push_name(text, b"relax", cats, escape)?,
    }
    Ok(())
}

fn name_of(names: &NameTable, id: NameId) -> &[u8]
    ensures { result.now ≡ name_at names.now id.0 }
{
    if id.0 < names.len() {
        names.text(id)
    } else {
        b""
    }
}

fn push_name(
    text: &mut Vec<u8>,
    name: &[u8],
    cats: &CatTable,
    escape: i32,
) -> Result<(), AllocError>
    ensures { OnOk result (text.new.items ≡ text.old.items ++ name_text cats.now escape name.now) }
{
    push_control(text, name, escape)?;
    if has_space(name, cats) {
        text.push(b' ')?;
    }
    Ok(())
}

fn has_space(name: &[u8], cats: &CatTable) -> bool
    ensures { space_behind cats.now name.now ≡ (if result then 32 ∷ [] else []) }
{
    match name {
        [byte] => cats.get(*byte) == 11,
        _ => true,
    }
}

/// A name behind the escape character.
pub fn push_control(text: &mut Vec<u8>, name: &[u8], escape: i32) -> Result<(), AllocError>
    ensures { OnOk result (text.new.items ≡ text.old.items ++ control_text escape name.now) }
{
    if name.is_empty() {
        push_escaped(text, b"csname", escape)?;
        push_escaped(text, b"endcsname", escape)
    } else {
        push_escaped(text, name, escape)
    }
}

/// A word behind the escape character.
pub fn push_escaped(text: &mut Vec<u8>, word: &[u8], escape: i32) -> Result<(), AllocError>
    ensures { OnOk result (text.new.items ≡ text.old.items ++ escaped escape word.now) }
{
    if let Ok(byte) = u8::try_from(escape) {
        text.push(byte)?;
    }
    text.extend_from_slice(word)
}

fn push_argument(text: &mut Vec<u8>, alloc: Global, number: u8) -> Result<(), AllocError>
    ensures { OnOk result (text.new.items ≡ text.old.items ++ argument_text number) }
{
    text.push(b'#')?;
    push_decimal(text, alloc, u16::from(number))
}

/// A number in decimal digits.
pub fn push_decimal(text: &mut Vec<u8>, alloc: Global, number: u16) -> Result<(), AllocError>
    ensures { OnOk result (text.new.items ≡ text.old.items ++ decimal number) }
{
    let digits = format!(in alloc; "{number}")?;
    text.extend_from_slice(digits.as_bytes())
}

/// A character by its meaning.
pub fn push_character(text: &mut Vec<u8>, cat: u8, byte: u8) -> Result<(), AllocError>
    ensures { OnOk result (text.new.items ≡ text.old.items ++ character_meaning cat byte) }
{
    text.extend_from_slice(words_of(cat))?;
    text.push(byte)?;
    Ok(())
}

fn words_of(cat: u8) -> &'static [u8]
    ensures { result.now ≡ category_words cat }
{
    match cat {
        1 => b"begin-group character ",
        2 => b"end-group character ",
        3 => b"math shift character ",
        4 => b"alignment tab character ",
        6 => b"macro parameter character ",
        7 => b"superscript character ",
        8 => b"subscript character ",
        10 => b"blank space ",
        11 => b"the letter ",
        _ => b"the character ",
    }
}
