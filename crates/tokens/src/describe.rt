//! The texts of meanings, as `\meaning` and `\show` give them (`tex.web`, section 298 and those that it
//! collects).
ghost use Rattle.std.specs.Prelude.{◌≡◌, ◌∷◌, [], ◌++◌, codes, IfOk, OnOk};
ghost use Rattle.std.specs.Fmt.{digits};
ghost use Rattle.tokens.specs.TokenText.{meaning_text, meaning_head, meaning_tail, has_tail, macro_text, flags_text, hex_text, register_name, is_mark_code, flag_text};

use crate::categories::CatTable;
use crate::meaning::{Macro, Meaning, RegKind};
use crate::names::NameTable;
use crate::{codes, primitives, show};
use std::alloc::{AllocError, Global};

/// The text of a meaning. What only the caller knows is `above`: of a font its name, with its size where
/// that isn't the design size, as `tf10 at 5.0pt`; of the five primitives for marks the text of the mark;
/// of any other meaning it doesn't matter.
pub fn meaning_text(
    alloc: Global,
    meaning: &Meaning,
    names: &NameTable,
    cats: &CatTable,
    escape: i32,
    above: &[u8],
) -> Result<Vec<u8>, AllocError>
    ensures { IfOk result (λ text. text.items ≡ meaning_text names.now cats.now escape above.now meaning.now) }
{
    let mut text = meaning_head(alloc, meaning, escape, above)?;
    push_tail(&mut text, alloc, meaning, names, cats, escape, above)?;
    Ok(text)
}

/// The text of a meaning up to its colon, if it has one. `\show` ends the line there.
pub fn meaning_head(
    alloc: Global,
    meaning: &Meaning,
    escape: i32,
    above: &[u8],
) -> Result<Vec<u8>, AllocError>
    ensures { IfOk result (λ text. text.items ≡ meaning_head escape above.now meaning.now) }
{
    let mut text = Vec::new(alloc);
    match meaning {
        Meaning::Undefined => text.extend_from_slice(b"undefined")?,
        Meaning::Primitive(code) => push_primitive(&mut text, *code, escape)?,
        Meaning::Macro(m) => {
            push_flags(&mut text, m, escape)?;
            text.extend_from_slice(b"macro:")?;
        }
        Meaning::Char { cat, byte } => show::push_character(&mut text, *cat, *byte)?,
        Meaning::CharDef(byte) => push_hex(&mut text, alloc, b"char", u16::from(*byte), escape)?,
        Meaning::MathCharDef(code) => push_hex(&mut text, alloc, b"mathchar", *code, escape)?,
        Meaning::Register { kind, number } => {
            show::push_escaped(&mut text, register_word(*kind), escape)?;
            show::push_decimal(&mut text, alloc, *number)?;
        }
        Meaning::Font(_) => {
            text.extend_from_slice(b"select font ")?;
            text.extend_from_slice(above)?;
        }
    }
    Ok(text)
}

/// Whether a meaning has a colon with something behind it: a macro, or a primitive that shows a mark.
pub fn has_tail(meaning: &Meaning) -> bool
    ensures { result ≡ has_tail meaning.now }
{
    match meaning {
        Meaning::Primitive(code) => is_mark_code(*code),
        Meaning::Macro(_) => true,
        _ => false,
    }
}

/// What stands behind the colon of a meaning.
pub fn meaning_tail(
    alloc: Global,
    meaning: &Meaning,
    names: &NameTable,
    cats: &CatTable,
    escape: i32,
    above: &[u8],
) -> Result<Vec<u8>, AllocError>
    ensures { IfOk result (λ text. text.items ≡ meaning_tail names.now cats.now escape above.now meaning.now) }
{
    let mut text = Vec::new(alloc);
    push_tail(&mut text, alloc, meaning, names, cats, escape, above)?;
    Ok(text)
}

fn push_tail(
    text: &mut Vec<u8>,
    alloc: Global,
    meaning: &Meaning,
    names: &NameTable,
    cats: &CatTable,
    escape: i32,
    above: &[u8],
) -> Result<(), AllocError>
    ensures { OnOk result (text.new.items ≡ text.old.items ++ meaning_tail names.now cats.now escape above.now meaning.now) }
{
    match meaning {
        Meaning::Macro(m) => push_macro(text, alloc, m, names, cats, escape),
        Meaning::Primitive(code) if is_mark_code(*code) => text.extend_from_slice(above),
        _ => Ok(()),
    }
}

fn push_macro(
    text: &mut Vec<u8>,
    alloc: Global,
    m: &Macro,
    names: &NameTable,
    cats: &CatTable,
    escape: i32,
) -> Result<(), AllocError>
    ensures { OnOk result (text.new.items ≡ text.old.items ++ macro_text names.now cats.now escape m.now) }
{
    show::push_list(text, alloc, &m.params, names, cats, escape)?;
    text.extend_from_slice(b"->")?;
    show::push_list(text, alloc, &m.body, names, cats, escape)?;
    Ok(())
}

fn push_primitive(text: &mut Vec<u8>, code: u16, escape: i32) -> Result<(), AllocError>
    ensures { OnOk result (text.new.items ≡ text.old.items ++ meaning_head escape [] (Meaning.Primitive code)) }
{
    show::push_escaped(text, primitives::name_bytes(code), escape)?;
    if is_mark_code(code) {
        text.push(b':')?;
    }
    Ok(())
}

fn is_mark_code(code: u16) -> bool
    ensures { result ≡ is_mark_code code }
{
    code == codes::TOPMARK
        || code == codes::FIRSTMARK
        || code == codes::BOTMARK
        || code == codes::SPLITFIRSTMARK
        || code == codes::SPLITBOTMARK
}

fn push_flags(text: &mut Vec<u8>, m: &Macro, escape: i32) -> Result<(), AllocError>
    ensures { OnOk result (text.new.items ≡ text.old.items ++ flags_text escape m.now) }
{
    push_flag(text, m.guarded, b"protected", escape)?;
    push_flag(text, m.long, b"long", escape)?;
    push_flag(text, m.outer, b"outer", escape)?;
    if m.guarded || m.long || m.outer {
        text.push(b' ')?;
    }
    Ok(())
}

fn push_flag(text: &mut Vec<u8>, flag: bool, word: &[u8], escape: i32) -> Result<(), AllocError>
    ensures { OnOk result (text.new.items ≡ text.old.items ++ flag_text escape flag word.now) }
{
    if flag {
        show::push_escaped(text, word, escape)?;
    }
    Ok(())
}

fn push_hex(
    text: &mut Vec<u8>,
    alloc: Global,
    word: &[u8],
    number: u16,
    escape: i32,
) -> Result<(), AllocError>
    ensures { OnOk result (text.new.items ≡ text.old.items ++ hex_text escape word.now number) }
{
    show::push_escaped(text, word, escape)?;
    text.push(b'"')?;
    let digits = format!(in alloc; "{number:X}")?;
    text.extend_from_slice(digits.as_bytes())
}

fn register_word(kind: RegKind) -> &'static [u8]
    ensures { result.now ≡ register_name kind }
{
    match kind {
        RegKind::Count => b"count",
        RegKind::Dimen => b"dimen",
        RegKind::Skip => b"skip",
        RegKind::Muskip => b"muskip",
        RegKind::Box => b"box",
        RegKind::Toks => b"toks",
    }
}
