//! The bytes of commands that don't move, and of fonts (`tex.web`, sections 583 to 590, 602 and 621).
ghost use Rattle.std.specs.Prelude.{◌≡◌, ◌++◌, ◌∷◌, [], OnOk, IfOk};
ghost use Rattle.std.specs.Option.{option_copied};
ghost use Rattle.std.specs.List.{find};
ghost use Rattle.dvi_out.specs.SpellingPage.{font_head, font_numbers, font_name, definition, is_font, is_defined, choice, character_bytes, special_bytes, with_choice, with_font, with_bytes, with_definition, spelled, signed_four};
ghost use Rattle.dvi_out.specs.SpelledOf.{spelled_of, given_of};

use crate::font::FontDef;
use crate::numbers::{put_four, put_signed_four};
use sqlite_items::Items;
use std::alloc::{AllocError, Global};

/// A page that is being spelled.
#[derive(Drop)]
pub(crate) struct Speller {
    pub(crate) alloc: Global,
    pub(crate) bytes: Vec<u8>,
    /// The font that is chosen, by its number in the nodes.
    pub(crate) font: Option<u8>,
    /// The fonts that this page defines.
    pub(crate) fresh: Vec<FontDef>,
}

/// What a page is spelled with.
#[derive(Clone, Copy)]
pub(crate) struct Sources<'a> {
    /// The fonts that the file has defined.
    pub(crate) defined: &'a [FontDef],
    /// All fonts that may be used.
    pub(crate) fonts: &'a [FontDef],
}

/// Adds a font's number in the file and its checksum.
#[tactic(auto, unfolding(crate::specs::SpellingPage::font_head))]
fn put_font_head(out: &mut Vec<u8>, font: &FontDef) -> Result<(), AllocError>
    ensures { OnOk result (out.new.items ≡ out.old.items ++ font_head font.now) }
{
    out.push(243)?;
    out.push(font.number.saturating_sub(1))?;
    put_four(out, font.checksum)
}

/// Adds a font's number in the file, its checksum and its sizes.
#[tactic(auto, unfolding(crate::specs::SpellingPage::font_numbers))]
fn put_font_numbers(out: &mut Vec<u8>, font: &FontDef) -> Result<(), AllocError>
    ensures { OnOk result (out.new.items ≡ out.old.items ++ font_numbers font.now) }
{
    put_font_head(out, font)?;
    put_signed_four(out, font.size)?;
    put_signed_four(out, font.design)
}

/// Adds a font's name, with no area in front.
#[tactic(auto, unfolding(crate::specs::SpellingPage::font_name))]
fn put_font_name(out: &mut Vec<u8>, name: &[u8]) -> Result<(), AllocError>
    ensures { OnOk result (out.new.items ≡ out.old.items ++ font_name name.now) }
{
    out.push(0)?;
    out.push((name.len() % 256) as u8)?;
    out.extend_from_slice(name)
}

/// Adds the definition of a font.
pub(crate) fn put_definition(out: &mut Vec<u8>, font: &FontDef) -> Result<(), AllocError>
    ensures { OnOk result (out.new.items ≡ out.old.items ++ definition font.now) }
{
    put_font_numbers(out, font)?;
    put_font_name(out, font.name.as_slice())
}

/// The definition of the font with a number, if it is there.
pub(crate) fn find_font(fonts: &[FontDef], number: u8) -> Option<&FontDef>
    ensures { option_copied result ≡ find (is_font number) fonts.now }
{
    fonts.iter().find(|font| font.number == number)
}

fn is_defined(fonts: &[FontDef], number: u8) -> bool
    ensures { result ≡ is_defined number fonts.now }
{
    fonts.iter().any(|font| font.number == number)
}

/// An equal definition.
pub(crate) fn copy_font(alloc: Global, font: &FontDef) -> Result<FontDef, AllocError>
    ensures { IfOk result (λ copy. copy ≡ font.now) }
{
    Ok(FontDef {
        number: font.number,
        checksum: font.checksum,
        size: font.size,
        design: font.design,
        name: Items::from_slice(alloc, font.name.as_slice())?,
    })
}

impl Speller {
    /// A page of which nothing is spelled.
    pub(crate) fn new(alloc: Global) -> Speller
        ensures { spelled_of result ≡ spelled [] None [] 0 0 }
    {
        Speller {
            alloc,
            bytes: Vec::new(alloc),
            font: None,
            fresh: Vec::new(alloc),
        }
    }

    /// Defines a font, if it is there.
    fn define(&mut self, font: Option<&FontDef>) -> Result<(), AllocError>
        ensures { OnOk result (spelled_of self.new ≡ with_definition (option_copied font.entry) (spelled_of self.old)) }
    {
        if let Some(font) = font {
            put_definition(&mut self.bytes, font)?;
            let copy = copy_font(self.alloc, font)?;
            self.fresh.push(copy)?;
        }
        Ok(())
    }

    /// Chooses a font, by its number in the file.
    fn put_choice(&mut self, number: u8) -> Result<(), AllocError>
        ensures { OnOk result (spelled_of self.new ≡ with_bytes (choice number) (spelled_of self.old)) }
    {
        if number < 64 {
            self.bytes.push(171 + number)?;
        } else {
            self.bytes.push(235)?;
            self.bytes.push(number)?;
        }
        Ok(())
    }

    /// Chooses a font that isn't chosen, and defines it where it is used first in the file.
    #[tactic(auto, unfolding(crate::specs::SpellingPage::with_choice))]
    fn choose(&mut self, sources: &Sources, font: u8) -> Result<(), AllocError>
        ensures { OnOk result (spelled_of self.new ≡ with_choice (given_of sources.now) font (spelled_of self.old)) }
    {
        if !(is_defined(sources.defined, font) || is_defined(&self.fresh, font)) {
            self.define(find_font(sources.fonts, font))?;
        }
        self.put_choice(font.saturating_sub(1))?;
        self.font = Some(font);
        Ok(())
    }

    #[tactic(auto, unfolding(crate::specs::SpellingPage::with_font))]
    fn use_font(&mut self, sources: &Sources, font: u8) -> Result<(), AllocError>
        ensures { OnOk result (spelled_of self.new ≡ with_font (given_of sources.now) font (spelled_of self.old)) }
    {
        match self.font {
            Some(chosen) if chosen == font => Ok(()),
            _ => self.choose(sources, font),
        }
    }

    /// Sets a character in a font.
    pub(crate) fn set_character(
        &mut self,
        sources: &Sources,
        font: u8,
        byte: u8,
    ) -> Result<(), AllocError>
        ensures { OnOk result
            (spelled_of self.new ≡ with_bytes (character_bytes byte) (with_font (given_of sources.now) font (spelled_of self.old))) }
    {
        self.use_font(sources, font)?;
        self.put_character(byte)
    }

    fn put_character(&mut self, byte: u8) -> Result<(), AllocError>
        ensures { OnOk result (spelled_of self.new ≡ with_bytes (character_bytes byte) (spelled_of self.old)) }
    {
        if byte >= 128 {
            self.bytes.push(128)?;
        }
        self.bytes.push(byte)?;
        Ok(())
    }

    pub(crate) fn put_rule(&mut self, code: u8, height: i32, width: i32) -> Result<(), AllocError>
        ensures { OnOk result (spelled_of self.new ≡ with_bytes (code ∷ signed_four height ++ signed_four width) (spelled_of self.old)) }
    {
        self.bytes.push(code)?;
        put_signed_four(&mut self.bytes, height)?;
        put_signed_four(&mut self.bytes, width)
    }

    pub(crate) fn put_special(&mut self, bytes: &[u8]) -> Result<(), AllocError>
        ensures { OnOk result (spelled_of self.new ≡ with_bytes (special_bytes bytes.now) (spelled_of self.old)) }
    {
        let length = bytes.len();
        if length < 256 {
            self.bytes.push(239)?;
            self.bytes.push(length as u8)?;
        } else {
            self.bytes.push(242)?;
            put_four(&mut self.bytes, (length % 4294967296) as u32)?;
        }
        self.bytes.extend_from_slice(bytes)
    }

    pub(crate) fn put_byte(&mut self, byte: u8) -> Result<(), AllocError>
        ensures { OnOk result (spelled_of self.new ≡ with_bytes (byte ∷ []) (spelled_of self.old)) }
    {
        self.bytes.push(byte)?;
        Ok(())
    }
}
