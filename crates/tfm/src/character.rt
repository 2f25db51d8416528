//! One character of a font, with its measures at the font's size (tex.web sections 543 and 554).

ghost use Rattle.std.specs.Prelude.{◌≡◌, ◌≤◌, ◌<◌, ◌^◌, IfOk, length};
ghost use Rattle.tfm.specs.FontMetrics.{number_at, start_at, program_of, character_of, character_at, characters_below};

use crate::characters::{HAS_PROGRAM, character_word, exists};
use crate::fixwords::fixword;
use crate::instructions::instruction;
use crate::lengths::Lengths;
use crate::quarters::{Quarters, entry, word};
use std::alloc::{AllocError, Global};

/// A character's measures in sp, each 0 where it doesn't exist, and where its program of ligatures and kerns begins.
#[derive(Clone, Copy, Debug, PartialEq, Eq)]
pub struct Character {
    pub exists: bool,
    pub width: i32,
    pub height: i32,
    pub depth: i32,
    pub italic: i32,
    pub program: Option<u16>,
}

/// An entry of a table of numbers.
pub(crate) fn number(bytes: &[u8], size: u32, table: usize, index: u32) -> i32
    requires size { size < 2 ^ 27 }
    requires table { table < 2 ^ 30 }
    ensures { result ≡ number_at bytes.now size table index }
{
    fixword(size, word(bytes, entry(table, index)))
}

/// Where a program begins that is said to begin at this instruction.
#[tactic(auto, unfolding(crate::specs::FontMetrics::start_at))]
fn start(bytes: &[u8], lengths: Lengths, index: u8) -> u16
    ensures { result ≡ start_at bytes.now lengths index }
{
    let instruction = instruction(bytes, lengths, u32::from(index));
    if instruction.b0 > 128 {
        instruction.low_half()
    } else {
        u16::from(index)
    }
}

fn program(bytes: &[u8], lengths: Lengths, word: Quarters) -> Option<u16>
    ensures { result ≡ program_of bytes.now lengths word }
{
    if word.tag() == HAS_PROGRAM {
        Some(start(bytes, lengths, word.b3))
    } else {
        None
    }
}

const NO_CHARACTER: Character = Character {
    exists: false,
    width: 0,
    height: 0,
    depth: 0,
    italic: 0,
    program: None,
};

fn existing_character(bytes: &[u8], lengths: Lengths, size: u32, word: Quarters) -> Character
    requires { size < 2 ^ 27 }
    ensures { result ≡ character_of bytes.now lengths size word }
{
    Character {
        exists: true,
        width: number(bytes, size, lengths.widths_at(), u32::from(word.b0)),
        height: number(
            bytes,
            size,
            lengths.heights_at(),
            u32::from(word.height_index()),
        ),
        depth: number(
            bytes,
            size,
            lengths.depths_at(),
            u32::from(word.depth_index()),
        ),
        italic: number(
            bytes,
            size,
            lengths.italics_at(),
            u32::from(word.italic_index()),
        ),
        program: program(bytes, lengths, word),
    }
}

#[tactic(auto, unfolding(crate::specs::FontMetrics::character_at, crate::specs::FontMetricsCharacters::exists_at))]
fn character_with_code(bytes: &[u8], lengths: Lengths, size: u32, code: u8) -> Character
    requires { size < 2 ^ 27 }
    ensures { result ≡ character_at bytes.now lengths size code }
{
    if exists(bytes, lengths, code) {
        existing_character(bytes, lengths, size, character_word(bytes, lengths, code))
    } else {
        NO_CHARACTER
    }
}

fn numbered_character(bytes: &[u8], lengths: Lengths, size: u32, code: u32) -> Character
    requires size { size < 2 ^ 27 }
    requires code { code < 256 }
    ensures { result ≡ character_at bytes.now lengths size code }
{
    character_with_code(bytes, lengths, size, code as u8)
}

/// The characters below a code.
#[tactic(auto, using(crate::proofs::TableLemmas::table_lengths), unfolding(crate::specs::FontMetrics::characters_below))]
pub(crate) fn characters(
    alloc: Global,
    bytes: &[u8],
    lengths: Lengths,
    size: u32,
    count: u32,
) -> Result<Vec<Character>, AllocError>
    requires size { size < 2 ^ 27 }
    requires count { count ≤ 256 }
    ensures items { IfOk result (λ characters. characters.items ≡ characters_below bytes.now lengths size count) }
    ensures length { IfOk result (λ characters. length characters.items ≡ count) }
{
    (0..count)
        .map(|code| numbered_character(bytes, lengths, size, code))
        .collect(alloc)
}
