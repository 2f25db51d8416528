//! The character table of a TFM file and its checks (tex.web sections 543, 544, 569 and 570).

ghost use Rattle.std.specs.Prelude.{◌≡◌, ◌+◌, ◌<◌, ◌≤◌, ◌^◌, ◌↔◌, IfSome, IsTrue};
ghost use Rattle.tfm.specs.FontMetricsLengths.{character_count};
ghost use Rattle.tfm.specs.FontMetricsCharacters.{height_index, depth_index, italic_index, tag_of, in_range, character_word, exists_at, larger_than, comes_to, comes_back};
ghost use Rattle.tfm.specs.FontMetricsLoops.{IsHighestOfLoop};
ghost use Rattle.tfm.specs.FontMetricsFaults.{bad_character, bad_measure_index, bad_remainder, least, characters_fault, loops_fault, Tells};

use crate::error::TfmError;
use crate::lengths::Lengths;
use crate::quarters::{Quarters, entry, place, word};

/// How many characters there can be: as many as bytes.
pub(crate) const CHARACTERS: u32 = 256;

/// The tags of characters whose remainder is for something.
pub(crate) const HAS_PROGRAM: u8 = 1;

const HAS_LARGER: u8 = 2;

const IS_EXTENSIBLE: u8 = 3;

impl Quarters {
    ghost use Rattle.std.specs.Prelude.{◌≡◌};
    ghost use Rattle.tfm.specs.FontMetricsCharacters.{height_index, depth_index, italic_index, tag_of};

    pub(crate) fn height_index(self) -> u8
        ensures { result ≡ height_index self }
    {
        self.b1 / 16
    }

    pub(crate) fn depth_index(self) -> u8
        ensures { result ≡ depth_index self }
    {
        self.b1 % 16
    }

    pub(crate) fn italic_index(self) -> u8
        ensures { result ≡ italic_index self }
    {
        self.b2 / 4
    }

    pub(crate) fn tag(self) -> u8
        ensures { result ≡ tag_of self }
    {
        self.b2 % 4
    }
}

/// Whether a character lies between the first and the last.
fn in_range(lengths: Lengths, character: u8) -> bool
    ensures { result ≡ in_range lengths character }
{
    lengths.first <= u16::from(character) && u16::from(character) <= lengths.last
}

/// The word of a character between the first and the last.
#[tactic(auto, unfolding(crate::specs::FontMetricsCharacters::character_word))]
pub(crate) fn character_word(bytes: &[u8], lengths: Lengths, character: u8) -> Quarters
    requires { lengths.first ≤ character }
    ensures { result ≡ character_word bytes.now lengths character }
{
    let index = usize::from(character) - usize::from(lengths.first);
    word(bytes, lengths.characters_at() + 4 * index)
}

/// Whether the font has a character.
#[tactic(auto, unfolding(crate::specs::FontMetricsCharacters::exists_at))]
pub(crate) fn exists(bytes: &[u8], lengths: Lengths, character: u8) -> bool
    ensures { result ≡ exists_at bytes.now lengths character }
{
    in_range(lengths, character) && character_word(bytes, lengths, character).b0 != 0
}

/// The next larger character.
#[tactic(auto, unfolding(crate::specs::FontMetricsCharacters::larger_than))]
fn larger(bytes: &[u8], lengths: Lengths, character: u8) -> Option<u8>
    ensures { result ≡ larger_than bytes.now lengths character }
{
    if !in_range(lengths, character) {
        return None;
    }
    let word = character_word(bytes, lengths, character);
    (word.tag() == HAS_LARGER).then_some(word.b3)
}

/// Whether the chain of larger characters comes back to this one, which is its highest.
#[tactic(auto, unfolding(crate::specs::FontMetricsCharacters::comes_back))]
fn comes_back(bytes: &[u8], lengths: Lengths, top: u8) -> bool
    ensures value { result ≡ comes_back bytes.now lengths top }
    ensures highest { IsTrue result ↔ IsHighestOfLoop bytes.now lengths top }
{
    let first = larger(bytes, lengths, top);
    comes_to(bytes, lengths, top, CHARACTERS, first)
}

/// Whether a chain comes to this character through smaller ones alone, in so many steps.
#[tactic(auto, using(crate::proofs::ChainLemmas::comes_to_more, crate::proofs::ChainLemmas::comes_to_none, crate::proofs::ChainLemmas::comes_to_end))]
fn comes_to(bytes: &[u8], lengths: Lengths, top: u8, steps: u32, first: Option<u8>) -> bool
    ensures { result ≡ comes_to bytes.now lengths top steps first }
{
    let mut next = first;
    for _step in 0..steps {
        let Some(character) = next else { return false };
        if character >= top {
            return character == top;
        }
        next = larger(bytes, lengths, character);
    }
    false
}

fn bad_measure_index(lengths: Lengths, word: Quarters) -> bool
    ensures { result ≡ bad_measure_index lengths word }
{
    u16::from(word.b0) >= lengths.widths
        || u16::from(word.height_index()) >= lengths.heights
        || u16::from(word.depth_index()) >= lengths.depths
        || u16::from(word.italic_index()) >= lengths.italics
}

fn bad_remainder(lengths: Lengths, word: Quarters) -> bool
    ensures { result ≡ bad_remainder lengths word }
{
    match word.tag() {
        HAS_PROGRAM => u16::from(word.b3) >= lengths.instructions,
        HAS_LARGER => !in_range(lengths, word.b3),
        IS_EXTENSIBLE => u16::from(word.b3) >= lengths.extensibles,
        _ => false,
    }
}

fn bad_character(bytes: &[u8], lengths: Lengths, index: u32) -> bool
    ensures { result ≡ bad_character bytes.now lengths index }
{
    let word = word(bytes, entry(lengths.characters_at(), index));
    bad_measure_index(lengths, word) || bad_remainder(lengths, word)
}

fn least_bad_character(bytes: &[u8], lengths: Lengths, count: u32) -> Option<u32>
    ensures value { result ≡ least (bad_character bytes.now lengths) count }
    ensures bound { IfSome result (λ index. index < count) }
{
    (0..count).find(|index| bad_character(bytes, lengths, *index))
}

/// The least character whose word names an entry that isn't there, at its place.
pub(crate) fn check_characters(bytes: &[u8], lengths: Lengths) -> Result<(), TfmError>
    requires { character_count lengths < 2 ^ 16 }
    ensures { Tells result (characters_fault bytes.now lengths) }
{
    match least_bad_character(bytes, lengths, lengths.characters()) {
        Some(index) => Err(TfmError::BadIndex(place(lengths.characters_at(), index))),
        None => Ok(()),
    }
}

fn is_top_of_loop(bytes: &[u8], lengths: Lengths, index: u32) -> bool
    requires { lengths.first + index < 256 }
    ensures { result ≡ comes_back bytes.now lengths (lengths.first + index) }
{
    comes_back(bytes, lengths, (u32::from(lengths.first) + index) as u8)
}

fn least_top_of_loop(bytes: &[u8], lengths: Lengths, count: u32) -> Option<u32>
    requires { lengths.first + count ≤ 256 }
    ensures value { result ≡ least (λ index. comes_back bytes.now lengths (lengths.first + index)) count }
    ensures bound { IfSome result (λ index. index < count) }
{
    (0..count).find(|index| is_top_of_loop(bytes, lengths, *index))
}

/// The least character at the top of a chain of larger characters that comes back, at its place.
pub(crate) fn check_loops(bytes: &[u8], lengths: Lengths) -> Result<(), TfmError>
    requires first { lengths.first ≤ lengths.last + 1 }
    requires last { lengths.last ≤ 255 }
    ensures { Tells result (loops_fault bytes.now lengths) }
{
    match least_top_of_loop(bytes, lengths, lengths.characters()) {
        Some(index) => Err(TfmError::Loop(place(lengths.characters_at(), index))),
        None => Ok(()),
    }
}
