//! The program of ligatures and kerns, the extensible characters, and their checks (tex.web sections
//! 545, 546, 573 and 574).

ghost use Rattle.std.specs.Prelude.{◌≡◌, ◌<◌, ◌^◌, IfSome};
ghost use Rattle.tfm.specs.FontMetricsFaults.{instruction_at, boundary_of, has_next, has_operand, has_following, good_instruction, bad_instruction, good_part, good_extensible, bad_extensible, least, instructions_fault, extensibles_fault, Tells};

use crate::characters::exists;
use crate::error::TfmError;
use crate::lengths::Lengths;
use crate::quarters::{Quarters, entry, place, word};

impl Quarters {
    ghost use Rattle.std.specs.Prelude.{◌≡◌};
    ghost use Rattle.tfm.specs.FontMetricsBytes.{low_half_of};

    /// The number in the last two bytes.
    pub(crate) fn low_half(self) -> u16
        ensures { result ≡ low_half_of self }
    {
        256 * u16::from(self.b2) + u16::from(self.b3)
    }
}

/// An instruction's word.
pub(crate) fn instruction(bytes: &[u8], lengths: Lengths, index: u32) -> Quarters
    ensures { result ≡ instruction_at bytes.now lengths index }
{
    word(bytes, entry(lengths.instructions_at(), index))
}

/// The boundary character.
#[tactic(auto, unfolding(crate::specs::FontMetricsFaults::boundary_of))]
pub(crate) fn boundary(bytes: &[u8], lengths: Lengths) -> Option<u8>
    ensures { result ≡ boundary_of bytes.now lengths }
{
    if lengths.instructions == 0 {
        return None;
    }
    let first = instruction(bytes, lengths, 0);
    if first.b0 == 255 {
        Some(first.b1)
    } else {
        None
    }
}

fn has_next(bytes: &[u8], lengths: Lengths, character: u8) -> bool
    ensures { result ≡ has_next bytes.now lengths character }
{
    match boundary(bytes, lengths) {
        Some(boundary) => boundary == character || exists(bytes, lengths, character),
        None => exists(bytes, lengths, character),
    }
}

fn has_operand(bytes: &[u8], lengths: Lengths, word: Quarters) -> bool
    ensures { result ≡ has_operand bytes.now lengths word }
{
    if word.b2 < 128 {
        exists(bytes, lengths, word.b3)
    } else {
        256 * u16::from(word.b2 - 128) + u16::from(word.b3) < lengths.kerns
    }
}

fn has_following(lengths: Lengths, index: u32, word: Quarters) -> bool
    requires { index < 2 ^ 16 }
    ensures { result ≡ has_following lengths index word }
{
    word.b0 >= 128 || index + u32::from(word.b0) + 1 < u32::from(lengths.instructions)
}

fn good_instruction(bytes: &[u8], lengths: Lengths, index: u32, word: Quarters) -> bool
    requires { index < 2 ^ 16 }
    ensures { result ≡ good_instruction bytes.now lengths index word }
{
    if word.b0 > 128 {
        return word.low_half() < lengths.instructions;
    }
    has_next(bytes, lengths, word.b1)
        && has_operand(bytes, lengths, word)
        && has_following(lengths, index, word)
}

fn bad_instruction(bytes: &[u8], lengths: Lengths, index: u32) -> bool
    requires { index < 2 ^ 16 }
    ensures { result ≡ bad_instruction bytes.now lengths index }
{
    !good_instruction(bytes, lengths, index, instruction(bytes, lengths, index))
}

fn least_bad_instruction(bytes: &[u8], lengths: Lengths, count: u32) -> Option<u32>
    requires { count < 2 ^ 16 }
    ensures value { result ≡ least (bad_instruction bytes.now lengths) count }
    ensures bound { IfSome result (λ index. index < count) }
{
    (0..count).find(|index| bad_instruction(bytes, lengths, *index))
}

/// The least instruction that names a character, a kern or an instruction that isn't there.
pub(crate) fn check_instructions(bytes: &[u8], lengths: Lengths) -> Result<(), TfmError>
    ensures { Tells result (instructions_fault bytes.now lengths) }
{
    match least_bad_instruction(bytes, lengths, u32::from(lengths.instructions)) {
        Some(index) => Err(TfmError::BadIndex(place(lengths.instructions_at(), index))),
        None => Ok(()),
    }
}

fn good_part(bytes: &[u8], lengths: Lengths, character: u8) -> bool
    ensures { result ≡ good_part bytes.now lengths character }
{
    character == 0 || exists(bytes, lengths, character)
}

fn good_extensible(bytes: &[u8], lengths: Lengths, word: Quarters) -> bool
    ensures { result ≡ good_extensible bytes.now lengths word }
{
    good_part(bytes, lengths, word.b0)
        && good_part(bytes, lengths, word.b1)
        && good_part(bytes, lengths, word.b2)
        && exists(bytes, lengths, word.b3)
}

fn bad_extensible(bytes: &[u8], lengths: Lengths, index: u32) -> bool
    ensures { result ≡ bad_extensible bytes.now lengths index }
{
    !good_extensible(
        bytes,
        lengths,
        word(bytes, entry(lengths.extensibles_at(), index)),
    )
}

fn least_bad_extensible(bytes: &[u8], lengths: Lengths, count: u32) -> Option<u32>
    ensures value { result ≡ least (bad_extensible bytes.now lengths) count }
    ensures bound { IfSome result (λ index. index < count) }
{
    (0..count).find(|index| bad_extensible(bytes, lengths, *index))
}

/// The least extensible character with a part that isn't there.
pub(crate) fn check_extensibles(bytes: &[u8], lengths: Lengths) -> Result<(), TfmError>
    ensures { Tells result (extensibles_fault bytes.now lengths) }
{
    match least_bad_extensible(bytes, lengths, u32::from(lengths.extensibles)) {
        Some(index) => Err(TfmError::BadIndex(place(lengths.extensibles_at(), index))),
        None => Ok(()),
    }
}
