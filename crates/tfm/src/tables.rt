//! The decoded tables of a font beside its characters: instructions, kerns and parameters (tex.web
//! sections 573 and 575).

ghost use Rattle.std.specs.Prelude.{◌≡◌, ◌<◌, ◌^◌, IfOk, length};
ghost use Rattle.tfm.specs.FontMetrics.{instructions_of, kerns_of, parameter_at, parameters_of, boundary_program_of};

use crate::character::number;
use crate::fixwords::slant;
use crate::instructions::instruction;
use crate::lengths::Lengths;
use crate::quarters::{Quarters, word};
use std::alloc::{AllocError, Global};

/// A font has at least as many parameters as text in it needs.
const FEWEST_PARAMETERS: u16 = 7;

#[tactic(auto, unfolding(crate::specs::FontMetrics::instructions_of))]
pub(crate) fn instructions(
    alloc: Global,
    bytes: &[u8],
    lengths: Lengths,
) -> Result<Vec<Quarters>, AllocError>
    ensures { IfOk result (λ instructions. instructions.items ≡ instructions_of bytes.now lengths) }
{
    (0..u32::from(lengths.instructions))
        .map(|index| instruction(bytes, lengths, index))
        .collect(alloc)
}

#[tactic(auto, unfolding(crate::specs::FontMetrics::kerns_of))]
pub(crate) fn kerns(
    alloc: Global,
    bytes: &[u8],
    lengths: Lengths,
    size: u32,
) -> Result<Vec<i32>, AllocError>
    requires { size < 2 ^ 27 }
    ensures { IfOk result (λ kerns. kerns.items ≡ kerns_of bytes.now lengths size) }
{
    let table = lengths.kerns_at();
    (0..u32::from(lengths.kerns))
        .map(|index| number(bytes, size, table, index))
        .collect(alloc)
}

#[tactic(auto, unfolding(crate::specs::FontMetrics::parameter_at))]
fn parameter(bytes: &[u8], lengths: Lengths, size: u32, index: u32) -> i32
    requires { size < 2 ^ 27 }
    ensures { result ≡ parameter_at bytes.now lengths size index }
{
    if index >= u32::from(lengths.parameters) {
        0
    } else if index == 0 {
        slant(word(bytes, lengths.parameters_at()))
    } else {
        number(bytes, size, lengths.parameters_at(), index)
    }
}

#[tactic(auto, using(crate::proofs::TableLemmas::table_lengths), unfolding(crate::specs::FontMetrics::parameters_of))]
pub(crate) fn parameters(
    alloc: Global,
    bytes: &[u8],
    lengths: Lengths,
    size: u32,
) -> Result<Vec<i32>, AllocError>
    requires { size < 2 ^ 27 }
    ensures items { IfOk result (λ parameters. parameters.items ≡ parameters_of bytes.now lengths size) }
    ensures length { IfOk result (λ parameters. length parameters.items < 2 ^ 16) }
{
    let count = lengths.parameters.max(FEWEST_PARAMETERS);
    (0..u32::from(count))
        .map(|index| parameter(bytes, lengths, size, index))
        .collect(alloc)
}

/// Where the program begins for the boundary on the left.
#[tactic(auto, unfolding(crate::specs::FontMetrics::boundary_program_of))]
pub(crate) fn boundary_program(bytes: &[u8], lengths: Lengths) -> Option<u16>
    ensures { result ≡ boundary_program_of bytes.now lengths }
{
    if lengths.instructions == 0 {
        return None;
    }
    let last = instruction(bytes, lengths, u32::from(lengths.instructions) - 1);
    if last.b0 == 255 {
        Some(last.low_half())
    } else {
        None
    }
}
