//! The checks of a TFM file in their order (tex.web sections 562 to 575).

ghost use Rattle.std.specs.Prelude.{◌≡◌, ◌*◌, ◌<◌, ◌≤◌, ◌^◌, length, true, IfOk};
ghost use Rattle.tfm.specs.FontMetricsLengths.{lengths_of, agree};
ghost use Rattle.tfm.specs.FontMetricsFixwords.{IsSize, asked_size};
ghost use Rattle.tfm.specs.FontMetricsFaults.{lengths_fault, design_size, size_fault, tables_fault, Tells};

use crate::characters::{check_characters, check_loops};
use crate::error::TfmError;
use crate::instructions::{check_extensibles, check_instructions};
use crate::lengths::Lengths;
use crate::numbers::{check_numbers, check_parameters};
use crate::quarters::word;
use crate::size::{Size, asked_size};

/// Where the header has the design size.
const DESIGN_SIZE_AT: usize = 28;

/// The least design size, 1pt, in sp.
const LEAST_DESIGN_SIZE: u32 = 65536;

/// Sizes are below 2048pt.
const SIZE_LIMIT: u64 = 1 << 27;

/// The lengths, which agree with one another and with the bytes.
pub(crate) fn check_lengths(bytes: &[u8]) -> Result<Lengths, TfmError>
    ensures fault { Tells result (lengths_fault bytes.now) }
    ensures value { IfOk result (λ lengths. lengths ≡ lengths_of bytes.now) }
    ensures whole { IfOk result (λ lengths. 4 * lengths.file ≤ length bytes.now) }
    ensures agreement { IfOk result (λ lengths. agree lengths ≡ true) }
{
    if bytes.len() < 24 {
        return Err(TfmError::TooShort);
    }
    let lengths = Lengths::read(bytes);
    if !lengths.agree() {
        return Err(TfmError::LengthsDisagree);
    }
    if bytes.len() < 4 * usize::from(lengths.file) {
        return Err(TfmError::TooShort);
    }
    Ok(lengths)
}

/// The design size and the size asked for, in sp.
#[derive(Clone, Copy, Debug, PartialEq, Eq)]
pub(crate) struct Sizes {
    pub design: u32,
    pub asked: u32,
}

/// The sizes, which are in range.
pub(crate) fn check_size(bytes: &[u8], size: Size) -> Result<Sizes, TfmError>
    requires { IsSize size }
    ensures fault { Tells result (size_fault bytes.now size) }
    ensures design { IfOk result (λ sizes. sizes.design ≡ design_size bytes.now) }
    ensures asked { IfOk result (λ sizes. sizes.asked ≡ asked_size (design_size bytes.now) size) }
    ensures design_bound { IfOk result (λ sizes. sizes.design < 2 ^ 27) }
    ensures asked_bound { IfOk result (λ sizes. sizes.asked < 2 ^ 27) }
{
    let word = word(bytes, DESIGN_SIZE_AT);
    if word.b0 > 127 {
        return Err(TfmError::BadSize);
    }
    let design = word.points();
    if design < LEAST_DESIGN_SIZE {
        return Err(TfmError::BadSize);
    }
    let asked = asked_size(design, size);
    if asked >= SIZE_LIMIT {
        return Err(TfmError::BadSize);
    }
    Ok(Sizes {
        design,
        asked: asked as u32,
    })
}

/// The checks of the tables.
pub(crate) fn check_tables(bytes: &[u8], lengths: Lengths) -> Result<(), TfmError>
    requires { agree lengths ≡ true }
    ensures { Tells result (tables_fault bytes.now lengths) }
{
    check_characters(bytes, lengths)?;
    check_loops(bytes, lengths)?;
    check_numbers(bytes, lengths)?;
    check_instructions(bytes, lengths)?;
    check_extensibles(bytes, lengths)?;
    check_parameters(bytes, lengths)
}
