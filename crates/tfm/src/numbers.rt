//! The checks of the tables of numbers: widths, heights, depths, italic corrections, kerns and
//! parameters (tex.web sections 571 and 575).

ghost use Rattle.std.specs.Prelude.{◌≡◌, ◌<◌, ◌^◌, IfSome};
ghost use Rattle.tfm.specs.FontMetricsFaults.{bad_sign, is_zero, bad_measure, bad_kern, bad_parameter, least, measures_fault, kerns_fault, numbers_fault, parameters_fault, Tells};

use crate::error::TfmError;
use crate::lengths::Lengths;
use crate::quarters::{Quarters, entry, place, word};

/// Whether the first byte of a number is neither 0 nor 255.
fn bad_sign(word: Quarters) -> bool
    ensures { result ≡ bad_sign word }
{
    word.b0 != 0 && word.b0 != 255
}

fn is_zero(word: Quarters) -> bool
    ensures { result ≡ is_zero word }
{
    word.b0 == 0 && word.b1 == 0 && word.b2 == 0 && word.b3 == 0
}

fn bad_measure(bytes: &[u8], table: usize, index: u32) -> bool
    requires { table < 2 ^ 30 }
    ensures { result ≡ bad_measure bytes.now table index }
{
    let word = word(bytes, entry(table, index));
    bad_sign(word) || index == 0 && !is_zero(word)
}

fn least_bad_measure(bytes: &[u8], table: usize, count: u32) -> Option<u32>
    requires { table < 2 ^ 30 }
    ensures value { result ≡ least (bad_measure bytes.now table) count }
    ensures bound { IfSome result (λ index. index < count) }
{
    (0..count).find(|index| bad_measure(bytes, table, *index))
}

/// The least bad number of a table whose first entry is to be 0, at its place.
fn check_measures(bytes: &[u8], table: usize, count: u16) -> Result<(), TfmError>
    requires { table < 2 ^ 30 }
    ensures { Tells result (measures_fault bytes.now table count) }
{
    match least_bad_measure(bytes, table, u32::from(count)) {
        Some(index) => Err(TfmError::BadFixword(place(table, index))),
        None => Ok(()),
    }
}

fn bad_kern(bytes: &[u8], table: usize, index: u32) -> bool
    requires { table < 2 ^ 30 }
    ensures { result ≡ bad_kern bytes.now table index }
{
    bad_sign(word(bytes, entry(table, index)))
}

fn least_bad_kern(bytes: &[u8], table: usize, count: u32) -> Option<u32>
    requires { table < 2 ^ 30 }
    ensures value { result ≡ least (bad_kern bytes.now table) count }
    ensures bound { IfSome result (λ index. index < count) }
{
    (0..count).find(|index| bad_kern(bytes, table, *index))
}

fn check_kerns(bytes: &[u8], lengths: Lengths) -> Result<(), TfmError>
    ensures { Tells result (kerns_fault bytes.now lengths) }
{
    match least_bad_kern(bytes, lengths.kerns_at(), u32::from(lengths.kerns)) {
        Some(index) => Err(TfmError::BadFixword(place(lengths.kerns_at(), index))),
        None => Ok(()),
    }
}

/// The least bad number among the widths, heights, depths, italic corrections and kerns.
pub(crate) fn check_numbers(bytes: &[u8], lengths: Lengths) -> Result<(), TfmError>
    ensures { Tells result (numbers_fault bytes.now lengths) }
{
    check_measures(bytes, lengths.widths_at(), lengths.widths)?;
    check_measures(bytes, lengths.heights_at(), lengths.heights)?;
    check_measures(bytes, lengths.depths_at(), lengths.depths)?;
    check_measures(bytes, lengths.italics_at(), lengths.italics)?;
    check_kerns(bytes, lengths)
}

fn bad_parameter(bytes: &[u8], lengths: Lengths, index: u32) -> bool
    ensures { result ≡ bad_parameter bytes.now lengths index }
{
    index != 0 && bad_sign(word(bytes, entry(lengths.parameters_at(), index)))
}

fn least_bad_parameter(bytes: &[u8], lengths: Lengths, count: u32) -> Option<u32>
    ensures value { result ≡ least (bad_parameter bytes.now lengths) count }
    ensures bound { IfSome result (λ index. index < count) }
{
    (0..count).find(|index| bad_parameter(bytes, lengths, *index))
}

/// The least bad parameter; the first, the slant, is any word.
pub(crate) fn check_parameters(bytes: &[u8], lengths: Lengths) -> Result<(), TfmError>
    ensures { Tells result (parameters_fault bytes.now lengths) }
{
    match least_bad_parameter(bytes, lengths, u32::from(lengths.parameters)) {
        Some(index) => Err(TfmError::BadFixword(place(lengths.parameters_at(), index))),
        None => Ok(()),
    }
}
