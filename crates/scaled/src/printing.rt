//! Dimensions as they are printed, in points: `tex.web`, section 103; The TeXbook, chapter 10.

ghost use Rattle.std.specs.Prelude.{◌≡◌, ◌+◌, ◌*◌, ◌/◌, ◌%◌, ◌^◌, ◌<◌, ◌≤◌, ◌++◌, unsigned_abs, ℕ, List, IfOk, OnOk, decimal};
ghost use Rattle.scaled.specs.ArithmeticQuotients.{nearest_whole};
ghost use Rattle.scaled.specs.ArithmeticDecimals.{last_digits, glyphs, nearest_decimal, is_read_back, printed_places, printed_fraction, points_text, IsPrintedFraction, digits_after_point, dimension_of_text};

use std::alloc::{AllocError, Global};

/// A point in sp.
const POINT: u32 = 65536;

/// A dimension of `s` sp as it is printed, in points without a unit: a `-` where it is negative, the whole
/// points, a decimal point, and the least number of digits, one to five, that are read back as the same
/// number of sp. At most 12 bytes.
pub fn points(alloc: Global, s: i32) -> Result<Vec<u8>, AllocError>
    ensures text { IfOk result (λ v. v.items ≡ points_text s) }
    ensures digits { IfOk result (λ v. IsPrintedFraction (unsigned_abs s % 65536) (digits_after_point v.items)) }
    ensures only { IfOk result (λ v. (ds : List ℕ) → IsPrintedFraction (unsigned_abs s % 65536) ds
        → ds ≡ digits_after_point v.items) }
    ensures read_back { IfOk result (λ v. dimension_of_text v.items ≡ s) }
{
    let mut text = Vec::with_capacity(alloc, 12)?;
    if s < 0 {
        text.push(b'-')?;
    }
    let size = s.unsigned_abs();
    push_decimal(&mut text, size / POINT)?;
    text.push(b'.')?;
    push_fraction(&mut text, size % POINT)?;
    Ok(text)
}

// Appends the printed digits of a fraction of a point.
fn push_fraction(text: &mut Vec<u8>, fraction: u32) -> Result<(), AllocError>
    requires small { fraction < 65536 }
    ensures text { OnOk result (text.new.items ≡ text.old.items ++ glyphs (printed_fraction fraction)) }
{
    let places = least_places(fraction);
    push_digits(text, rounded_decimal(fraction, places), places)
}

// How many digits are printed for a fraction of a point.
#[tactic(auto, unfolding(crate::specs::ArithmeticDecimals::printed_places))]
fn least_places(fraction: u32) -> u32
    requires small { fraction < 65536 }
    ensures value { result ≡ printed_places fraction }
    ensures bound { result ≤ 5 }
{
    if reads_back(fraction, 1) {
        1
    } else if reads_back(fraction, 2) {
        2
    } else if reads_back(fraction, 3) {
        3
    } else if reads_back(fraction, 4) {
        4
    } else {
        5
    }
}

// Whether a fraction of a point, rounded to so many decimal places, is nearest to that decimal again.
fn reads_back(fraction: u32, places: u32) -> bool
    requires small { fraction < 65536 }
    requires few { places ≤ 5 }
    ensures value { result ≡ is_read_back fraction places }
{
    let decimal = u64::from(rounded_decimal(fraction, places));
    let scale = power_of_ten(places);
    let again = (2 * (65536 * decimal) + scale) / (2 * scale);
    again == u64::from(fraction)
}

// The nearest whole number of the decimal fraction's last places to a fraction of a point.
fn rounded_decimal(fraction: u32, places: u32) -> u32
    requires small { fraction < 65536 }
    requires few { places ≤ 5 }
    ensures value { result ≡ nearest_decimal fraction places }
    ensures bound { result ≤ 100000 }
{
    let exact = u64::from(fraction) * power_of_ten(places);
    ((2 * exact + 65536) / (2 * 65536)) as u32
}

fn power_of_ten(places: u32) -> u64
    requires few { places ≤ 5 }
    ensures value { result ≡ 10 ^ places }
    ensures low { 1 ≤ result }
    ensures high { result ≤ 100000 }
{
    10u64.pow(places)
}

// Appends a whole number.
fn push_decimal(text: &mut Vec<u8>, number: u32) -> Result<(), AllocError>
    ensures text { OnOk result (text.new.items ≡ text.old.items ++ decimal number) }
{
    if number >= 10 {
        push_decimal(text, number / 10)?;
    }
    text.push(b'0' + (number % 10) as u8)?;
    Ok(())
}

// Appends the last digits of a number.
fn push_digits(text: &mut Vec<u8>, number: u32, places: u32) -> Result<(), AllocError>
    ensures text { OnOk result (text.new.items ≡ text.old.items ++ glyphs (last_digits places number)) }
{
    if places > 0 {
        push_digits(text, number / 10, places - 1)?;
        text.push(b'0' + (number % 10) as u8)?;
    }
    Ok(())
}
