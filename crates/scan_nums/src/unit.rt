//! Units of measure and the sizes of dimensions (The TeXbook, chapters 10 and 24; `tex.web` 448 and 453 to 458).
ghost use Rattle.std.specs.Prelude.{◌≡◌, ◌*◌, ◌≤◌, ◌<◌, pos, ◌*ℤ◌, unsigned_abs};
ghost use Rattle.scan_nums.specs.Units.{converted, extent, flipped, in_units, magnification_of, multiple, physical_size, true_fraction, true_whole, width_in};
ghost use Rattle.scan_nums.specs.WholeNumber.{with_sign};

use crate::constant;
use crate::number::Number;

/// The units of a fixed size.
#[derive(Clone, Copy)]
pub enum PhysicalUnit {
    Point,
    Inch,
    Pica,
    Centimeter,
    Millimeter,
    BigPoint,
    DidotPoint,
    Cicero,
    ScaledPoint,
}

/// What stands in front of a unit: whole units, and a fraction of one in 65536ths.
#[derive(Clone, Copy)]
pub struct Factor {
    pub whole: u32,
    pub fraction: u32,
}

/// A factor of true units, which can be a thousand times as large.
#[derive(Clone, Copy)]
pub struct TrueFactor {
    pub whole: u64,
    pub fraction: u32,
}

/// A dimension in sp, or in 65536ths of another unit, or that it is 2^30 or more, with the sign that was read.
#[derive(Clone, Copy)]
pub enum Extent {
    Within(i32),
    Beyond { negative: bool },
}

/// The first number that is no dimension.
const TOO_LARGE: u128 = 1_073_741_824;

/// The factor in 65536ths of a unit.
#[tactic(auto, unfolding(crate::specs::Units::in_units))]
pub fn in_units(whole: u64, fraction: u32) -> u128
    ensures { result ≡ in_units whole fraction }
{
    u128::from(whole) * 65536 + u128::from(fraction)
}

/// So many units, in sp.
#[tactic(auto, unfolding(crate::specs::Units::physical_size))]
pub fn physical_size(unit: PhysicalUnit, whole: u64, fraction: u32) -> u128
    ensures { result ≡ physical_size unit whole fraction }
{
    match unit {
        PhysicalUnit::Point => in_units(whole, fraction),
        PhysicalUnit::Inch => converted(7227, 100, whole, fraction),
        PhysicalUnit::Pica => converted(12, 1, whole, fraction),
        PhysicalUnit::Centimeter => converted(7227, 254, whole, fraction),
        PhysicalUnit::Millimeter => converted(7227, 2540, whole, fraction),
        PhysicalUnit::BigPoint => converted(7227, 7200, whole, fraction),
        PhysicalUnit::DidotPoint => converted(1238, 1157, whole, fraction),
        PhysicalUnit::Cicero => converted(14856, 1157, whole, fraction),
        PhysicalUnit::ScaledPoint => u128::from(whole),
    }
}

// So many units, each of which is a fraction of points, in sp.
fn converted(numerator: u16, denominator: u16, whole: u64, fraction: u32) -> u128
    requires { 1 ≤ denominator }
    ensures { result ≡ converted numerator denominator whole fraction }
{
    let numerator = u64::from(numerator);
    let denominator = u128::from(denominator);
    let points = product(whole, numerator);
    let parts = product(u64::from(fraction), numerator) + 65536 * (points % denominator);
    points / denominator * 65536 + parts / denominator
}

// The exact product.
fn product(a: u64, b: u64) -> u128
    requires { b < 65536 }
    ensures value { result ≡ a * b }
    ensures small { result < 1208925819614629174706176 }
{
    u128::from(a) * u128::from(b)
}

/// The magnification that an answer gives.
#[tactic(auto, unfolding(crate::specs::Units::magnification_of))]
pub fn magnification_of(mag: i32) -> u32
    ensures value { result ≡ magnification_of mag }
    ensures some { 1 ≤ result }
    ensures small { result ≤ 32768 }
{
    if 1 <= mag && mag <= 32768 {
        mag.unsigned_abs()
    } else {
        1000
    }
}

/// The factor of true units as one of units.
#[tactic(auto, unfolding(crate::specs::Units::true_whole, crate::specs::Units::true_fraction))]
pub fn magnified(factor: Factor, magnification: u32) -> TrueFactor
    requires some { 1 ≤ magnification }
    requires small { magnification ≤ 32768 }
    ensures whole { result.whole ≡ true_whole magnification factor.whole factor.fraction }
    ensures fraction { result.fraction ≡ true_fraction magnification factor.whole factor.fraction }
{
    if magnification == 1000 {
        TrueFactor {
            whole: u64::from(factor.whole),
            fraction: factor.fraction,
        }
    } else {
        let magnification = u64::from(magnification);
        let thousands = u64::from(factor.whole) * 1000;
        let parts = (u64::from(factor.fraction) * 1000 + 65536 * (thousands % magnification))
            / magnification;
        TrueFactor {
            whole: thousands / magnification + parts / 65536,
            fraction: (parts % 65536) as u32,
        }
    }
}

/// A quantity, so many times.
#[tactic(auto, unfolding(crate::specs::Units::multiple))]
pub fn multiple(factor: Factor, size: i32) -> i128
    ensures { result ≡ multiple factor.whole factor.fraction size }
{
    times(factor.whole, size) + times(factor.fraction, size) / 65536
}

// The exact product.
fn times(n: u32, size: i32) -> i128
    ensures value { result ≡ pos n *ℤ size }
    ensures small { unsigned_abs result ≤ 9223372036854775808 }
{
    i128::from(n) * i128::from(size)
}

/// The value of a quantity as a dimension, in a phrase whose unit is mu or isn't.
pub fn width_in(mu: bool, number: Number) -> Option<i32>
    ensures { result ≡ width_in mu number }
{
    if mu {
        match number {
            Number::MuGlue(glue) => Some(glue.width),
            Number::Int(_) | Number::Dimen(_) | Number::Glue(_) => None,
        }
    } else {
        match number {
            Number::Int(n) => Some(n),
            Number::Dimen(n) => Some(n),
            Number::Glue(glue) => Some(glue.width),
            Number::MuGlue(_) => None,
        }
    }
}

/// The sign with that of a whole number.
pub fn flipped(negative: bool, n: i32) -> bool
    ensures { result ≡ flipped negative n }
{
    if n < 0 { !negative } else { negative }
}

/// A dimension that has no sign of its own.
#[tactic(auto, unfolding(crate::specs::Units::extent))]
pub fn extent_of_size(negative: bool, size: u128) -> Extent
    ensures { result ≡ extent negative (pos size) }
{
    if size < TOO_LARGE {
        Extent::Within(constant::signed(negative, size as u32))
    } else {
        Extent::Beyond { negative }
    }
}

/// A dimension that may have a sign of its own.
#[tactic(auto, unfolding(crate::specs::Units::extent))]
pub fn extent_of(negative: bool, value: i128) -> Extent
    ensures { result ≡ extent negative value }
{
    if value.unsigned_abs() < TOO_LARGE {
        Extent::Within(signed(negative, value))
    } else {
        Extent::Beyond { negative }
    }
}

// A small number with a sign.
fn signed(negative: bool, value: i128) -> i32
    requires { unsigned_abs value < 1073741824 }
    ensures { result ≡ with_sign negative value }
{
    if negative {
        -(value as i32)
    } else {
        value as i32
    }
}
