//! Decimal fractions, digits behind a decimal point, read as a number of sp: `tex.web`, section 102; The
//! TeXbook, chapter 10.

ghost use Rattle.std.specs.Prelude.{◌≡◌, ◌+◌, ◌*◌, ◌/◌, ◌^◌, ◌<◌, ◌≤◌, pos, ◌≤ℤ◌, length};
ghost use Rattle.scaled.specs.ArithmeticQuotients.{IsNearest};
ghost use Rattle.scaled.specs.ArithmeticDecimals.{AllAreDigits, number_of, fraction_of_digits};

/// The decimal fraction of a point whose digits these are, the values 0 to 9, in sp: the nearest whole
/// number of sp, and the greater of two that are as near.
pub fn round_decimals(digits: &[u8]) -> i32
    requires few { length digits.now ≤ 17 }
    requires decimal { AllAreDigits digits.now }
    ensures value { result ≡ pos (fraction_of_digits digits.now) }
    ensures nearest { IsNearest (pos (65536 * number_of digits.now)) (pos (10 ^ length digits.now)) result }
    ensures low { pos 0 ≤ℤ result }
    ensures high { result ≤ℤ pos 65536 }
{
    let mut doubled: u32 = 0;
    for i in (0..digits.len()).rev() {
        doubled = (doubled + 131_072 * u32::from(digits[i])) / 10;
    }
    halved(doubled) as i32
}

// Half of a number, a half counting up.
fn halved(doubled: u32) -> u32
    requires small { doubled < 131072 }
    ensures value { result ≡ (doubled + 1) / 2 }
{
    (doubled + 1) / 2
}
