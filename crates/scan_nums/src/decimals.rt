//! The digits of a decimal fraction (`tex.web` 452).
ghost use Rattle.std.specs.Prelude.{◌≤◌, take};
ghost use Rattle.scaled.specs.ArithmeticDecimals.{AllAreDigits};

use scaled::round_decimals;

/// The digits behind a decimal point, of which the first 17 are kept: more make no difference.
#[derive(Clone, Copy)]
pub struct Decimals {
    digits: [u8; 17],
    count: u8,
    ghost few: { count ≤ 17 },
    ghost decimal: { AllAreDigits (take count digits) },
}

impl Decimals {
    ghost use Rattle.std.specs.Prelude.{◌≡◌, [], ◌∷◌, ◌++◌};
    ghost use Rattle.scaled.specs.ArithmeticDecimals.{fraction_of_digits};
    ghost use Rattle.scan_nums.specs.Decimals.{digits_of};

    /// No digit.
    pub fn new() -> Decimals
        ensures { digits_of result ≡ [] }
    {
        Decimals {
            digits: [0; 17],
            count: 0,
        }
    }

    /// One digit more.
    pub fn with_digit(self, digit: u8) -> Decimals
        requires { digit ≤ 9 }
        ensures { digits_of result ≡ take 17 (digits_of self ++ digit ∷ []) }
    {
        if self.count < 17 {
            let mut digits = self.digits;
            digits[usize::from(self.count)] = digit;
            Decimals {
                digits,
                count: self.count + 1,
            }
        } else {
            self
        }
    }

    /// The fraction in 65536ths, at most 65536.
    pub fn fraction(self) -> u32
        ensures { result ≡ fraction_of_digits (take 17 (digits_of self)) }
    {
        round_decimals(&self.digits[..usize::from(self.count)]) as u32
    }
}
