//! Constants: the digits of a whole number to one of three bases (`tex.web` 442 to 445).
ghost use Rattle.std.specs.Prelude.{◌≡◌, ◌+◌, ◌*◌, ◌≤◌, true, min, IfSome};
ghost use Rattle.scan_nums.specs.Constants.{base, capped, digit_of, digit_of_character, last_figure, has_letters, signed};

use tokens::Token;

/// The base of a constant: 8 behind an apostrophe, 16 behind a quotation mark, else 10.
#[derive(Clone, Copy)]
pub enum Radix {
    Base8,
    Base10,
    Base16,
}

/// The greatest number.
pub const GREATEST: u32 = 2_147_483_647;

/// What stands for each number that is greater.
pub const TOO_BIG: u32 = 2_147_483_648;

/// The digits of a constant that were read: whether there are any, and the number that they stand for.
#[derive(Clone, Copy)]
pub struct Constant {
    pub radix: Radix,
    pub has_digit: bool,
    pub value: u32,
}

impl Constant {
    /// The constant with one more digit.
    pub fn with_digit(self, digit: u8) -> Constant
        ensures { result ≡ record { radix = self.radix; has_digit = true; value = min (self.value * base self.radix + digit) 2147483648 } }
    {
        let value = u64::from(self.value) * base(self.radix) + u64::from(digit);
        Constant {
            radix: self.radix,
            has_digit: true,
            value: value.min(u64::from(TOO_BIG)) as u32,
        }
    }
}

fn base(radix: Radix) -> u64
    ensures value { result ≡ base radix }
    ensures small { result ≤ 16 }
{
    match radix {
        Radix::Base8 => 8,
        Radix::Base10 => 10,
        Radix::Base16 => 16,
    }
}

/// The number with its sign, held within the greatest one.
pub fn signed(negative: bool, value: u32) -> i32
    ensures { result ≡ signed negative (capped value) }
{
    let magnitude = value.min(GREATEST) as i32;
    if negative { -magnitude } else { magnitude }
}

/// The category of letters, and that of other characters.
const LETTER: u8 = 11;

const OTHER: u8 = 12;

/// The value of the token where it is a digit.
#[tactic(auto, unfolding(crate::specs::Constants::digit_of))]
pub fn digit_of(radix: Radix, token: Token) -> Option<u8>
    ensures { result ≡ digit_of radix token }
{
    match token {
        Token::Char { cat, byte } => digit_of_character(radix, cat, byte),
        Token::Active(_) | Token::Name(_) | Token::Arg(_) | Token::Frozen(_) => None,
    }
}

/// The value of the token where it is a figure.
#[tactic(auto, unfolding(crate::specs::Constants::digit_of))]
pub fn figure_of(token: Token) -> Option<u8>
    ensures value { result ≡ digit_of Radix.Base10 token }
    ensures small { IfSome result (λ digit. digit ≤ 9) }
{
    match token {
        Token::Char { cat, byte } => {
            if cat == OTHER && (b'0' <= byte && byte <= b'9') {
                Some(byte - b'0')
            } else {
                None
            }
        }
        Token::Active(_) | Token::Name(_) | Token::Arg(_) | Token::Frozen(_) => None,
    }
}

fn digit_of_character(radix: Radix, cat: u8, byte: u8) -> Option<u8>
    ensures { result ≡ digit_of_character radix cat byte }
{
    if cat == OTHER && (b'0' <= byte && byte <= b'0' + last_figure(radix)) {
        Some(byte - b'0')
    } else if has_letters(radix)
        && ((cat == LETTER || cat == OTHER) && (b'A' <= byte && byte <= b'F'))
    {
        Some(byte - 55)
    } else {
        None
    }
}

// The greatest digit that is written as a figure.
fn last_figure(radix: Radix) -> u8
    ensures value { result ≡ last_figure radix }
    ensures small { result ≤ 9 }
{
    match radix {
        Radix::Base8 => 7,
        Radix::Base10 | Radix::Base16 => 9,
    }
}

// Whether letters are digits too.
fn has_letters(radix: Radix) -> bool
    ensures { result ≡ has_letters radix }
{
    match radix {
        Radix::Base8 | Radix::Base10 => false,
        Radix::Base16 => true,
    }
}
