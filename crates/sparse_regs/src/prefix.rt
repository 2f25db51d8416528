//! Prefixes: the first hexadecimal digits of a register's number, most significant first.
ghost use Rattle.std.specs.Prelude.{◌≡◌, ◌<◌, ◌%◌};
ghost use Rattle.sparse_regs.specs.Prefixes.{longer, digits_of};

use arrayvec::ArrayVec;

/// How many digits a register's number has.
pub const DIGITS: u8 = 4;

/// Up to four digits, and the number that they make.
#[derive(Clone, Copy, Debug)]
pub struct Prefix {
    pub digits: u8,
    pub number: u16,
}

/// No digit, as above all nodes.
pub const EMPTY: Prefix = Prefix {
    digits: 0,
    number: 0,
};

impl Prefix {
    /// The prefix with a digit more.
    pub fn longer(self, digit: u8) -> Prefix
        requires digit { digit < 16 }
        requires digits { self.digits < 4 }
        requires number { self.number < 4096 }
        ensures { result ≡ longer self digit }
    {
        Prefix {
            digits: self.digits + 1,
            number: 16 * self.number + u16::from(digit),
        }
    }

    /// The digit that comes last.
    pub fn last_digit(self) -> u8
        ensures { result ≡ self.number % 16 }
    {
        (self.number % 16) as u8
    }
}

/// The way to a register: the four digits of its number.
pub fn path(number: u16) -> ArrayVec<u8, 4>
    ensures { result.items ≡ digits_of number }
{
    let mut path = ArrayVec::new();
    path.push((number / 4096) as u8);
    path.push((number / 256 % 16) as u8);
    path.push((number / 16 % 16) as u8);
    path.push((number % 16) as u8);
    path
}
