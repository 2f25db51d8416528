//! `\catcode`, with a character constant in front of `=` and a category behind it (The TeXbook, page 39 and
//! chapter 24; `tex.web` 440 to 445 and 1232). Other forms of the two numbers are left out.
ghost use Rattle.std.specs.Prelude.{◌≡◌, ◌<◌, ◌≤◌, ◌+◌, IfSome, IfOk, OnOk};
ghost use Rattle.asking.specs.Did.{Does, DoesBy, Ended};
ghost use Rattle.asking.specs.Seen.{DoesBeside, DoesBesideBy};
ghost use Rattle.stomach.specs.Catcode.{
  is_other,
  exact,
  exactly,
  digit_value,
  digit_of,
  digit,
  is_space,
  number_over,
  after_number,
  more_digits,
  category_number,
  with_category,
  catcode,
};
ghost use Rattle.stomach.specs.Work.{work};

use crate::state::State;
use asking::Library;
use std::alloc::Global;
use tokens::{Stop, Token};

impl State {
    /// Carries `\catcode` out, behind its token.
    #[tactic(auto, using(asking::specs::Asked::asking), unfolding(crate::specs::Catcode::catcode))]
    pub fn catcode<L: Library>(&mut self, alloc: Global, library: &mut L) -> Result<(), Stop>
        ensures does { DoesBeside L.outside (L.seen library.old) (L.seen library.new) result self.new (catcode L.outside self.old) }
        ensures less { OnOk result (work self.new ≤ work self.old) }
    {
        self.exactly(alloc, library, b'`')?;
        let byte = self.named_character(alloc)?;
        self.exactly(alloc, library, b'=')?;
        let category = self.category_number(alloc, library)?;
        self.set_category(byte, category)
    }

    /// Gives the byte this category from now on.
    #[tactic(auto, using(asking::specs::Asked::asking), unfolding(crate::specs::Catcode::with_category))]
    fn set_category(&mut self, byte: u8, category: u8) -> Result<(), Stop>
        requires { category < 16 }
        ensures does { Does result self.new (with_category byte category self.old) }
        ensures same { work self.new ≡ work self.old }
    {
        self.categories.set(byte, category);
        Ok(())
    }

    /// Takes this character, of category 12.
    #[tactic(auto, using(asking::specs::Asked::asking), unfolding(crate::specs::Catcode::exactly))]
    fn exactly<L: Library>(&mut self, alloc: Global, library: &mut L, byte: u8) -> Result<(), Stop>
        ensures does { DoesBeside L.outside (L.seen library.old) (L.seen library.new) result self.new (exactly L.outside byte self.old) }
        ensures less { OnOk result (work self.new ≤ work self.old) }
    {
        let token = self.operand_token(alloc, library)?;
        self.exact(alloc, byte, token)
    }

    fn exact(&mut self, alloc: Global, byte: u8, token: Token) -> Result<(), Stop>
        ensures does { Does result self.new (exact byte (token, self.old)) }
        ensures same { OnOk result (self.new ≡ self.old) }
    {
        if is_other(byte, token) {
            Ok(())
        } else {
            self.wrong_operand(alloc)
        }
    }

    /// Takes a decimal digit.
    #[tactic(auto, using(asking::specs::Asked::asking), unfolding(crate::specs::Catcode::digit))]
    fn digit<L: Library>(&mut self, alloc: Global, library: &mut L) -> Result<u8, Stop>
        ensures does { DoesBeside L.outside (L.seen library.old) (L.seen library.new) result self.new (digit L.outside self.old) }
        ensures less { OnOk result (work self.new ≤ work self.old) }
        ensures bound { IfOk result (λ value. value < 10) }
    {
        let token = self.operand_token(alloc, library)?;
        self.digit_of(alloc, token)
    }

    fn digit_of(&mut self, alloc: Global, token: Token) -> Result<u8, Stop>
        ensures does { Does result self.new (digit_of (token, self.old)) }
        ensures same { OnOk result (self.new ≡ self.old) }
        ensures bound { IfOk result (λ value. value < 10) }
    {
        match digit_value(token) {
            Some(value) => Ok(value),
            None => self.wrong_operand(alloc),
        }
    }

    /// Takes a category, 0 to 15.
    #[tactic(auto, using(asking::specs::Asked::asking), unfolding(crate::specs::Catcode::category_number))]
    fn category_number<L: Library>(&mut self, alloc: Global, library: &mut L) -> Result<u8, Stop>
        ensures does { DoesBeside L.outside (L.seen library.old) (L.seen library.new) result self.new (category_number L.outside self.old) }
        ensures less { OnOk result (work self.new ≤ work self.old) }
        ensures bound { IfOk result (λ value. value < 16) }
    {
        let first = self.digit(alloc, library)?;
        let token = self.operand_token(alloc, library)?;
        self.more_digits(alloc, library, first, token)
    }

    /// A second digit counts where the value of both is at most 15.
    fn more_digits<L: Library>(
        &mut self,
        alloc: Global,
        library: &mut L,
        first: u8,
        token: Token,
    ) -> Result<u8, Stop>
        requires { first < 10 }
        ensures does { DoesBeside L.outside (L.seen library.old) (L.seen library.new) result self.new
            (more_digits L.outside first (token, self.old)) }
        ensures less { OnOk result (work self.new ≤ work self.old + 3) }
        ensures bound { IfOk result (λ value. value < 16) }
    {
        match digit_value(token) {
            Some(second) => {
                if 10 * first + second <= 15 {
                    self.after_number(alloc, library, 10 * first + second)
                } else {
                    self.number_over(first, token)
                }
            }
            None => self.number_over(first, token),
        }
    }

    /// One space behind a number is absorbed.
    #[tactic(auto, using(asking::specs::Asked::asking), unfolding(crate::specs::Catcode::after_number))]
    fn after_number<L: Library>(
        &mut self,
        alloc: Global,
        library: &mut L,
        value: u8,
    ) -> Result<u8, Stop>
        ensures does { DoesBeside L.outside (L.seen library.old) (L.seen library.new) result self.new
            (after_number L.outside value self.old) }
        ensures less { OnOk result (work self.new ≤ work self.old) }
        ensures same { IfOk result (λ number. number ≡ value) }
    {
        let token = self.operand_token(alloc, library)?;
        self.number_over(value, token)
    }

    /// A token behind a number: one space is absorbed, and any other token is put back.
    fn number_over(&mut self, value: u8, token: Token) -> Result<u8, Stop>
        ensures does { Does result self.new (number_over value (token, self.old)) }
        ensures less { OnOk result (work self.new ≤ work self.old + 3) }
        ensures same { IfOk result (λ number. number ≡ value) }
    {
        if is_space(token) {
            return Ok(value);
        }
        match self.put_back(token) {
            Ok(()) => Ok(value),
            Err(_) => Err(Stop::OutOfMemory),
        }
    }
}

/// Whether a token is this character, of category 12.
fn is_other(byte: u8, token: Token) -> bool
    ensures { result ≡ is_other byte token }
{
    match token {
        Token::Char { cat, byte: b } => cat == 12 && b == byte,
        Token::Active(_) => false,
        Token::Name(_) => false,
        Token::Arg(_) => false,
        Token::Frozen(_) => false,
    }
}

/// The value of a decimal digit.
fn digit_value(token: Token) -> Option<u8>
    ensures value { result ≡ digit_value token }
    ensures bound { IfSome result (λ value. value < 10) }
{
    match token {
        Token::Char { cat, byte } => {
            if cat == 12 && 48 <= byte && byte <= 57 {
                Some(byte - 48)
            } else {
                None
            }
        }
        Token::Active(_) => None,
        Token::Name(_) => None,
        Token::Arg(_) => None,
        Token::Frozen(_) => None,
    }
}

fn is_space(token: Token) -> bool
    ensures { result ≡ is_space token }
{
    match token {
        Token::Char { cat, byte: _ } => cat == 10,
        Token::Active(_) => false,
        Token::Name(_) => false,
        Token::Arg(_) => false,
        Token::Frozen(_) => false,
    }
}
