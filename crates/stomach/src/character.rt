//! The byte that a token names behind a grave accent (The TeXbook, page 44; `tex.web` 442).
ghost use Rattle.std.specs.Prelude.{◌≡◌, ◌≤◌, OnOk};
ghost use Rattle.tokens.specs.Names.{name_at};
ghost use Rattle.asking.specs.Did.{Does, DoesBy, Ended};
ghost use Rattle.stomach.specs.Character.{named_character, named_byte, only_byte, byte_of};
ghost use Rattle.stomach.specs.Work.{work};

use crate::state::State;
use std::alloc::Global;
use tokens::{NameId, NameTable, Stop, Token};

impl State {
    /// Takes the token that names a byte behind a grave accent.
    #[tactic(auto, unfolding(crate::specs::Character::named_character))]
    pub fn named_character(&mut self, alloc: Global) -> Result<u8, Stop>
        ensures does { Does result self.new (named_character self.old) }
        ensures less { OnOk result (work self.new ≤ work self.old) }
    {
        let token = self.next_token()?;
        self.byte_of(alloc, token)
    }

    fn byte_of(&mut self, alloc: Global, token: Token) -> Result<u8, Stop>
        ensures does { Does result self.new (byte_of (token, self.old)) }
        ensures same { OnOk result (self.new ≡ self.old) }
    {
        match named_byte(&self.names, token) {
            Some(byte) => Ok(byte),
            None => self.wrong_operand(alloc),
        }
    }
}
/// The byte that a token names behind a grave accent: any character, or a name of one byte.
fn named_byte(names: &NameTable, token: Token) -> Option<u8>
    ensures { result ≡ named_byte names.now token }
{
    match token {
        Token::Char { cat: _, byte } => Some(byte),
        Token::Active(byte) => Some(byte),
        Token::Name(id) => only_byte(name_of(names, id)),
        Token::Arg(_) => None,
        Token::Frozen(_) => None,
    }
}

/// The text of a name.
fn name_of(names: &NameTable, id: NameId) -> &[u8]
    ensures { result.now ≡ name_at names.now id.0 }
{
    if id.0 < names.len() {
        names.text(id)
    } else {
        b""
    }
}

/// A name that is one byte long stands for it.
fn only_byte(name: &[u8]) -> Option<u8>
    ensures { result ≡ only_byte name.now }
{
    match name {
        [byte] => Some(*byte),
        _ => None,
    }
}
