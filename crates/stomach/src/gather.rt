//! A text as far as it is read: tokens with braces that balance (The TeXbook, page 275; `tex.web` 403 and 473 to
//! 477).
ghost use Rattle.std.specs.Prelude.{◌≡◌, ◌≤◌, ◌+◌, [], length, OnOk};
ghost use Rattle.asking.specs.Did.{Does, DoesBy, Ended};
ghost use Rattle.stomach.specs.Gather.{gathered, gather, gather_character, gather_token};
ghost use Rattle.stomach.specs.declared.state.State.{State as TheState};

use crate::command::is_undefined;
use crate::state::State;
use std::alloc::Global;
use std::marker::Model;
use tokens::{Cap, Stop, Token};

/// The tokens of a text, and how many of its braces are open.
#[derive(Drop)]
pub struct GatheredText {
    tokens: Vec<Token>,
    open_braces: usize,
}

impl Model for GatheredText {
    ghost use Rattle.std.specs.Prelude.{◌≤◌, length};
    ghost use Rattle.stomach.specs.Gather.{Gathered, gathered};

    ghost Value = { Gathered };

    ghost view = { λ t. gathered t.tokens.items t.open_braces };

    ghost invariant = { λ t. t.open_braces ≤ length t.tokens.items };
}

impl GatheredText {
    /// A text without tokens.
    pub fn new(alloc: Global) -> GatheredText
        ensures { result ≡ gathered [] 0 }
    {
        GatheredText {
            tokens: Vec::new(alloc),
            open_braces: 0,
        }
    }

    pub fn tokens(&self) -> &[Token]
        ensures { result.now ≡ self.now.text }
    {
        &self.tokens
    }

    /// Adds a character: braces are counted, and the right brace without a partner ends the text.
    fn add_character(&mut self, cat: u8, byte: u8) -> Result<bool, Stop>
        ensures does { (s : TheState) → DoesBy (λ more. (more, self.new)) result s (gather_character cat byte self.old s) }
    {
        let token = Token::Char { cat, byte };
        if cat == 1 {
            self.add(token, self.open_braces + 1)
        } else if cat == 2 {
            if self.open_braces == 0 {
                Ok(false)
            } else {
                self.add(token, self.open_braces - 1)
            }
        } else {
            self.add(token, self.open_braces)
        }
    }

    /// Adds a token, where a list has room, with so many braces open behind it.
    fn add(&mut self, token: Token, open_braces: usize) -> Result<bool, Stop>
        requires { open_braces ≤ length self.old.text + 1 }
        ensures does { (s : TheState) → DoesBy (λ more. (more, self.new)) result s (gather token open_braces self.old s) }
    {
        if self.tokens.len() >= Cap::Items.limit() as usize {
            return Err(Stop::Capacity(Cap::Items));
        }
        match self.tokens.push(token) {
            Ok(()) => {
                self.open_braces = open_braces;
                Ok(true)
            }
            Err(_) => Err(Stop::OutOfMemory),
        }
    }
}

impl State {
    /// Puts a token into a text.
    pub fn gather_token(
        &mut self,
        alloc: Global,
        text: &mut GatheredText,
        token: Token,
    ) -> Result<bool, Stop>
        ensures does { DoesBy (λ more. (more, text.new)) result self.new (gather_token text.old (token, self.old)) }
        ensures same { OnOk result (self.new ≡ self.old) }
    {
        match token {
            Token::Char { cat, byte } => text.add_character(cat, byte),
            Token::Active(_) => self.undefined(alloc, token),
            Token::Name(id) => {
                if is_undefined(id) {
                    self.undefined(alloc, token)
                } else {
                    text.add(token, text.open_braces)
                }
            }
            Token::Arg(_) => text.add(token, text.open_braces),
            Token::Frozen(_) => text.add(token, text.open_braces),
        }
    }
}
