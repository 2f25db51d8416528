//! A macro's call while its arguments are read (The TeXbook, chapter 20; `tex.web` 389).

ghost use Rattle.std.specs.Prelude.{◌≡◌, ◌++◌, ◌∷◌, [], List, IfOk};
ghost use Rattle.macro_args.specs.declared.rules.Rules.{Rules};
ghost use Rattle.macro_args.specs.Scanning.{StandsFor, Tells};
ghost use Rattle.tokens.specs.declared.token.Token.{Token as TokenValue};

use macro_args::{ArgScan, Verdict};
use std::alloc::{AllocError, Global};
use std::boxed::Box;
use std::marker::Model;
use tokens::{Macro, Token};

/// The macro's name, what it stands for, and what was read of its arguments.
#[derive(Drop)]
pub struct Parts {
    pub name: Token,
    pub called: Macro,
    pub scan: ArgScan,
}

/// A macro's call, in a place of its own, so that a phrase that waits stays small. Contracts see its parts.
#[derive(Drop)]
pub struct Calling {
    apart: Box<Parts>,
}

impl Model for Calling {
    ghost use Rattle.gullet.specs.declared.calling.Parts.{Parts};

    ghost Value = { Parts };

    ghost view = { λ calling. calling.apart.value };
}

impl Calling {
    /// A call of which this was read.
    pub fn new(alloc: Global, parts: Parts) -> Result<Calling, AllocError>
        ensures { IfOk result (λ calling. calling ≡ parts) }
    {
        Ok(Calling {
            apart: Box::new(alloc, parts)?,
        })
    }

    /// A token of the call.
    pub fn take(&mut self, token: Token) -> Result<Verdict, AllocError>
        ensures name { self.new.name ≡ self.old.name }
        ensures called { self.new.called ≡ self.old.called }
        ensures tells { IfOk result (λ verdict. (rules : Rules) (parameters taken : List TokenValue)
            → StandsFor rules parameters taken self.old.scan → Tells rules parameters (taken ++ token ∷ []) verdict self.new.scan) }
    {
        self.apart.scan.take(token)
    }

    /// Its parts.
    pub fn into_parts(self) -> Parts
        ensures { result ≡ self }
    {
        Box::into_inner(self.apart)
    }
}
