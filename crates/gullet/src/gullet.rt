//! What is still to be read, with the conditions that are open.

ghost use Rattle.std.specs.Prelude.{◌≡◌, [], true, false, min, OnOk, OnErr};
ghost use Rattle.pending.specs.Pending.{first_pending, line_number, open_files, with_list, with_back};

use conditionals::IfStack;
use pending::Pending;
use std::alloc::{AllocError, Global};
use tokens::{Token, TokenList};

/// What is still to be read, and what is open in it.
#[derive(Drop)]
pub struct Gullet {
    pub(crate) alloc: Global,
    pub(crate) pending: Pending,
    pub(crate) conditions: IfStack,
}

impl Gullet {
    /// The first line of a run, of which nothing is taken yet, and no condition.
    pub fn new(alloc: Global, line: Vec<u8>) -> Gullet
        ensures pending { result.pending ≡ first_pending line.items }
        ensures conditions { result.conditions ≡ [] }
    {
        Gullet {
            alloc,
            pending: Pending::new(alloc, line),
            conditions: IfStack::new(alloc),
        }
    }

    /// The number of the line that is read, 0 on the first line of a run.
    pub fn line(&self) -> u32
        ensures { result ≡ line_number self.now.pending }
    {
        self.pending.line()
    }

    /// How many files are open, pseudo-files not counted, up to the last number of the type.
    pub fn files(&self) -> u32
        ensures { result ≡ min (open_files self.now.pending) 4294967295 }
    {
        self.pending.files()
    }

    /// Puts new tokens in front of what is still to be read.
    pub fn push_list(&mut self, list: TokenList) -> Result<(), AllocError>
        ensures ok { OnOk result (self.new ≡ record self.old { pending = with_list list self.old.pending }) }
        ensures err { OnErr result (self.new ≡ self.old) }
    {
        self.pending.push_list(list)
    }

    /// Puts a token back. Where its step is paid, it is taken again without one.
    pub fn back(&mut self, token: Token, paid: bool) -> Result<(), AllocError>
        ensures ok { OnOk result (self.new ≡ record self.old { pending = with_back token false paid self.old.pending }) }
        ensures err { OnErr result (self.new ≡ self.old) }
    {
        self.pending.back(token, false, paid)
    }

    /// Puts a token back as it was taken: where it isn't to be expanded it still isn't. Its step is paid.
    pub fn back_as_taken(&mut self, token: Token, noexpand: bool) -> Result<(), AllocError>
        ensures ok { OnOk result (self.new ≡ record self.old { pending = with_back token noexpand true self.old.pending }) }
        ensures err { OnErr result (self.new ≡ self.old) }
    {
        self.pending.back(token, noexpand, true)
    }
}
