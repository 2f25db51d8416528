//! The printer: what a run of TeX has printed, with the columns of terminal and log (tex.web part
//! 5). The terminal's bytes gather here until a flush shows them to a world.
ghost use Rattle.std.specs.Prelude.{◌≡◌, ℕ, ◌<◌, ◌++◌, OnOk, OnErr};
ghost use Rattle.world.specs.Calls.{Shows, Counts};

use crate::strip::{append_printed, column_after};
use crate::target::Target;
use crate::world::{World, WorldError};
use std::alloc::{AllocError, Global};
use std::marker::Model;

/// Terminal and log as they are printed to.
#[derive(Drop)]
pub struct Printer {
    unflushed: Vec<u8>,
    terminal: u8,
    log: u8,
}

impl Model for Printer {
    ghost use Rattle.std.specs.Prelude.{◌<◌};
    ghost use Rattle.world.specs.Output.{Output};

    ghost Value = { Output };

    ghost view = { λ p. record { unflushed = p.unflushed.items; terminal = p.terminal; log = p.log } };

    ghost invariant = { λ p. (p.terminal < 79) × (p.log < 79) };
}

impl Printer {
    ghost use Rattle.world.specs.Output.{IsOpen, nothing_yet, after_print, after_end_line, after_fresh_line, is_fresh, flushed};

    /// A printer that has printed nothing.
    pub fn new(alloc: Global) -> Printer
        ensures { result ≡ nothing_yet }
    {
        Printer {
            unflushed: Vec::new(alloc),
            terminal: 0,
            log: 0,
        }
    }

    /// The columns of terminal and log: how many bytes stand on the line, 0 to 78.
    pub fn columns(&self) -> (u8, u8)
        ensures terminal { result.0 ≡ self.now.terminal }
        ensures log { result.1 ≡ self.now.log }
        ensures terminal_bound { result.0 < 79 }
        ensures log_bound { result.1 < 79 }
    {
        (self.terminal, self.log)
    }

    /// Prints bytes. `newline` is `\newlinechar`: a byte that equals it ends the line.
    pub fn print(&mut self, to: Target, bytes: &[u8], newline: i32) -> Result<(), AllocError>
        requires open { IsOpen self.old to }
        ensures ok { OnOk result (self.new ≡ after_print to bytes.now newline self.old) }
        ensures err { OnErr result (self.new ≡ self.old) }
    {
        match to {
            Target::Both => {
                let after = append_printed(&mut self.unflushed, self.terminal, bytes, newline)?;
                self.log = if self.log == self.terminal {
                    after
                } else {
                    column_after(self.log, bytes, newline)
                };
                self.terminal = after;
            }
            Target::Log => self.log = column_after(self.log, bytes, newline),
            Target::Stream(_) => unreachable!(),
        }
        Ok(())
    }

    /// Ends the line.
    pub fn end_line(&mut self, to: Target) -> Result<(), AllocError>
        requires open { IsOpen self.old to }
        ensures ok { OnOk result (self.new ≡ after_end_line to self.old) }
        ensures err { OnErr result (self.new ≡ self.old) }
    {
        match to {
            Target::Both => {
                self.unflushed.push(b'\n')?;
                self.terminal = 0;
                self.log = 0;
            }
            Target::Log => self.log = 0,
            Target::Stream(_) => unreachable!(),
        }
        Ok(())
    }

    /// Ends the line on all of the target if the column of one of them isn't 0.
    pub fn fresh_line(&mut self, to: Target) -> Result<(), AllocError>
        requires open { IsOpen self.old to }
        ensures ok { OnOk result (self.new ≡ after_fresh_line to self.old) }
        ensures err { OnErr result (self.new ≡ self.old) }
    {
        if self.is_fresh(to) {
            return Ok(());
        }
        self.end_line(to)
    }

    fn is_fresh(&self, to: Target) -> bool
        ensures { result ≡ is_fresh to self.now }
    {
        match to {
            Target::Both => self.terminal == 0 && self.log == 0,
            Target::Log => self.log == 0,
            Target::Stream(_) => true,
        }
    }

    /// Shows the terminal's gathered bytes to the world, and forgets them. After a refusal the world
    /// may have shown a first part of them, so that only reading calls make sense from then on.
    pub fn flush<W: World>(&mut self, world: &mut W) -> Result<(), WorldError>
        ensures ok { OnOk result (self.new ≡ flushed self.old) }
        ensures err { OnErr result (self.new ≡ self.old) }
        ensures answer { Shows self.old.unflushed result (W.told world.old) (W.told world.new) }
        ensures read_fault { W.read_faults world.new ≡ W.read_faults world.old }
        ensures write_fault { Counts (W.told world.old) result (W.write_faults world.old) (W.write_faults world.new) }
        ensures same_world { W.which world.new ≡ W.which world.old }
    {
        world.show(&self.unflushed)?;
        self.unflushed.clear();
        Ok(())
    }
}
