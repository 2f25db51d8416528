//! The bytes of a page, written command by command (`tex.web`, sections 583 to 590 and 607 to 615).
ghost use Rattle.std.specs.Prelude.{◌≡◌, OnOk};
ghost use Rattle.std.specs.List.{fold};
ghost use Rattle.dvi_out.specs.Buffer.{no_bytes, written};
ghost use Rattle.dvi_out.specs.BufferOf.{buffer_of};

use crate::codes::{HORIZONTAL, VERTICAL};
use crate::command::Command;
use crate::speller::{Sources, Speller};
use crate::track::Track;
use std::alloc::{AllocError, Global};

/// A page that is being written.
#[derive(Drop)]
pub(crate) struct Writer {
    pub(crate) speller: Speller,
    pub(crate) rights: Track,
    pub(crate) downs: Track,
}

impl Writer {
    /// A page of which nothing is written.
    pub(crate) fn new(alloc: Global) -> Writer
        ensures { buffer_of result ≡ no_bytes }
    {
        Writer {
            speller: Speller::new(alloc),
            rights: Track::new(alloc),
            downs: Track::new(alloc),
        }
    }

    /// Makes room for what so many commands write, no more than the commands take themselves.
    pub(crate) fn make_room(&mut self, commands: usize) -> Result<(), AllocError>
        ensures { buffer_of self.new ≡ buffer_of self.old }
    {
        self.speller.bytes.reserve(commands)?;
        self.rights.make_room(commands / 2)
    }

    /// Writes a command.
    fn write(&mut self, sources: &Sources, command: &Command) -> Result<(), AllocError>
        ensures { OnOk result
            (buffer_of self.new ≡ written sources.now.defined.now sources.now.fonts.now (buffer_of self.old) command.now) }
    {
        match command {
            Command::Push => {
                self.rights.begin_list()?;
                self.downs.begin_list()?;
                self.speller.put_byte(141)
            }
            Command::Pop => {
                self.rights.end_list();
                self.downs.end_list();
                self.speller.put_byte(142)
            }
            Command::Right(width) => {
                self.rights
                    .write(&mut self.speller.bytes, HORIZONTAL, *width)
            }
            Command::Down(height) => self.downs.write(&mut self.speller.bytes, VERTICAL, *height),
            Command::Character { font, byte } => self.speller.set_character(sources, *font, *byte),
            Command::SetRule { height, width } => self.speller.put_rule(132, *height, *width),
            Command::PutRule { height, width } => self.speller.put_rule(137, *height, *width),
            Command::Special(bytes) => self.speller.put_special(bytes.get().as_slice()),
        }
    }

    /// Writes commands, one after the other.
    pub(crate) fn write_all(
        &mut self,
        sources: &Sources,
        commands: &[Command],
    ) -> Result<(), AllocError>
        ensures { OnOk result
            (buffer_of self.new ≡ fold (written sources.now.defined.now sources.now.fonts.now) (buffer_of self.old) commands.now) }
    {
        for i in 0..commands.len() {
            self.write(sources, &commands[i])?;
        }
        Ok(())
    }
}
