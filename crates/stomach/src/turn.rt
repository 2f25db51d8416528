//! One turn of a run: the next token is taken, and what it does is done (The TeXbook, chapter 24;
//! `tex.web` 1030 and 1045).
ghost use Rattle.std.specs.Prelude.{◌≡◌, ◌<◌, ◌≤◌, ◌+◌, true, IfOk, OnOk};
ghost use Rattle.asking.specs.Did.{Does, DoesBy, Ended};
ghost use Rattle.asking.specs.Seen.{DoesBeside, DoesBesideBy};
ghost use Rattle.stomach.specs.Command.{command_of};
ghost use Rattle.stomach.specs.Pending.{worth};
ghost use Rattle.stomach.specs.Turn.{turn, plain_turn, by_event, executed};
ghost use Rattle.stomach.specs.Work.{work};

use crate::command::{Command, command_of};
use crate::pending::Event;
use crate::state::State;
use asking::Library;
use std::alloc::Global;
use tokens::{Stop, Token};

impl State {
    /// One turn. The answer is whether the run goes on.
    #[tactic(auto, using(asking::specs::Asked::asking), unfolding(crate::specs::Turn::turn))]
    pub fn turn<L: Library>(&mut self, alloc: Global, library: &mut L) -> Result<bool, Stop>
        ensures does { DoesBeside L.outside (L.seen library.old) (L.seen library.new) result self.new (turn L.outside self.old) }
        ensures less { OnOk result (work self.new < work self.old) }
    {
        if self.names_file {
            self.first_input(alloc, library)?;
            Ok(true)
        } else {
            self.plain_turn(alloc, library)
        }
    }

    /// A turn that takes what comes next.
    #[tactic(auto, using(asking::specs::Asked::asking), unfolding(crate::specs::Turn::plain_turn))]
    fn plain_turn<L: Library>(&mut self, alloc: Global, library: &mut L) -> Result<bool, Stop>
        ensures does { DoesBeside L.outside (L.seen library.old) (L.seen library.new) result self.new (plain_turn L.outside self.old) }
        ensures less { OnOk result (work self.new < work self.old) }
    {
        let event = self.take()?;
        self.by_event(alloc, library, event)
    }

    fn by_event<L: Library>(
        &mut self,
        alloc: Global,
        library: &mut L,
        event: Event,
    ) -> Result<bool, Stop>
        ensures does { DoesBeside L.outside (L.seen library.old) (L.seen library.new) result self.new
            (by_event L.outside (event, self.old)) }
        ensures less { OnOk result (work self.new < work self.old + worth event) }
    {
        match event {
            Event::Token(token) => self.execute(alloc, library, token, command_of(token)),
            Event::FileEnd => match self.pass_file() {
                Ok(()) => Ok(true),
                Err(_) => Err(Stop::OutOfMemory),
            },
        }
    }

    /// Carries out a command. The answer is whether the run goes on.
    fn execute<L: Library>(
        &mut self,
        alloc: Global,
        library: &mut L,
        token: Token,
        command: Command,
    ) -> Result<bool, Stop>
        ensures does { DoesBeside L.outside (L.seen library.old) (L.seen library.new) result self.new
            (executed L.outside token self.old command) }
        ensures less { OnOk result (work self.new < work self.old + 3) }
    {
        match command {
            Command::Space | Command::Relax | Command::Par => Ok(true),
            Command::End => Ok(false),
            Command::Catcode => {
                self.catcode(alloc, library)?;
                Ok(true)
            }
            Command::Message => {
                self.message(alloc, library)?;
                Ok(true)
            }
            Command::Input => {
                self.input(alloc, library)?;
                Ok(true)
            }
            Command::Undefined => self.undefined(alloc, token),
            Command::Character => self.leave_out(alloc, b"character"),
        }
    }
}
