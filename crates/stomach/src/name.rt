//! Reading the name of a file (The TeXbook, chapter 25; `tex.web` 378, 379, 516 and 526).
ghost use Rattle.std.specs.Prelude.{◌≡◌, ◌≤◌, ◌+◌, ℕ, List, OnOk, IfOk, if◌then◌else◌};
ghost use Rattle.asking.specs.Did.{Does, DoesBy, Ended};
ghost use Rattle.stomach.specs.Name.{name_by, name_command, name_ended, name_turn, file_name};
ghost use Rattle.stomach.specs.Work.{work};

use crate::command::{Command, command_named};
use crate::state::State;
use std::alloc::Global;
use tokens::{Stop, Text, Token};

impl State {
    /// Reads a name: characters, up to a space or another token.
    #[tactic(auto, using(crate::specs::Again::loops))]
    pub fn file_name(&mut self, alloc: Global) -> Result<Text, Stop>
        ensures does { Does result self.new (file_name self.old) }
        ensures less { OnOk result (work self.new ≤ work self.old) }
    {
        let mut name = Vec::new(alloc);
        'name: loop {
            match self.name_turn(alloc, &mut name) {
                Ok(true) => {}
                Ok(false) => return Ok(Text::new(name)),
                Err(stop) => return Err(stop),
            }
        }
    }

    /// Takes a token of a name. The answer is whether the name goes on.
    #[tactic(auto, unfolding(crate::specs::Name::name_turn))]
    fn name_turn(&mut self, alloc: Global, name: &mut Vec<u8>) -> Result<bool, Stop>
        ensures does { DoesBy (λ more. (more, name.new.items)) result self.new (name_turn name.old.items self.old) }
        ensures less { IfOk result (λ more. work self.new + (if more then 1 else 0) ≤ work self.old) }
    {
        match self.next_token() {
            Ok(token) => self.name_by(alloc, name, token),
            Err(stop) => Err(stop),
        }
    }

    fn name_by(&mut self, alloc: Global, name: &mut Vec<u8>, token: Token) -> Result<bool, Stop>
        ensures does { DoesBy (λ more. (more, name.new.items)) result self.new (name_by name.old.items (token, self.old)) }
        ensures less { IfOk result (λ more. work self.new + (if more then 1 else 0) ≤ work self.old + 3) }
    {
        match token {
            Token::Char { cat, byte } => {
                if byte == b' ' {
                    return Ok(cat == 10 && name.is_empty());
                }
                match name.push(byte) {
                    Ok(()) => Ok(true),
                    Err(_) => Err(Stop::OutOfMemory),
                }
            }
            Token::Active(_) => self.undefined(alloc, token),
            Token::Name(id) => self.name_command(alloc, name, token, command_named(id)),
            Token::Arg(_) => self.end_name(token),
            Token::Frozen(_) => self.end_name(token),
        }
    }

    /// A name of a command without a meaning ends the run. `\input` opens no file here: it is put back behind an
    /// inserted `\relax`, which ends the name.
    fn name_command(
        &mut self,
        alloc: Global,
        name: &[u8],
        token: Token,
        command: Command,
    ) -> Result<bool, Stop>
        ensures does { DoesBy (λ more. (more, name.now)) result self.new (name_command token name.now self.old command) }
        ensures less { IfOk result (λ more. work self.new + (if more then 1 else 0) ≤ work self.old + 3) }
    {
        match command {
            Command::Space
            | Command::Relax
            | Command::Par
            | Command::End
            | Command::Catcode
            | Command::Message
            | Command::Character => self.end_name(token),
            Command::Input => match self.put_behind_relax(token) {
                Ok(()) => Ok(true),
                Err(_) => Err(Stop::OutOfMemory),
            },
            Command::Undefined => self.undefined(alloc, token),
        }
    }

    /// Ends a name before a token.
    fn end_name(&mut self, token: Token) -> Result<bool, Stop>
        ensures does { (name : List ℕ) → DoesBy (λ more. (more, name)) result self.new (name_ended token name self.old) }
        ensures less { IfOk result (λ more. work self.new + (if more then 1 else 0) ≤ work self.old + 3) }
    {
        match self.put_back(token) {
            Ok(()) => Ok(false),
            Err(_) => Err(Stop::OutOfMemory),
        }
    }
}
