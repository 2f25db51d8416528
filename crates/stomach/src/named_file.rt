//! The file that a name asks for, and what a run notes of it (`tex.web` 526 to 537).
ghost use Rattle.std.specs.Prelude.{◌≡◌, ◌≤◌, ◌+◌, true, OnOk};
ghost use Rattle.asking.specs.Did.{Does, DoesBy, Ended};
ghost use Rattle.stomach.specs.NamedFile.{wanted, named_file, naming_line};
ghost use Rattle.stomach.specs.Work.{work};

use crate::file_name::{file_of, job_of};
use crate::start_values::END_LINE_CHARACTER;
use crate::state::State;
use std::alloc::{AllocError, Global};
use tokens::{Stop, Text};

impl State {
    /// Reads the name of a file.
    #[tactic(auto, unfolding(crate::specs::NamedFile::named_file))]
    pub fn named_file(&mut self, alloc: Global) -> Result<Text, Stop>
        ensures does { Does result self.new (named_file self.old) }
        ensures less { OnOk result (work self.new ≤ work self.old) }
    {
        let name = self.file_name(alloc)?;
        let Ok(file) = file_of(alloc, name.bytes()) else {
            return Err(Stop::OutOfMemory);
        };
        match self.want(alloc, &file) {
            Ok(()) => Ok(Text::new(file)),
            Err(_) => Err(Stop::OutOfMemory),
        }
    }

    /// Notes that a file is asked for; the first one names the job.
    fn want(&mut self, alloc: Global, file: &[u8]) -> Result<(), AllocError>
        ensures ok { OnOk result (self.new ≡ wanted file.now self.old) }
        ensures same { work self.new ≡ work self.old }
    {
        if self.job.bytes().is_empty() {
            self.job = Text::new(job_of(alloc, file)?);
        }
        self.asked = Text::new(file.to_vec(alloc)?);
        Ok(())
    }

    /// Takes the first line, and stands in it as behind `\input`.
    #[tactic(auto, unfolding(crate::specs::NamedFile::naming_line))]
    pub fn naming_line(&mut self) -> Result<(), Stop>
        requires named { self.old.names_file ≡ true }
        ensures does { Does result self.new (naming_line self.old) }
        ensures less { OnOk result (work self.new + 2 ≤ work self.old) }
    {
        self.names_file = false;
        self.pending
            .begin_behind_word(END_LINE_CHARACTER, &mut self.names, &mut self.budget)
    }
}
