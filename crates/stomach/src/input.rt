//! Opening a file (The TeXbook, page 214; `tex.web` 537 and 538).
ghost use Rattle.std.specs.Prelude.{◌≡◌, ◌≤◌, ◌<◌, ◌+◌, true, OnOk};
ghost use Rattle.asking.specs.Did.{Does, DoesBy, Ended};
ghost use Rattle.asking.specs.Seen.{DoesBeside, DoesBesideBy};
ghost use Rattle.stomach.specs.Input.{not_found, opened, begun, found, open_file, input, first_input};
ghost use Rattle.stomach.specs.Work.{work};

use crate::report;
use crate::source::{Source, first_line};
use crate::start_values::END_LINE_CHARACTER;
use crate::state::State;
use asking::Library;
use catcode_eye::Eye;
use std::alloc::Global;
use tokens::{Cap, Kind, Stop, Text};
use world::is_good_name;

/// The byte that ends a line of a file.
const LINE_FEED: i32 = 10;

impl State {
    /// Carries out that the first line names a file, as if `\input` stood in front of it.
    #[tactic(auto, using(asking::specs::Asked::asking), unfolding(crate::specs::Input::first_input))]
    pub fn first_input<L: Library>(&mut self, alloc: Global, library: &mut L) -> Result<(), Stop>
        requires named { self.old.names_file ≡ true }
        ensures does { DoesBeside L.outside (L.seen library.old) (L.seen library.new) result self.new (first_input L.outside self.old) }
        ensures less { OnOk result (work self.new < work self.old) }
    {
        self.naming_line()?;
        self.input(alloc, library)
    }

    /// Carries `\input` out, behind its token: reads a name, and opens the file.
    #[tactic(auto, using(asking::specs::Asked::asking), unfolding(crate::specs::Input::input))]
    pub fn input<L: Library>(&mut self, alloc: Global, library: &mut L) -> Result<(), Stop>
        ensures does { DoesBeside L.outside (L.seen library.old) (L.seen library.new) result self.new (input L.outside self.old) }
        ensures less { OnOk result (work self.new ≤ work self.old + 1) }
    {
        let file = self.named_file(alloc)?;
        self.open_file(alloc, library, file.bytes())
    }

    /// Opens a file. A name that isn't good stands for no file, and isn't asked for outside.
    #[tactic(auto, using(asking::specs::Asked::asking), unfolding(crate::specs::Input::open_file))]
    fn open_file<L: Library>(
        &mut self,
        alloc: Global,
        library: &mut L,
        file: &[u8],
    ) -> Result<(), Stop>
        ensures does { DoesBeside L.outside (L.seen library.old) (L.seen library.new) result self.new (open_file L.outside file.now self.old) }
        ensures less { OnOk result (work self.new ≤ work self.old + 1) }
    {
        if !is_good_name(file) {
            return self.not_found(alloc, file);
        }
        match library.fetch(alloc, &mut self.printer, file) {
            Ok(Some(bytes)) => self.found(alloc, file, bytes),
            Ok(None) => self.not_found(alloc, file),
            Err(stop) => Err(stop),
        }
    }

    /// Opens a file with these bytes.
    #[tactic(auto, using(asking::specs::Asked::asking), unfolding(crate::specs::Input::found))]
    fn found(&mut self, alloc: Global, file: &[u8], bytes: Vec<u8>) -> Result<(), Stop>
        ensures does { Does result self.new (found file.now bytes.items self.old) }
        ensures less { OnOk result (work self.new ≤ work self.old + 1) }
    {
        match report::show_begun(&mut self.printer, file) {
            Ok(()) => self.begin(alloc, bytes),
            Err(_) => Err(Stop::OutOfMemory),
        }
    }

    /// Begins to read a file, where fewer are open than may be.
    #[tactic(auto, using(asking::specs::Asked::asking), unfolding(crate::specs::Input::begun))]
    fn begin(&mut self, alloc: Global, bytes: Vec<u8>) -> Result<(), Stop>
        ensures does { Does result self.new (begun bytes.items self.old) }
        ensures less { OnOk result (work self.new ≤ work self.old + 1) }
    {
        if self.pending.open_files() < Cap::Inputs.limit() as usize {
            self.open(alloc, bytes)
        } else {
            Err(Stop::Capacity(Cap::Inputs))
        }
    }

    /// Takes the first line of a file, which is what is read next.
    #[tactic(auto, using(asking::specs::Asked::asking), unfolding(crate::specs::Input::opened))]
    fn open(&mut self, alloc: Global, bytes: Vec<u8>) -> Result<(), Stop>
        ensures does { Does result self.new (opened bytes.items self.old) }
        ensures less { OnOk result (work self.new ≤ work self.old + 1) }
    {
        let mut eye = Eye::new(alloc, bytes, LINE_FEED, true);
        first_line(&mut eye, END_LINE_CHARACTER, &self.names, &mut self.budget)?;
        match self.pending.read_from(Source { eye, is_file: true }) {
            Ok(()) => Ok(()),
            Err(_) => Err(Stop::OutOfMemory),
        }
    }

    /// The end of a run at a file that isn't there.
    fn not_found(&mut self, alloc: Global, file: &[u8]) -> Result<(), Stop>
        ensures does { Does result self.new (not_found file.now self.old) }
        ensures ends { OnOk result ⊥ }
    {
        match file.to_vec(alloc) {
            Ok(file) => Err(Stop::Trouble(Kind::FileNotFound(Text::new(file)))),
            Err(_) => Err(Stop::OutOfMemory),
        }
    }
}
