//! A state of which a part alone is read by: what is proved of a call on the part holds of the same call on
//! the whole.
ghost use Rattle.std.specs.Prelude.{◌≡◌};
ghost use Rattle.world.specs.Name.{IsGoodName};
ghost use Rattle.asking.specs.Seen.{DoesBeside, DoesBesideBy};
ghost use Rattle.asking.specs.Example.{two_files, one_file, counted_files};

use crate::library::Library;
use std::alloc::Global;
use tokens::Stop;
use world::{Printer, is_good_name};

/// What reading works on.
#[derive(Drop)]
pub struct Part {
    pub printer: Printer,
    /// How many files were there.
    pub found: u64,
}

/// A state with such a part.
#[derive(Drop)]
pub struct Whole {
    pub part: Part,
    pub calls: u64,
}

impl Part {
    /// Asks for a file, and counts it where it is there.
    #[tactic(auto, using(crate::specs::Asked::asking), unfolding(crate::specs::Example::one_file))]
    pub fn one_file<L: Library>(
        &mut self,
        alloc: Global,
        library: &mut L,
        name: &[u8],
    ) -> Result<bool, Stop>
        ensures does { DoesBeside L.outside (L.seen library.old) (L.seen library.new) result self.new (one_file L.outside name.now self.old) }
    {
        if !is_good_name(name) {
            return Ok(false);
        }
        match library.fetch(alloc, &mut self.printer, name)? {
            Some(_) => {
                self.found = self.found.saturating_add(1);
                Ok(true)
            }
            None => Ok(false),
        }
    }

    /// Asks for two files, one behind the other. The answer is that of the second.
    #[tactic(auto, using(crate::specs::Asked::asking), unfolding(crate::specs::Example::two_files))]
    pub fn two_files<L: Library>(
        &mut self,
        alloc: Global,
        library: &mut L,
        first: &[u8],
        second: &[u8],
    ) -> Result<bool, Stop>
        ensures does { DoesBeside L.outside (L.seen library.old) (L.seen library.new) result self.new (two_files L.outside first.now second.now self.old) }
    {
        self.one_file(alloc, library, first)?;
        self.one_file(alloc, library, second)
    }
}

impl Whole {
    /// Asks for two files on the part, and for one more, between two counts of calls.
    #[tactic(auto, using(crate::specs::Asked::asking), unfolding(crate::specs::Example::counted_files))]
    pub fn counted_files<L: Library>(
        &mut self,
        alloc: Global,
        library: &mut L,
        first: &[u8],
        second: &[u8],
    ) -> Result<bool, Stop>
        ensures does { DoesBeside L.outside (L.seen library.old) (L.seen library.new) result self.new (counted_files L.outside first.now second.now self.old) }
    {
        self.part.two_files(alloc, library, first, second)?;
        self.calls = self.calls.saturating_add(1);
        self.part.one_file(alloc, library, first)
    }
}
