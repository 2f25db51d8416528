//! A world in memory that never fails but for want of memory, for runs whose files and text are to
//! be looked at afterwards.
ghost use Rattle.std.specs.Prelude.{◌≡◌, ℕ, Some, IfOk, OnOk, OnErr, option_copied, option_map, slice_get};
ghost use Rattle.std.specs.FinMap as tree;
ghost use Rattle.world.specs.Told.{Told};

use crate::counts::counted;
use crate::files;
use crate::files::Files;
use crate::world::{World, WorldError};
use std::alloc::{AllocError, Global};
use std::collections::BTreeMap;
use std::marker::Model;

/// Files and a terminal in memory.
#[derive(Drop)]
pub struct HonestWorld {
    alloc: Global,
    files: Files,
    terminal: Vec<u8>,
    fetched: u64,
}

impl Model for HonestWorld {
    ghost use Rattle.world.specs.Told.{Told, told_code};
    ghost use Rattle.world.specs.Memory.{files_of};

    ghost Value = { Told };

    ghost coded = { told_code };

    ghost view = { λ w. record { files = files_of w.files.entries; terminal = w.terminal.items; fetched = w.fetched } };
}

impl HonestWorld {
    ghost use Rattle.world.specs.Told.{empty_world, after_fetch, with_file, with_added, with_shown, names};

    /// A world without files.
    pub fn new(alloc: Global) -> HonestWorld
        ensures empty { result ≡ empty_world }
        ensures told { ⟦<HonestWorld as World>⟧.told result ≡ Some empty_world }
        ensures read_faults { ⟦<HonestWorld as World>⟧.read_faults result ≡ 0 }
        ensures write_faults { ⟦<HonestWorld as World>⟧.write_faults result ≡ 0 }
    {
        HonestWorld {
            alloc,
            files: BTreeMap::new(alloc),
            terminal: Vec::new(alloc),
            fetched: 0,
        }
    }

    /// Makes a name stand for these bytes.
    pub fn put(&mut self, name: &[u8], bytes: &[u8]) -> Result<(), AllocError>
        ensures ok { OnOk result (self.new ≡ with_file name.now bytes.now self.old) }
        ensures err { OnErr result (self.new ≡ self.old) }
    {
        files::put(&mut self.files, self.alloc, name, bytes)
    }

    /// Adds bytes behind those that a name stands for, or behind none where it is absent.
    pub(crate) fn add(&mut self, name: &[u8], bytes: &[u8]) -> Result<(), AllocError>
        ensures ok { OnOk result (self.new ≡ with_added name.now bytes.now self.old) }
        ensures err { OnErr result (self.new ≡ self.old) }
    {
        files::add(&mut self.files, self.alloc, name, bytes)
    }

    /// Adds bytes to the terminal.
    pub(crate) fn print(&mut self, bytes: &[u8]) -> Result<(), AllocError>
        ensures ok { OnOk result (self.new ≡ with_shown bytes.now self.old) }
        ensures err { OnErr result (self.new ≡ self.old) }
    {
        self.terminal.extend_from_slice(bytes)?;
        Ok(())
    }

    /// A copy of what a name stands for, which is counted as a fetch.
    pub(crate) fn read(&mut self, alloc: Global, name: &[u8]) -> Result<Option<Vec<u8>>, AllocError>
        ensures found { IfOk result (λ found. option_map (λ bytes. bytes.items) found ≡ tree.get self.old.files name.now) }
        ensures ok { OnOk result (self.new ≡ after_fetch self.old) }
        ensures err { OnErr result (self.new ≡ self.old) }
    {
        let found = match files::find(&self.files, name) {
            Some(bytes) => Some(Vec::from_slice(alloc, bytes)?),
            None => None,
        };
        self.count_fetch();
        Ok(found)
    }

    /// One more fetch.
    pub(crate) fn count_fetch(&mut self)
        ensures { self.new ≡ after_fetch self.old }
    {
        self.fetched = counted(self.fetched);
    }

    /// The bytes that a name stands for, None where it is absent.
    pub fn file(&self, name: &[u8]) -> Option<&[u8]>
        ensures { option_copied result ≡ tree.get self.now.files name.now }
    {
        files::find(&self.files, name)
    }

    /// The name with exactly `n` names before it in the order of bytes, None where at most `n` names
    /// are there.
    pub fn name(&self, n: u32) -> Option<&[u8]>
        ensures { option_copied result ≡ slice_get (names self.now) n }
    {
        files::nth_name(&self.files, n as usize)
    }

    /// The bytes that the terminal has shown.
    pub fn shown(&self) -> &[u8]
        ensures { result.now ≡ self.now.terminal }
    {
        &self.terminal
    }
}

impl World for HonestWorld {
    ghost told = { λ w. Some w };

    ghost which = { λ _. 0 };

    ghost read_faults = { λ _. 0 };

    ghost write_faults = { λ _. 0 };

    fn fetch(&mut self, alloc: Global, name: &[u8]) -> Result<Option<Vec<u8>>, WorldError> {
        Ok(self.read(alloc, name)?)
    }

    fn create(&mut self, name: &[u8]) -> Result<(), WorldError> {
        self.put(name, &[])?;
        Ok(())
    }

    fn append(&mut self, name: &[u8], bytes: &[u8]) -> Result<(), WorldError> {
        self.add(name, bytes)?;
        Ok(())
    }

    fn show(&mut self, bytes: &[u8]) -> Result<(), WorldError> {
        self.print(bytes)?;
        Ok(())
    }
}

/// A world that never fails tells all that it holds, and counts no fault. It does nothing when it
/// runs: its clauses are what is proved.
pub fn honest_world_laws()
    ensures told { (t : Told) → ⟦<HonestWorld as World>⟧.told t ≡ Some t }
    ensures read_faults { (t : Told) → ⟦<HonestWorld as World>⟧.read_faults t ≡ 0 }
    ensures write_faults { (t : Told) → ⟦<HonestWorld as World>⟧.write_faults t ≡ 0 }
{}
