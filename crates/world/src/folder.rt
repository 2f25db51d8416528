//! The world of a real run: the files of the current folder, and standard output as the terminal.
ghost use Rattle.std.specs.Prelude.{◌≡◌, ℕ, [], ◌∷◌, List, None, Ok, Result, MatchResult};
ghost use Rattle.std.specs.declared.io.Error.{Error};
ghost use Rattle.world.specs.Asked.{to_read, to_create, to_append, done_by, FetchedBy, AppendedBy};
ghost use Rattle.world.specs.Calls.{Fetches, Creates, Appends, Shows, Counts};
ghost use Rattle.world.specs.InTurn.{WritesAll};
ghost use Rattle.world.specs.Name.{IsGoodName};
ghost use Rattle.world.specs.Trace.{Call, Did, opened};
ghost use Rattle.world.specs.declared.disk.Outlet.TheVariants.{Terminal};

use crate::disk::{Disk, Outlet};
use crate::whole::{read_to_end, refusal, write_all};
use crate::world::{World, WorldError};
use std::alloc::Global;
use std::fs::OpenOptions;
use std::io::ErrorKind;
use std::str;

/// Files under the current folder and standard output. It tells nothing of them, since no contract
/// can say what a disk holds; each call says exactly what it asked of the system, and what it made
/// of the answers. Its two counters stay at their last value, where Failed may come without a rise.
#[derive(Drop)]
pub struct DirWorld<R: Disk> {
    system: R,
    read_faults: u64,
    write_faults: u64,
}

impl<R: Disk> DirWorld<R> {
    /// The world of the current folder, which has met no fault yet. Nothing is asked of the system.
    pub fn new(rt: R, _alloc: Global) -> DirWorld<R>
        ensures asked { result.system ≡ rt }
        ensures told { ⟦<DirWorld<R> as World>⟧.told result ≡ None }
        ensures read_faults { ⟦<DirWorld<R> as World>⟧.read_faults result ≡ 0 }
        ensures write_faults { ⟦<DirWorld<R> as World>⟧.write_faults result ≡ 0 }
    {
        DirWorld {
            system: rt,
            read_faults: 0,
            write_faults: 0,
        }
    }
}

impl<R: Disk> World for DirWorld<R> {
    ghost told = { λ _. None };

    ghost which = { λ _. 0 };

    ghost read_faults = { λ w. w.read_faults };

    ghost write_faults = { λ w. w.write_faults };

    /// A file that isn't there, or whose path leads through something that is no folder, is absent.
    fn fetch(&mut self, alloc: Global, name: &[u8]) -> Result<Option<Vec<u8>>, WorldError>
        requires good { IsGoodName name.now }
        ensures answer { Fetches name.now result None None }
        ensures read_fault { Counts None result self.old.read_faults self.new.read_faults }
        ensures write_fault { self.new.write_faults ≡ self.old.write_faults }
        ensures asked { (answer : Result R.File Error) × (calls : List (Call R.File)) × Did R.did self.old.system (opened to_read name.now answer ∷ calls) self.new.system × FetchedBy answer calls result }
    {
        let read = read_file(&mut self.system, alloc, name);
        count_fault(&mut self.read_faults, read)
    }

    fn create(&mut self, name: &[u8]) -> Result<(), WorldError>
        requires good { IsGoodName name.now }
        ensures answer { Creates name.now result None None }
        ensures read_fault { self.new.read_faults ≡ self.old.read_faults }
        ensures write_fault { Counts None result self.old.write_faults self.new.write_faults }
        ensures asked { (answer : Result R.File Error) × Did R.did self.old.system (opened to_create name.now answer ∷ []) self.new.system × (result ≡ done_by answer) }
    {
        let created = create_file(&mut self.system, name);
        count_fault(&mut self.write_faults, created)
    }

    fn append(&mut self, name: &[u8], bytes: &[u8]) -> Result<(), WorldError>
        requires good { IsGoodName name.now }
        ensures answer { Appends name.now bytes.now result None None }
        ensures read_fault { self.new.read_faults ≡ self.old.read_faults }
        ensures write_fault { Counts None result self.old.write_faults self.new.write_faults }
        ensures asked { (answer : Result R.File Error) × (calls : List (Call R.File)) × Did R.did self.old.system (opened to_append name.now answer ∷ calls) self.new.system × AppendedBy answer bytes.now calls result }
    {
        let added = append_file(&mut self.system, name, bytes);
        count_fault(&mut self.write_faults, added)
    }

    fn show(&mut self, bytes: &[u8]) -> Result<(), WorldError>
        ensures answer { Shows bytes.now result None None }
        ensures read_fault { self.new.read_faults ≡ self.old.read_faults }
        ensures write_fault { Counts None result self.old.write_faults self.new.write_faults }
        ensures asked { (calls : List (Call R.File)) × Did R.did self.old.system calls self.new.system × WritesAll Terminal bytes.now calls result }
    {
        let shown = write_all(&mut self.system, &mut Outlet::Terminal, bytes);
        count_fault(&mut self.write_faults, shown)
    }
}

/// Hands an answer on, and counts it where it is Failed.
fn count_fault<T>(faults: &mut u64, answer: Result<T, WorldError>) -> Result<T, WorldError>
    ensures same { result ≡ answer }
    ensures counted { Counts None answer faults.old faults.new }
{
    if let Err(WorldError::Failed) = &answer {
        *faults = faults.saturating_add(1);
    }
    answer
}

/// A good name as the path of a file.
#[tactic(auto, using(crate::proofs::Ascii::good_name_is_text))]
fn path(name: &[u8]) -> Result<&str, WorldError>
    requires good { IsGoodName name.now }
    ensures { MatchResult result (λ path. path.now ≡ name.now) (λ _. ⊥) }
{
    str::from_utf8(name).map_err(|_| WorldError::Failed)
}

fn read_file<D: Disk>(
    disk: &mut D,
    alloc: Global,
    name: &[u8],
) -> Result<Option<Vec<u8>>, WorldError>
    requires good { IsGoodName name.now }
    ensures asked { (answer : Result D.File Error) × (calls : List (Call D.File)) × Did D.did disk.old (opened to_read name.now answer ∷ calls) disk.new × FetchedBy answer calls result }
{
    match disk.open_at(OpenOptions::new().read(true), path(name)?) {
        Ok(mut file) => Ok(Some(read_to_end(disk, alloc, &mut file)?)),
        Err(error) => match error.kind() {
            ErrorKind::NotFound | ErrorKind::NotADirectory => Ok(None),
            _ => Err(refusal(error)),
        },
    }
}

fn create_file<D: Disk>(disk: &mut D, name: &[u8]) -> Result<(), WorldError>
    requires good { IsGoodName name.now }
    ensures asked { (answer : Result D.File Error) × Did D.did disk.old (opened to_create name.now answer ∷ []) disk.new × (result ≡ done_by answer) }
{
    match disk.open_at(
        OpenOptions::new().write(true).create(true).truncate(true),
        path(name)?,
    ) {
        Ok(_file) => Ok(()),
        Err(error) => Err(refusal(error)),
    }
}

fn append_file<D: Disk>(disk: &mut D, name: &[u8], bytes: &[u8]) -> Result<(), WorldError>
    requires good { IsGoodName name.now }
    ensures asked { (answer : Result D.File Error) × (calls : List (Call D.File)) × Did D.did disk.old (opened to_append name.now answer ∷ calls) disk.new × AppendedBy answer bytes.now calls result }
{
    match disk.open_at(OpenOptions::new().append(true).create(true), path(name)?) {
        Ok(file) => write_all(disk, &mut Outlet::File(file), bytes),
        Err(error) => Err(refusal(error)),
    }
}
