//! The world that a run of TeX reads and writes: named files and a terminal (tex.web parts 3 and
//! 29 leave them to the system).
ghost use Rattle.std.specs.Prelude.{◌≡◌, ℕ, Option};
ghost use Rattle.std.specs.List.{list_all};
ghost use Rattle.world.specs.Name.{IsGoodName, is_good, is_name_byte, has_two_dots};
ghost use Rattle.world.specs.declared.world.WorldError.TheVariants.{OutOfMemory};

use std::alloc::{AllocError, AllocFailed, Global};
use thiserror::Error;

/// Why a call on a world was refused.
#[derive(Clone, Copy, Debug, PartialEq, Eq, Error)]
pub enum WorldError {
    /// The system failed to read or write. The world counts it.
    #[error("reading or writing failed")]
    Failed,
    /// An allocation was refused.
    #[error("out of memory")]
    OutOfMemory,
}

impl From<AllocError> for WorldError {
    ghost from_gives = { λ _ e. e ≡ OutOfMemory };

    fn from(_e: AllocError) -> WorldError {
        WorldError::OutOfMemory
    }
}

impl<T: Drop> From<AllocFailed<T>> for WorldError {
    ghost from_gives = { λ _ e. e ≡ OutOfMemory };

    fn from(_e: AllocFailed<T>) -> WorldError {
        WorldError::OutOfMemory
    }
}

/// Files by name and a terminal. A name is good where `is_good_name` says so, and no other may be
/// asked for.
pub trait World {
    ghost use Rattle.world.specs.Told.{Told};
    ghost use Rattle.world.specs.Calls.{Fetches, Creates, Appends, Shows, Counts};

    /// The files, the terminal's bytes and the number of fetches, where the world tells them.
    ghost told: { Self → Option Told };

    /// The world's name in proofs, which no call changes. Behind a `&mut` it is the reference's
    /// own, so that whoever lent its world knows that this one was asked.
    ghost which: { Self → ℕ };

    /// How many fetches failed. It never falls.
    ghost read_faults: { Self → ℕ };

    /// How many of the other calls failed. It never falls.
    ghost write_faults: { Self → ℕ };

    /// The bytes of a whole file, None where there is no file of this name.
    fn fetch(&mut self, alloc: Global, name: &[u8]) -> Result<Option<Vec<u8>>, WorldError>
        requires good { IsGoodName name.now }
        ensures answer { Fetches name.now result (told self.old) (told self.new) }
        ensures read_fault { Counts (told self.old) result (read_faults self.old) (read_faults self.new) }
        ensures write_fault { write_faults self.new ≡ write_faults self.old }
        ensures same_world { which self.new ≡ which self.old };

    /// Makes the name stand for a file without bytes, whatever it stood for.
    fn create(&mut self, name: &[u8]) -> Result<(), WorldError>
        requires good { IsGoodName name.now }
        ensures answer { Creates name.now result (told self.old) (told self.new) }
        ensures read_fault { read_faults self.new ≡ read_faults self.old }
        ensures write_fault { Counts (told self.old) result (write_faults self.old) (write_faults self.new) }
        ensures same_world { which self.new ≡ which self.old };

    /// Adds bytes at the end of a file, which is made where it is absent. After a refusal a first
    /// part of them may stand there.
    fn append(&mut self, name: &[u8], bytes: &[u8]) -> Result<(), WorldError>
        requires good { IsGoodName name.now }
        ensures answer { Appends name.now bytes.now result (told self.old) (told self.new) }
        ensures read_fault { read_faults self.new ≡ read_faults self.old }
        ensures write_fault { Counts (told self.old) result (write_faults self.old) (write_faults self.new) }
        ensures same_world { which self.new ≡ which self.old };

    /// Writes bytes to the terminal, at once. After a refusal a first part of them may stand there.
    fn show(&mut self, bytes: &[u8]) -> Result<(), WorldError>
        ensures answer { Shows bytes.now result (told self.old) (told self.new) }
        ensures read_fault { read_faults self.new ≡ read_faults self.old }
        ensures write_fault { Counts (told self.old) result (write_faults self.old) (write_faults self.new) }
        ensures same_world { which self.new ≡ which self.old };
}

/// A borrowed world. What is done to it is done to the world behind the reference.
impl<W: World> World for &mut W {
    ghost told = { λ world. W.told world.now };

    ghost which = { λ world. world.ghost_name };

    ghost read_faults = { λ world. W.read_faults world.now };

    ghost write_faults = { λ world. W.write_faults world.now };

    fn fetch(&mut self, alloc: Global, name: &[u8]) -> Result<Option<Vec<u8>>, WorldError> {
        (**self).fetch(alloc, name)
    }

    fn create(&mut self, name: &[u8]) -> Result<(), WorldError> {
        (**self).create(name)
    }

    fn append(&mut self, name: &[u8], bytes: &[u8]) -> Result<(), WorldError> {
        (**self).append(name, bytes)
    }

    fn show(&mut self, bytes: &[u8]) -> Result<(), WorldError> {
        (**self).show(bytes)
    }
}

/// The longest good name, in bytes.
const MAX_NAME: usize = 200;

/// Whether a name may be asked of a world: 1 to 200 bytes of printable ASCII without space, no `/`
/// at the beginning, and nowhere `..`, so that it stays in the current folder.
pub fn is_good_name(name: &[u8]) -> bool
    ensures { result ≡ is_good name.now }
{
    !name.is_empty()
        && name.len() <= MAX_NAME
        && all_name_bytes(name)
        && name[0] != b'/'
        && !holds_two_dots(name)
}

fn all_name_bytes(name: &[u8]) -> bool
    ensures { result ≡ list_all is_name_byte name.now }
{
    name.iter().all(|byte| *byte >= 33 && *byte <= 126)
}

fn holds_two_dots(name: &[u8]) -> bool
    ensures { result ≡ has_two_dots name.now }
{
    let mut after_dot = false;
    for byte in name {
        if *byte == b'.' && after_dot {
            return true;
        }
        after_dot = *byte == b'.';
    }
    false
}
