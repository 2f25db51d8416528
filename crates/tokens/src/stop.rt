//! The ways in which a command can end the run (`tex.web`, part 6, on error handling).
ghost use Rattle.std.specs.Prelude.{◌≡◌, ◌++◌, Some, codes, decimal};
ghost use Rattle.tokens.specs.Stop.{stop_number};
ghost use Rattle.tokens.specs.declared.stop.Stop.TheVariants.{OutOfMemory};

use crate::cap::Cap;
use crate::kind::Kind;
use std::alloc::{AllocError, AllocFailed};
use std::error::Error;
use std::fmt;

/// Why a call did not do its work.
#[derive(Debug, Drop)]
pub enum Stop {
    /// The document is at fault.
    Trouble(Kind),
    /// A count would pass its limit.
    Capacity(Cap),
    /// All steps that were allowed are used.
    Spent,
    /// A file could not be read, though it may exist.
    ReadFault,
    /// A file or the terminal could not be written.
    WriteFault,
    /// There was no memory. No contract says when this comes.
    OutOfMemory,
}

impl Stop {
    /// The number of the answer, 1 to 6, in the order of the variants.
    pub fn number(&self) -> u8
        ensures { result ≡ stop_number self.now }
    {
        match self {
            Stop::Trouble(_) => 1,
            Stop::Capacity(_) => 2,
            Stop::Spent => 3,
            Stop::ReadFault => 4,
            Stop::WriteFault => 5,
            Stop::OutOfMemory => 6,
        }
    }
}

impl fmt::Display for Stop {
    ghost output = { λ stop. Some (codes "stop " ++ decimal (stop_number stop)) };

    fn fmt<W: fmt::Write>(&self, f: &mut fmt::Formatter<W>) -> fmt::Result {
        write!(f, "stop {}", self.number())
    }
}

impl Error for Stop {}

impl From<AllocError> for Stop {
    ghost from_gives = { λ _ stop. stop ≡ OutOfMemory };

    fn from(_error: AllocError) -> Stop {
        Stop::OutOfMemory
    }
}

impl<T: Drop> From<AllocFailed<T>> for Stop {
    ghost from_gives = { λ _ stop. stop ≡ OutOfMemory };

    fn from(_error: AllocFailed<T>) -> Stop {
        Stop::OutOfMemory
    }
}
