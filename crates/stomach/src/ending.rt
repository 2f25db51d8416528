//! How a run ends, and what is shown then (`tex.web` 93 to 95, 642 and 1333 to 1335).
ghost use Rattle.std.specs.Prelude.{◌≡◌, OnOk, IfOk};
ghost use Rattle.stomach.specs.Ending.{reason_of, exit_of, ended_well, ended_early};

use crate::report;
use crate::state::State;
use std::alloc::{AllocError, Global};
use tokens::Stop;
use world::Printer;

/// How a run ended. The number is the status of the program.
#[derive(Clone, Copy, Debug, PartialEq, Eq)]
pub enum Exit {
    /// `\end` was met, and there was no trouble.
    Done = 0,
    /// The document is in trouble.
    Trouble = 1,
    /// The command line isn't one of this program's.
    Usage = 2,
    /// A counted quantity would have passed its limit.
    Capacity = 3,
    /// The steps were used up.
    Spent = 4,
    /// A file could not be read.
    ReadFault = 5,
    /// A file or the terminal could not be written.
    WriteFault = 6,
    OutOfMemory = 7,
}

impl State {
    /// Shows the end of a run at `\end`.
    pub fn end_well(&mut self) -> Result<(), AllocError>
        ensures ok { OnOk result (self.new.printer ≡ ended_well self.old) }
        ensures rest { self.new ≡ record self.old { printer = self.new.printer } }
    {
        self.pending.close_files(&mut self.printer)?;
        report::show_no_pages(&mut self.printer)
    }

    /// Shows the early end of a run. Where memory ran out, it shows nothing, and is refused.
    pub fn end_early(&mut self, alloc: Global, stop: &Stop) -> Result<(), AllocError>
        ensures ok { OnOk result (self.new.printer ≡ ended_early stop.now self.old) }
        ensures rest { self.new ≡ record self.old { printer = self.new.printer } }
    {
        if let Stop::OutOfMemory = stop {
            return Err(AllocError);
        }
        let reason = reason_of(alloc, stop, self.asked.bytes())?;
        report::show_reason(&mut self.printer, &reason)?;
        report::show_no_pages(&mut self.printer)
    }
}

/// What is told of an early end.
fn reason_of(alloc: Global, stop: &Stop, asked: &[u8]) -> Result<Vec<u8>, AllocError>
    ensures value { IfOk result (λ reason. reason.items ≡ reason_of stop.now asked.now) }
{
    match stop {
        Stop::Trouble(kind) => kind.text(alloc),
        Stop::Capacity(cap) => {
            let mut reason = b"TeX capacity exceeded, sorry [".to_vec(alloc)?;
            reason.extend_from_slice(cap.text())?;
            reason.push(b']')?;
            Ok(reason)
        }
        Stop::Spent => b"Step budget spent".to_vec(alloc),
        Stop::ReadFault => {
            let mut reason = b"Read fault: ".to_vec(alloc)?;
            reason.extend_from_slice(asked)?;
            Ok(reason)
        }
        Stop::WriteFault => Ok(Vec::new(alloc)),
        Stop::OutOfMemory => Ok(Vec::new(alloc)),
    }
}

/// The exit of an early end.
pub fn exit_of(stop: &Stop) -> Exit
    ensures value { result ≡ exit_of stop.now }
{
    match stop {
        Stop::Trouble(_) => Exit::Trouble,
        Stop::Capacity(_) => Exit::Capacity,
        Stop::Spent => Exit::Spent,
        Stop::ReadFault => Exit::ReadFault,
        Stop::WriteFault => Exit::WriteFault,
        Stop::OutOfMemory => Exit::OutOfMemory,
    }
}
