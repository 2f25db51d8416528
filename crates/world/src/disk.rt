//! What a world of a folder asks of the system.
use std::fs::OpenOptions;
use std::io;
use std::io::{Print, Read, Write};
use std::rt::Runtime;

/// Where bytes are written to.
#[derive(Drop)]
pub enum Outlet<F> {
    /// Standard output.
    Terminal,
    /// An open file.
    File(F),
}

/// A system that is asked to open and read files, and to write to them and to standard output. It
/// offers nothing else, so a world over it can do nothing else.
///
/// `did` is the ghost trace, a call at a time: a state of the system, a call with its answer, and
/// the state afterwards. Each call says which one it was, and nothing else relates two states. So a
/// contract above can name the exact list of calls that were made. Nothing says which answers there
/// are: that is the system's.
pub trait Disk: Drop {
    ghost use Rattle.std.specs.Prelude.{ℕ, List, Option};
    ghost use Rattle.std.specs.Io.{ReadsAtMost, WritesAtMost};
    ghost use Rattle.std.specs.Io.KnownBytes.{ReadConsumes, WriteAppends};
    ghost use Rattle.world.specs.InTurn.{given};
    ghost use Rattle.world.specs.Trace.{Call, SameKind, opened, read_from, wrote_to, contents_of};

    /// An open file.
    type File: Drop;

    ghost did: { Self → Call Self.File → Self → Type 0 };

    /// The bytes that are still to be read from a file, where they are known.
    ghost remaining: { Self.File → Option (List ℕ) };

    /// The bytes of a file that is written to, where they are known.
    ghost contents: { Self.File → Option (List ℕ) };

    /// Opens a file with these options at this path.
    fn open_at(&mut self, options: &OpenOptions, path: &str) -> io::Result<Self::File>
        ensures { did self.old (opened options.now path.now result) self.new };

    /// Reads a portion of a file, nothing at its end.
    fn read_part(&mut self, file: &mut Self::File, buffer: &mut [u8]) -> io::Result<usize>
        ensures answered { did self.old (read_from file.old (given result buffer.new) file.new) self.new }
        ensures bound { ReadsAtMost result buffer.new }
        ensures bytes { ReadConsumes (remaining file.old) (remaining file.new) result buffer.new };

    /// Writes a portion of the bytes, and answers how many of them.
    fn write_part(&mut self, outlet: &mut Outlet<Self::File>, bytes: &[u8]) -> io::Result<usize>
        ensures answered { did self.old (wrote_to outlet.old bytes.now result outlet.new) self.new }
        ensures stays { SameKind outlet.old outlet.new }
        ensures bound { WritesAtMost result bytes.now }
        ensures bytes { WriteAppends (contents_of contents outlet.old) (contents_of contents outlet.new) result bytes.now };
}

impl<R: Runtime> Disk for R {
    type File = R::File;

    ghost did = { λ _ _ _. Unit {0} };

    ghost remaining = { λ file. R.File.remaining file };

    ghost contents = { λ file. R.File.contents file };

    fn open_at(&mut self, options: &OpenOptions, path: &str) -> io::Result<R::File> {
        options.open(&*self, path)
    }

    fn read_part(&mut self, file: &mut R::File, buffer: &mut [u8]) -> io::Result<usize> {
        file.read(buffer)
    }

    fn write_part(&mut self, outlet: &mut Outlet<R::File>, bytes: &[u8]) -> io::Result<usize> {
        match outlet {
            Outlet::Terminal => self.write_some(bytes),
            Outlet::File(file) => file.write(bytes),
        }
    }
}
