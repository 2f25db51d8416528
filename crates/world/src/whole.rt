//! Whole files: all that a file has left is read, and all bytes are handed to a file or to the
//! terminal.
ghost use Rattle.std.specs.Prelude.{◌≡◌, ℕ, IfOk, IfSome, OnOk, OnErr, List, take};
ghost use Rattle.std.specs.Io.KnownBytes.{Appends, Consumes, IsAtEnd};
ghost use Rattle.std.specs.IoError.{error_kind};
ghost use Rattle.world.specs.Asked.{bytes_read};
ghost use Rattle.world.specs.InTurn.{ReadsAll, WritesAll};
ghost use Rattle.world.specs.Refusal.{refusal_of};
ghost use Rattle.world.specs.Trace.{Call, Did, contents_of};

use crate::disk::{Disk, Outlet};
use crate::world::WorldError;
use std::alloc::Global;
use std::io::{Error, ErrorKind};

/// How often a file is read, or written to, before it is given up.
const TURNS: u64 = 1 << 40;

/// How many bytes are read at a time.
const CHUNK: usize = 8192;

/// The world's refusal for an error of the system.
pub fn refusal(error: Error) -> WorldError
    ensures { result ≡ refusal_of (error_kind error) }
{
    match error.kind() {
        ErrorKind::OutOfMemory => WorldError::OutOfMemory,
        _ => WorldError::Failed,
    }
}

/// Reads a file until a read gives nothing. An interrupted read is made again.
pub fn read_to_end<D: Disk>(
    disk: &mut D,
    alloc: Global,
    file: &mut D::File,
) -> Result<Vec<u8>, WorldError>
    ensures calls { (calls : List (Call D.File)) × Did D.did disk.old calls disk.new × ReadsAll file.old calls (bytes_read result) }
    ensures bytes { IfOk result (λ v. IfSome (D.remaining file.old) (λ bytes. v.items ≡ bytes)) }
    ensures end { OnOk result (IsAtEnd (D.remaining file.new)) }
    ensures refused { OnErr result ((read : List ℕ) × Consumes (D.remaining file.old) (D.remaining file.new) read) }
{
    let mut bytes = Vec::new(alloc);
    let mut chunk = [0u8; CHUNK];
    for _ in 0..TURNS {
        match disk.read_part(file, &mut chunk) {
            Ok(0) => return Ok(bytes),
            Ok(count) => bytes.extend_from_slice(&chunk[..count])?,
            Err(error) => match error.kind() {
                ErrorKind::Interrupted => {}
                _ => return Err(refusal(error)),
            },
        }
    }
    Err(WorldError::Failed)
}

/// Hands over all bytes, in order. An interrupted write is made again. After a refusal the outlet
/// has a first part of them.
pub fn write_all<D: Disk>(
    disk: &mut D,
    outlet: &mut Outlet<D::File>,
    bytes: &[u8],
) -> Result<(), WorldError>
    ensures calls { (calls : List (Call D.File)) × Did D.did disk.old calls disk.new × WritesAll outlet.old bytes.now calls result }
    ensures taken { OnOk result (Appends (contents_of D.contents outlet.old) (contents_of D.contents outlet.new) bytes.now) }
    ensures refused { OnErr result ((n : ℕ) × Appends (contents_of D.contents outlet.old) (contents_of D.contents outlet.new) (take n bytes.now)) }
{
    let mut rest = bytes;
    for _ in 0..TURNS {
        if rest.is_empty() {
            return Ok(());
        }
        match disk.write_part(outlet, rest) {
            Ok(0) => return Err(WorldError::Failed),
            Ok(count) => rest = &rest[count..],
            Err(error) => match error.kind() {
                ErrorKind::Interrupted => {}
                _ => return Err(refusal(error)),
            },
        }
    }
    if rest.is_empty() {
        Ok(())
    } else {
        Err(WorldError::Failed)
    }
}
