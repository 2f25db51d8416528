//! Numbers as bytes, the highest first.
ghost use Rattle.std.specs.Prelude.{◌≡◌, ◌++◌, ◌≤◌, OnOk};
ghost use Rattle.dvi_out.specs.SpellingFile.{two};
ghost use Rattle.dvi_out.specs.SpellingPage.{four, signed_four, bytes_for, lowest};

use byteorder::{BigEndian, ByteOrder};
use std::alloc::AllocError;

/// Adds a number in two bytes.
pub(crate) fn put_two(out: &mut Vec<u8>, number: u16) -> Result<(), AllocError>
    ensures { OnOk result (out.new.items ≡ out.old.items ++ two number) }
{
    let mut bytes = [0; 2];
    BigEndian::write_u16(&mut bytes, number);
    out.extend_from_slice(&bytes)
}

/// Adds a number in four bytes.
pub(crate) fn put_four(out: &mut Vec<u8>, number: u32) -> Result<(), AllocError>
    ensures { OnOk result (out.new.items ≡ out.old.items ++ four number) }
{
    let mut bytes = [0; 4];
    BigEndian::write_u32(&mut bytes, number);
    out.extend_from_slice(&bytes)
}

/// Adds a signed number in four bytes.
pub(crate) fn put_signed_four(out: &mut Vec<u8>, number: i32) -> Result<(), AllocError>
    ensures { OnOk result (out.new.items ≡ out.old.items ++ signed_four number) }
{
    let mut bytes = [0; 4];
    BigEndian::write_i32(&mut bytes, number);
    out.extend_from_slice(&bytes)
}

/// Adds the lowest bytes of a signed number, at most four.
pub(crate) fn put_lowest(out: &mut Vec<u8>, count: usize, number: i32) -> Result<(), AllocError>
    requires { count ≤ 4 }
    ensures { OnOk result (out.new.items ≡ out.old.items ++ lowest count number) }
{
    let mut bytes = [0; 4];
    BigEndian::write_i32(&mut bytes, number);
    put_each(out, &bytes[4 - count..])
}

/// Adds a few bytes, one after the other.
fn put_each(out: &mut Vec<u8>, bytes: &[u8]) -> Result<(), AllocError>
    ensures { OnOk result (out.new.items ≡ out.old.items ++ bytes.now) }
{
    for i in 0..bytes.len() {
        out.push(bytes[i])?;
    }
    Ok(())
}

/// How many bytes the width of a movement takes: as few as hold it with its sign, at most 4.
pub(crate) fn bytes_for(width: i32) -> usize
    ensures count { result ≡ bytes_for width }
    ensures some { 1 ≤ result }
    ensures few { result ≤ 4 }
{
    let size = width.unsigned_abs();
    if size < 1 << 7 {
        1
    } else if size < 1 << 15 {
        2
    } else if size < 1 << 23 {
        3
    } else {
        4
    }
}
