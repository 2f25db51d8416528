//! The words of a TFM file as four bytes each, and its shorter numbers; the highest byte comes first
//! (tex.web sections 112, 540 and 564).

ghost use Rattle.std.specs.Prelude.{◌≡◌, ◌+◌, ◌*◌, ◌<◌, ◌≤◌, ◌^◌, length};
ghost use Rattle.tfm.specs.FontMetricsBytes.{byte_at, half_at, quarters_at};

use byteorder::{BigEndian, ByteOrder};

/// Four bytes of a word, in the order of the file.
#[derive(Clone, Copy, Debug, PartialEq, Eq)]
pub struct Quarters {
    pub b0: u8,
    pub b1: u8,
    pub b2: u8,
    pub b3: u8,
}

/// The byte at a place; 0 past the end.
pub(crate) fn byte(bytes: &[u8], place: usize) -> u8
    ensures { result ≡ byte_at bytes.now place }
{
    bytes.get(place).copied().unwrap_or(0)
}

/// The number in two bytes.
pub(crate) fn half(bytes: &[u8], place: usize) -> u16
    requires { place + 2 ≤ length bytes.now }
    ensures { result ≡ half_at bytes.now place }
{
    BigEndian::read_u16(&bytes[place..])
}

/// The word at a place; a byte past the end is 0.
#[tactic(auto, unfolding(crate::specs::FontMetricsBytes::quarters_at))]
pub(crate) fn word(bytes: &[u8], place: usize) -> Quarters
    requires { place < 2 ^ 63 }
    ensures { result ≡ quarters_at bytes.now place }
{
    Quarters {
        b0: byte(bytes, place),
        b1: byte(bytes, place + 1),
        b2: byte(bytes, place + 2),
        b3: byte(bytes, place + 3),
    }
}

/// The place of an entry in a table of words.
pub(crate) fn entry(table: usize, index: u32) -> usize
    requires { table < 2 ^ 32 }
    ensures { result ≡ table + 4 * index }
{
    table + 4 * index as usize
}

/// The place of an entry as an error tells it.
pub(crate) fn place(table: usize, index: u32) -> u32
    requires table { table < 2 ^ 30 }
    requires index { index < 2 ^ 16 }
    ensures { result ≡ table + 4 * index }
{
    entry(table, index) as u32
}
