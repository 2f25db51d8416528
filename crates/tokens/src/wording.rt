//! A message in up to four parts: fixed words with the texts that fill its open places.
ghost use Rattle.std.specs.Prelude.{◌≡◌, ◌++◌, IfOk};
ghost use Rattle.tokens.specs.Wording.{wording_text};

use std::alloc::{AllocError, Global};

/// The parts of a message, one behind the other.
#[derive(Clone, Copy)]
pub struct Wording<'a> {
    front: &'a [u8],
    first: &'a [u8],
    between: &'a [u8],
    second: &'a [u8],
}

/// A message without an open place.
pub fn fixed(front: &[u8]) -> Wording<'_>
    ensures { wording_text result ≡ front.now }
{
    Wording {
        front,
        first: b"",
        between: b"",
        second: b"",
    }
}

/// A message that ends in its open place.
pub fn ending<'a>(front: &'a [u8], word: &'a [u8]) -> Wording<'a>
    ensures { wording_text result ≡ front.now ++ word.now }
{
    Wording {
        front,
        first: word,
        between: b"",
        second: b"",
    }
}

/// A message with one open place and words behind it.
pub fn around<'a>(front: &'a [u8], word: &'a [u8], back: &'a [u8]) -> Wording<'a>
    ensures { wording_text result ≡ front.now ++ word.now ++ back.now }
{
    Wording {
        front,
        first: word,
        between: back,
        second: b"",
    }
}

/// A message with two open places, the second at its end.
pub fn pair<'a>(
    front: &'a [u8],
    first: &'a [u8],
    between: &'a [u8],
    second: &'a [u8],
) -> Wording<'a>
    ensures { wording_text result ≡ front.now ++ first.now ++ between.now ++ second.now }
{
    Wording {
        front,
        first,
        between,
        second,
    }
}

/// The whole message.
pub fn joined(wording: &Wording, alloc: Global) -> Result<Vec<u8>, AllocError>
    ensures { IfOk result (λ bytes. bytes.items ≡ wording_text wording.now) }
{
    let mut bytes = Vec::new(alloc);
    bytes.extend_from_slice(wording.front)?;
    bytes.extend_from_slice(wording.first)?;
    bytes.extend_from_slice(wording.between)?;
    bytes.extend_from_slice(wording.second)?;
    Ok(bytes)
}
