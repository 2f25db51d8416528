//! What a token is to a text that is passed over: tokens aren't expanded there, but conditions that stand
//! in it have to be told apart by their beginnings and ends (`tex.web` 487 to 489 and 494).
ghost use Rattle.std.specs.Prelude.{◌≡◌};
ghost use Rattle.conditionals.specs.Word.{word_of, word_of_code, is_opener};

use tokens::{Meaning, codes};

/// A token of a text that is passed over.
#[derive(Clone, Copy, Debug, PartialEq, Eq)]
pub enum Word {
    /// The beginning of a condition, `\ifx` or any other.
    Opener,
    Or,
    Else,
    Fi,
    Other,
}

/// What a token of this meaning is.
pub fn word_of(meaning: &Meaning) -> Word
    ensures { result ≡ word_of meaning.now }
{
    match meaning {
        Meaning::Primitive(code) => word_of_code(*code),
        _ => Word::Other,
    }
}

fn word_of_code(code: u16) -> Word
    ensures { result ≡ word_of_code code }
{
    if code == codes::OR {
        Word::Or
    } else if code == codes::ELSE {
        Word::Else
    } else if code == codes::FI {
        Word::Fi
    } else if is_opener(code) {
        Word::Opener
    } else {
        Word::Other
    }
}

/// Whether a primitive begins a condition: the first table has its conditions in one run, and so has the
/// table of names that only e-TeX has.
fn is_opener(code: u16) -> bool
    ensures { result ≡ is_opener code }
{
    (code >= codes::IF && code <= codes::IFCASE)
        || (code >= codes::IFDEFINED && code <= codes::IFFONTCHAR)
}
