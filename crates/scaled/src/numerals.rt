//! Roman numerals: `tex.web`, section 69; The TeXbook, chapter 20.

ghost use Rattle.std.specs.Prelude.{◌≡◌, ◌<◌, ◌/◌, ◌%◌, ◌++◌, ℕ, map, All, IfOk, OnOk};
ghost use Rattle.scaled.specs.ArithmeticRoman.{by_numerals, repeated, roman_of};
ghost use Rattle.scaled.specs.Numeral.{entry_of, letters_of, value_of};

use std::alloc::{AllocError, Global};

// A value with a numeral of its own: a letter, behind the letter that is taken from it, if there is one.
struct Numeral {
    value: u32,
    before: Option<u8>,
    letter: u8,
}

const NUMERALS: [Numeral; 13] = [
    Numeral {
        value: 1000,
        before: None,
        letter: b'm',
    },
    Numeral {
        value: 900,
        before: Some(b'c'),
        letter: b'm',
    },
    Numeral {
        value: 500,
        before: None,
        letter: b'd',
    },
    Numeral {
        value: 400,
        before: Some(b'c'),
        letter: b'd',
    },
    Numeral {
        value: 100,
        before: None,
        letter: b'c',
    },
    Numeral {
        value: 90,
        before: Some(b'x'),
        letter: b'c',
    },
    Numeral {
        value: 50,
        before: None,
        letter: b'l',
    },
    Numeral {
        value: 40,
        before: Some(b'x'),
        letter: b'l',
    },
    Numeral {
        value: 10,
        before: None,
        letter: b'x',
    },
    Numeral {
        value: 9,
        before: Some(b'i'),
        letter: b'x',
    },
    Numeral {
        value: 5,
        before: None,
        letter: b'v',
    },
    Numeral {
        value: 4,
        before: Some(b'i'),
        letter: b'v',
    },
    Numeral {
        value: 1,
        before: None,
        letter: b'i',
    },
];

/// `n` in lower-case roman numerals, as many `m` as there are thousands; nothing where `n` isn't
/// positive.
pub fn roman(alloc: Global, n: i32) -> Result<Vec<u8>, AllocError>
    ensures text { IfOk result (λ v. v.items ≡ roman_of n) }
{
    let mut text = Vec::new(alloc);
    if n > 0 {
        push_numerals(&mut text, n.unsigned_abs(), &NUMERALS)?;
    }
    Ok(text)
}

// Appends a number by a table of numerals.
fn push_numerals(text: &mut Vec<u8>, number: u32, table: &[Numeral]) -> Result<(), AllocError>
    requires values { All (λ n. 0 < value_of n) table.now }
    ensures text { OnOk result (text.new.items ≡ text.old.items ++ by_numerals (map entry_of table.now) number) }
{
    let mut left = number;
    for numeral in table {
        push_repeated(text, numeral, left / numeral.value)?;
        left %= numeral.value;
    }
    Ok(())
}

// Appends a numeral so many times.
fn push_repeated(text: &mut Vec<u8>, numeral: &Numeral, times: u32) -> Result<(), AllocError>
    ensures text { OnOk result (text.new.items ≡ text.old.items ++ repeated times (letters_of numeral.now)) }
{
    for _ in 0..times {
        push_numeral(text, numeral)?;
    }
    Ok(())
}

// Appends a numeral.
fn push_numeral(text: &mut Vec<u8>, numeral: &Numeral) -> Result<(), AllocError>
    ensures text { OnOk result (text.new.items ≡ text.old.items ++ letters_of numeral.now) }
{
    if let Some(before) = numeral.before {
        text.push(before)?;
    }
    text.push(numeral.letter)?;
    Ok(())
}
