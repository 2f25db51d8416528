//! The primitives of TeX and of e-TeX: their names, in two tables, and what they mean at the start (The
//! TeXbook, appendix I; the e-TeX manual; `tex.web`, the sections that "put each of TeX's primitives
//! into the hash table"). The second table has the names that only e-TeX has.
ghost use Rattle.std.specs.Prelude.{◌≡◌, ◌<◌, [], slice_index_or, IfOk};
ghost use Rattle.tokens.specs.Names.{name_at, place_of};
ghost use Rattle.tokens.specs.Primitives.{primitive_names, primitive_meaning, start_meaning};

use crate::codes;
use crate::meaning::Meaning;
use crate::names::NameTable;
use crate::primitive_names::NAMES;
use crate::token::NameId;
use std::alloc::{AllocError, Global};

/// How many names the first table has.
pub const COMPATIBILITY_COUNT: u16 = 325;

/// How many names both tables have.
pub const PRIMITIVE_COUNT: u16 = 391;

/// The name of the primitive with this code, which is its place in the two tables, counted from 0.
pub fn primitive_name(code: u16) -> &'static str
    requires { code < PRIMITIVE_COUNT }
    ensures { result.now ≡ slice_index_or primitive_names code [] }
{
    NAMES[code as usize]
}

/// The same name as bytes. A code that is no primitive's has the empty name.
pub fn name_bytes(code: u16) -> &'static [u8]
    ensures { result.now ≡ name_at primitive_names code }
{
    if code < PRIMITIVE_COUNT {
        primitive_name(code).as_bytes()
    } else {
        b""
    }
}

/// The code of the primitive with this name.
pub fn primitive_code(name: &[u8]) -> Option<u16>
    ensures { result ≡ place_of name.now primitive_names }
{
    for code in 0..PRIMITIVE_COUNT {
        if primitive_name(code).as_bytes() == name {
            return Some(code);
        }
    }
    None
}

/// What the primitive with this code means: the empty font for `\nullfont`, else itself.
pub fn primitive_meaning(code: u16) -> Meaning
    ensures { result ≡ primitive_meaning code }
{
    if code == codes::NULLFONT {
        Meaning::Font(0)
    } else {
        Meaning::Primitive(code)
    }
}

/// What a name means at the start, where the table of names begins with the primitives in their order.
/// In compatibility mode the names that only e-TeX has are undefined.
pub fn start_meaning(id: NameId, extended: bool) -> Meaning
    ensures { result ≡ start_meaning extended id.0 }
{
    let count = if extended {
        PRIMITIVE_COUNT
    } else {
        COMPATIBILITY_COUNT
    };
    if id.0 < u64::from(count) {
        primitive_meaning(id.0 as u16)
    } else {
        Meaning::Undefined
    }
}

/// A table of names that begins with the primitives, in which a primitive's id is its code.
pub fn primitive_table(alloc: Global) -> Result<NameTable, AllocError>
    ensures { IfOk result (λ names. names ≡ primitive_names) }
{
    let mut names = NameTable::new(alloc);
    for code in 0..PRIMITIVE_COUNT {
        names.intern(primitive_name(code).as_bytes())?;
    }
    Ok(names)
}
