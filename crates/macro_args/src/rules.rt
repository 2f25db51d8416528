//! What a macro allows in its arguments.
use tokens::NameId;

/// Whether the macro is `\long`, and the name of `\par`, which no argument of another macro may have.
#[derive(Clone, Copy, Debug)]
pub struct Rules {
    pub long: bool,
    pub par: NameId,
}
