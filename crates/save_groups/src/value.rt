//! Values of entries.

use crate::heap_box::HeapBox;
use scaled::Glue;
use sqlite_items::Items;
use tokens::{Meaning, TokenList};

/// What an entry can hold. A name and an active character have a meaning; a glue parameter, a `\skip` and a
/// `\muskip` register a glue; a token parameter and a `\toks` register a list of tokens; a box register a box; the
/// shape of paragraphs and an array of penalties a table; all others a number.
#[derive(Debug, Drop)]
pub enum Value {
    Number(i32),
    Glue(Glue),
    Tokens(TokenList),
    Meaning(Meaning),
    /// A box, or void.
    Boxed(Option<HeapBox>),
    /// A list of numbers.
    Table(Items<i32>),
}
