//! Tokens, their names, meanings and texts, and the ways in which a run can end: what every other part
//! of this TeX speaks of (The TeXbook, chapter 7).
#![tactic(auto)]

pub use budget::Budget;
pub use cap::Cap;
pub use categories::CatTable;
pub use describe::{has_tail, meaning_head, meaning_tail, meaning_text};
pub use kind::Kind;
pub use list::TokenList;
pub use meaning::{Macro, Meaning, RegKind};
pub use names::NameTable;
pub use primitives::{
    COMPATIBILITY_COUNT, PRIMITIVE_COUNT, primitive_code, primitive_meaning, primitive_name,
    primitive_table, start_meaning,
};
pub use show::{token_shown, tokens_text};
pub use stop::Stop;
pub use text::Text;
pub use token::{NameId, Token};

mod buckets;
mod budget;
mod cap;
mod categories;
pub mod codes;
mod describe;
mod kind;
pub mod laws;
mod list;
mod meaning;
mod names;
mod primitive_names;
mod primitives;
mod show;
mod stop;
#[cfg(test)]
mod tests;
mod text;
mod token;
mod wording;
