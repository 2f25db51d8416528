//! Worked values: numbers and messages of kinds, texts of tokens and meanings, ids of names, places of
//! primitives.

mod kinds;
mod lists;
mod names;
mod primitives;
mod texts;
