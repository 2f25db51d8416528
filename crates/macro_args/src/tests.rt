//! Worked uses of macros, and the sizes that no worked text shows.

mod large;
mod uses;
