//! Worked lists of what is still to be read, a file for each subject. What comes next is written as text:
//! a character as itself, a name in brackets, `<E>` for the last line of a source, `<S>` for the end of a
//! source, `<F>` for that of a file, and `!` for the end of a run.

mod files;
mod limits;
mod macros;
mod reading;
