//! All that a run keeps from one command to the next.

use crate::pending::Pending;
use tokens::{Budget, CatTable, NameTable, Text};
use world::Printer;

/// The state of a run.
#[derive(Drop)]
pub struct State {
    pub names: NameTable,
    /// The categories of now, `\catcode`.
    pub categories: CatTable,
    pub pending: Pending,
    pub printer: Printer,
    pub budget: Budget,
    /// Whether a file's name is to be read first, as if `\input` stood in front of the first line.
    pub names_file: bool,
    /// The job name, which is empty until the first file is asked for.
    pub job: Text,
    /// The file that was asked for last.
    pub asked: Text,
}
