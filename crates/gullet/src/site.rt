//! What expansion works on besides what is still to be read: the environments, the names, the printer, the steps.

use crate::facts::Facts;
use save_groups::Env;
use tokens::{Budget, NameTable};
use world::Printer;

/// How many troubles were passed over.
#[derive(Clone, Copy, Debug, PartialEq, Eq)]
pub struct Passed {
    /// In the whole run, up to the last number of the type.
    pub total: u64,
    /// Since the last end of a paragraph; 99 at the most.
    pub recent: u8,
}

/// What stands around expansion.
#[derive(Drop)]
pub struct Site {
    pub env: Env,
    pub names: NameTable,
    pub out: Printer,
    pub budget: Budget,
    pub facts: Facts,
    pub passed: Passed,
}
