//! Saves: what a local assignment in a group replaced (`tex.web`, part 19).

use crate::key::Key;
use crate::value::Value;

/// The value and level that stood in an entry before a local assignment.
#[derive(Debug, Drop)]
pub struct Save {
    pub key: Key,
    /// The number of the group, counted from 2.
    pub group: u16,
    pub level: u16,
    pub value: Value,
}
