//! Entries: a value with the level of the group that it belongs to.

/// A value and its level: 1 outside all groups and for a global assignment, else the number of the group,
/// counted from 2, in which it was assigned.
#[derive(Debug, Drop)]
pub struct Entry<V> {
    pub value: V,
    pub level: u16,
}
