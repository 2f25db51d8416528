//! Groups (The TeXbook, chapter 24; `tex.web`, part 19).

use sqlite_items::Items;
use tokens::Token;

/// A group that is open.
#[derive(Drop)]
pub struct Group {
    pub kind: u8,
    pub line: u32,
    pub after: Vec<Token>,
    /// How many saves were made before it began.
    pub first: usize,
}

/// A group that was left.
#[derive(Debug, Drop)]
pub struct Left {
    /// Its kind, a number of `\currentgrouptype`.
    pub kind: u8,
    /// The line at which it began.
    pub line: u32,
    /// The tokens of `\aftergroup`, in the order in which they were given.
    pub after: Items<Token>,
}
