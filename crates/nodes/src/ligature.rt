//! Ligatures (`tex.web`, section 143).

use sqlite_items::Items;

/// A character of a font that was put for others, with its metrics in sp.
#[derive(Debug, Drop)]
pub struct LigNode {
    pub font: u8,
    pub byte: u8,
    pub width: i32,
    pub height: i32,
    pub depth: i32,
    pub italic: i32,
    /// The characters that it stands for, in order.
    pub source: Items<u8>,
    /// Whether it also stands for the boundary at its left.
    pub left: bool,
    /// Whether it also stands for the boundary at its right.
    pub right: bool,
}
