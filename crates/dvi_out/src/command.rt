//! The symbolic commands of a page (`tex.web`, sections 585 to 587).

use sqlite_items::{Boxed, Items};

/// What a device does, with movements by their widths and characters by their fonts in the nodes. Sizes are in sp.
#[derive(Drop)]
pub(crate) enum Command {
    /// Keeps the position.
    Push,
    /// Goes back to the position that was kept last.
    Pop,
    /// Moves to the right, or to the left where the width is negative.
    Right(i32),
    /// Moves down, or up where the height is negative.
    Down(i32),
    /// Sets a character and moves by its width.
    Character { font: u8, byte: u8 },
    /// Sets a rule and moves by its width.
    SetRule { height: i32, width: i32 },
    /// Sets a rule and doesn't move.
    PutRule { height: i32, width: i32 },
    /// Bytes for the program that reads the file.
    Special(Boxed<Items<u8>>),
}
