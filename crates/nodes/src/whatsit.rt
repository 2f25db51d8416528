//! What is done when a box is shipped (`tex.web`, section 1341).

use sqlite_items::Items;
use tokens::TokenList;

/// A command that waits in a list until its box is shipped.
#[derive(Debug, Drop)]
pub enum Whatsit {
    /// Opens a file for writing.
    Open { stream: u8, name: Items<u8> },
    /// Writes a text, which is expanded when the box is shipped, to a stream: to the log alone where the stream is
    /// negative, to terminal and log where it isn't open.
    Write { stream: i32, text: TokenList },
    /// Closes a stream.
    Close { stream: u8 },
    /// Bytes for the program that prints the DVI file.
    Special(Items<u8>),
}
