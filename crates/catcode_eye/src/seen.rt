//! What TeX's eyes see in a line, one thing after the other: characters, names and the line's end
//! (The TeXbook, chapter 8; `tex.web` 303 and 343).
use tokens::Text;

/// Where in a line the eye is.
#[derive(Clone, Copy, Debug, PartialEq, Eq)]
pub enum State {
    /// At the beginning, where blanks are skipped and an empty line is a paragraph's end.
    NewLine,
    /// Behind something that was seen.
    MidLine,
    /// Behind a space or a word, where blanks are skipped.
    SkipBlanks,
}

/// One thing that is seen.
#[derive(Debug, Drop)]
pub enum Seen {
    /// A character with its category, which is none of 0, 5, 9, 13, 14 and 15.
    Char { cat: u8, byte: u8 },
    /// An active character.
    Active(u8),
    /// A name, without its escape character.
    Word(Text),
    /// The end of an empty line, which stands for the name `par`.
    Par,
    /// Nothing is left in the line, or no line was taken yet.
    LineEnd,
}

/// One thing that is seen, without the bytes of a name, or why nothing is.
#[derive(Clone, Copy, Debug, PartialEq, Eq)]
pub enum Glance {
    /// A character with its category, which is none of 0, 5, 9, 13, 14 and 15.
    Char { cat: u8, byte: u8 },
    /// An active character.
    Active(u8),
    /// A name.
    Word,
    /// The end of an empty line, which stands for the name `par`.
    Par,
    /// Nothing is left in the line, or no line was taken yet.
    LineEnd,
    /// A byte of category 15 is in its turn.
    Invalid,
    /// There was no memory for the name.
    OutOfMemory,
}
