//! How far a phrase was read.

use crate::calling::Calling;
use crate::in_text::InText;
use crate::task::{Glyph, Numerals, Part, Test};
use conditionals::SkipScan;
use scan_nums::{IntScan, Number};
use tokens::Token;

/// How far a phrase was read, and what it keeps of what was taken.
#[derive(Drop)]
pub enum Progress {
    /// A whole number.
    Number(IntScan),
    /// A text that is passed over, by the number of the `\or` that is sought, and how many of its tokens were taken.
    Passing {
        sought: u32,
        scan: SkipScan,
        taken: u64,
    },
    /// A macro's call.
    Call(Calling),
    /// What is taken next is the last thing; then a token is put back.
    Finishing {
        back: Option<Token>,
    },
    /// What is told next is the phrase's own value.
    Telling,
    /// `\expandafter`, in front of its first token, and behind it.
    ExpandFirst,
    ExpandSecond {
        first: Token,
    },
    /// `\the`, in front of what it shows, and of the number of a token register.
    Value {
        straight: bool,
    },
    ListNumber {
        straight: bool,
    },
    /// In front of the number that is put in front in digits.
    Digits(Numerals),
    /// In front of the number of a register.
    RegisterNumber {
        code: u16,
    },
    /// A condition: behind its opening.
    Opened(Test),
    /// `\ifodd`, in front of its number.
    OddNumber {
        level: u32,
    },
    /// In front of the answer to what a condition asks.
    Asked {
        level: u32,
    },
    /// `\if` or `\ifcat`: in front of the first token, of what is said of an active character, and the same of the second
    /// token.
    FirstGlyph {
        part: Part,
        level: u32,
    },
    FirstActive {
        part: Part,
        level: u32,
        active: Token,
    },
    SecondGlyph {
        part: Part,
        level: u32,
        first: Option<Glyph>,
    },
    SecondActive {
        part: Part,
        level: u32,
        first: Option<Glyph>,
        active: Token,
    },
    /// `\ifcase`, in front of its number.
    CaseNumber {
        level: u32,
    },
    /// Cases are passed over, so many if the number is that of a case; one was left.
    Cases {
        level: u32,
        left: Option<u32>,
    },
    CasesLeft {
        level: u32,
        left: Option<u32>,
    },
    /// `\ifnum`: in front of the first number, the relation and the second number.
    FirstNumber {
        level: u32,
    },
    Relation {
        level: u32,
        first: Number,
    },
    SecondNumber {
        level: u32,
        relation: u8,
        first: Number,
    },
    /// A branch is passed over, and was left.
    PassedOver {
        level: u32,
    },
    Left {
        level: u32,
    },
    /// `\else`, `\or` or `\fi` is carried out, and all up to `\fi` is passed over.
    Met,
    ToFi,
    /// The letters of a name.
    Name {
        text: Vec<u8>,
    },
    /// In front of a file's name, and in it.
    FileStart,
    File {
        text: Vec<u8>,
    },
    /// `\input`, in front of what the name tells.
    Named,
    /// A text in braces, or a definition.
    Text(InText),
}
