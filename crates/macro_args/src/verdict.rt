//! What a reader of arguments answers to a token.

/// Whether a further token is wanted.
#[derive(Clone, Copy, Debug, PartialEq, Eq)]
pub enum Verdict {
    Need,
    /// The last token ends the last argument, or the text in front of the first parameter where there is none.
    Done,
    /// The tokens are no use of the macro, as the last one shows.
    Refused(Refusal),
}

/// Why tokens are no use of a macro.
#[derive(Clone, Copy, Debug, PartialEq, Eq)]
pub enum Refusal {
    /// A token in front of the first argument isn't the one of the parameter text.
    NoMatch,
    /// A right brace in an argument has no left one.
    ExtraBrace,
    /// A `\par` stands in an argument of a macro that isn't `\long`.
    ParagraphEnded,
    /// An argument has more tokens than a list may have.
    TooLong,
}
