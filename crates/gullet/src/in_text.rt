//! Where in a text a phrase is, and what the text is read for (The TeXbook, chapters 20 and 24; `tex.web` 473 to 479).

use tokens::{Token, TokenList};

/// What a text is read for.
#[derive(Drop)]
pub enum Purpose {
    /// For itself.
    Alone,
    /// As the text of a macro with this parameter text, which has so many parameters, at most 9, and may have ended in a left
    /// brace.
    Body {
        parameters: TokenList,
        count: u8,
        brace: Option<Token>,
    },
}

/// A parameter text that is read: its tokens so far, and how many parameters they have.
#[derive(Drop)]
pub struct Front {
    pub expanded: bool,
    pub tokens: Vec<Token>,
    pub count: u8,
}

/// A text that is read: its tokens so far, and how many of its braces are open.
#[derive(Drop)]
pub struct Gathered {
    pub purpose: Purpose,
    pub expanded: bool,
    pub tokens: Vec<Token>,
    pub depth: u64,
}

/// Where in a text a phrase is.
#[derive(Drop)]
pub enum InText {
    /// In front of the left brace of a text that is read for itself.
    Start { expanded: bool },
    /// In a parameter text, and behind a sign of parameters in it.
    Front(Front),
    FrontSign(Front),
    /// Behind the left brace; there behind a sign of parameters; and in front of what an expansion tells.
    Inside(Gathered),
    Sign(Gathered),
    Inserting(Gathered),
}
