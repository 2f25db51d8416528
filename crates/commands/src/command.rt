//! Which command a token begins, by what it means (The TeXbook, chapter 24; `tex.web` 1045).
ghost use Rattle.std.specs.Prelude.{◌≡◌};
ghost use Rattle.commands.specs.Command.{command_of, command_of_code, command_of_character, is_left_out};

use tokens::{Meaning, codes};

/// The two ways in which a group is written.
#[derive(Clone, Copy, Debug, PartialEq, Eq)]
pub enum Brace {
    /// `{` and `}`.
    Brace,
    /// `\begingroup` and `\endgroup`.
    Word,
}

/// What a token that isn't expanded and begins no assignment is to do.
#[derive(Clone, Copy, Debug, PartialEq, Eq)]
pub enum Command {
    /// `\relax`, and `\par` and a space between paragraphs.
    Nothing,
    BeginGroup(Brace),
    EndGroup(Brace),
    AfterGroup,
    IgnoreSpaces,
    Uppercase,
    Lowercase,
    Message,
    ErrorMessage,
    Show,
    ShowThe,
    /// `\endcsname` that ends no name.
    EndName,
    End,
    /// A name that this program leaves out.
    LeftOut,
    /// What would be set, or would begin a paragraph.
    Character,
    /// A name that isn't built yet, and one without a meaning.
    Undefined,
}

/// The command of a token that means this.
pub fn command_of(extended: bool, meaning: &Meaning) -> Command
    ensures { result ≡ command_of extended meaning.now }
{
    match meaning {
        Meaning::Primitive(code) => command_of_code(extended, *code),
        Meaning::Char { cat, .. } => command_of_character(*cat),
        Meaning::CharDef(_) => Command::Character,
        Meaning::MathCharDef(_) => Command::Character,
        Meaning::Undefined | Meaning::Macro(_) | Meaning::Register { .. } | Meaning::Font(_) =>
            Command::Undefined,
    }
}

/// The command of a name of the tables.
fn command_of_code(extended: bool, code: u16) -> Command
    ensures { result ≡ command_of_code extended code }
{
    if code == codes::RELAX || code == codes::PAR {
        Command::Nothing
    } else if code == codes::BEGINGROUP {
        Command::BeginGroup(Brace::Word)
    } else if code == codes::ENDGROUP {
        Command::EndGroup(Brace::Word)
    } else if code == codes::AFTERGROUP {
        Command::AfterGroup
    } else if code == codes::IGNORESPACES {
        Command::IgnoreSpaces
    } else if code == codes::UPPERCASE {
        Command::Uppercase
    } else if code == codes::LOWERCASE {
        Command::Lowercase
    } else if code == codes::MESSAGE {
        Command::Message
    } else if code == codes::ERRMESSAGE {
        Command::ErrorMessage
    } else if code == codes::SHOW {
        Command::Show
    } else if code == codes::SHOWTHE {
        Command::ShowThe
    } else if code == codes::ENDCSNAME {
        Command::EndName
    } else if code == codes::END {
        Command::End
    } else if is_left_out(extended, code) {
        Command::LeftOut
    } else {
        Command::Undefined
    }
}

/// Whether a name is one that this program leaves out.
fn is_left_out(extended: bool, code: u16) -> bool
    ensures { result ≡ is_left_out extended code }
{
    (codes::HALIGN <= code && code <= codes::LEQNO)
        || (extended && codes::MIDDLE <= code && code <= codes::SHOWIFS)
}

/// The command of a character of this category.
fn command_of_character(cat: u8) -> Command
    ensures { result ≡ command_of_character cat }
{
    if cat == 1 {
        Command::BeginGroup(Brace::Brace)
    } else if cat == 2 {
        Command::EndGroup(Brace::Brace)
    } else if cat == 10 {
        Command::Nothing
    } else {
        Command::Character
    }
}
