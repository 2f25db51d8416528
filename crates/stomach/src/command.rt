//! What a token does when it is executed (The TeXbook, chapter 24; `tex.web` 1045).
ghost use Rattle.std.specs.Prelude.{◌≡◌};
ghost use Rattle.stomach.specs.Command.{command_named, command_of, is_undefined, is_relax, is_input};

use tokens::codes::{CATCODE, END, INPUT, MESSAGE, PAR, RELAX};
use tokens::{NameId, Token};

/// What is done with a token that is executed.
#[derive(Clone, Copy, Debug, PartialEq, Eq)]
pub enum Command {
    Space,
    Relax,
    Par,
    End,
    Catcode,
    Message,
    Input,
    /// A name or an active character without a meaning.
    Undefined,
    /// A character, which would begin a paragraph.
    Character,
}

/// What the token does.
pub fn command_of(token: Token) -> Command
    ensures { result ≡ command_of token }
{
    match token {
        Token::Char { cat, byte: _ } => {
            if cat == 10 {
                Command::Space
            } else {
                Command::Character
            }
        }
        Token::Active(_) => Command::Undefined,
        Token::Name(id) => command_named(id),
        Token::Arg(_) => Command::Character,
        Token::Frozen(_) => Command::Relax,
    }
}

/// What a name does. The names of the tables stand first in the table of names, so that a primitive's place
/// there is its code.
#[tactic(auto, unfolding(crate::specs::Command::command_named))]
pub fn command_named(id: NameId) -> Command
    ensures { result ≡ command_named id.0 }
{
    if id.0 == INPUT as u64 {
        Command::Input
    } else if id.0 == CATCODE as u64 {
        Command::Catcode
    } else if id.0 == RELAX as u64 {
        Command::Relax
    } else if id.0 == PAR as u64 {
        Command::Par
    } else if id.0 == END as u64 {
        Command::End
    } else if id.0 == MESSAGE as u64 {
        Command::Message
    } else {
        Command::Undefined
    }
}

/// Whether a name has no meaning.
pub fn is_undefined(id: NameId) -> bool
    ensures { result ≡ is_undefined id.0 }
{
    matches!(command_named(id), Command::Undefined)
}

/// Whether a name is `\relax`.
pub fn is_relax(id: NameId) -> bool
    ensures { result ≡ is_relax id.0 }
{
    matches!(command_named(id), Command::Relax)
}

/// Whether a token is `\input`.
pub fn is_input(token: Token) -> bool
    ensures { result ≡ is_input token }
{
    matches!(command_of(token), Command::Input)
}
