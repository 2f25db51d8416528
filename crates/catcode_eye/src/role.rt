//! What a byte makes TeX's eyes do, by its category (The TeXbook, chapter 8; `tex.web` 344).
ghost use Rattle.std.specs.Prelude.{◌≡◌};
ghost use Rattle.catcode_eye.specs.Role.{role_of, skips_blanks, is_passed};

use crate::seen::State;

/// The ways in which the eye treats a byte.
#[derive(Clone, Copy)]
pub enum Role {
    /// Begins a name.
    Escape,
    /// Drops the rest of the line, and gives `\par`, a space or nothing.
    EndOfLine,
    /// Gives nothing.
    Ignored,
    /// Gives a space in the middle of a line, else nothing.
    Space,
    /// Is an active character.
    Active,
    /// Drops the rest of the line.
    Comment,
    /// May not be there.
    Invalid,
    /// Is the character that it is.
    Plain,
}

/// The role of a byte of category `cat`.
pub fn role_of(cat: u8) -> Role
    ensures { result ≡ role_of cat }
{
    match cat {
        0 => Role::Escape,
        5 => Role::EndOfLine,
        9 => Role::Ignored,
        10 => Role::Space,
        13 => Role::Active,
        14 => Role::Comment,
        15 => Role::Invalid,
        _ => Role::Plain,
    }
}

/// Whether blanks give nothing.
fn skips_blanks(state: State) -> bool
    ensures { result ≡ skips_blanks state }
{
    match state {
        State::MidLine => false,
        State::NewLine | State::SkipBlanks => true,
    }
}

/// Whether a byte of this role gives nothing, and the eye goes on behind it.
pub fn is_passed(role: Role, state: State) -> bool
    ensures { result ≡ is_passed role state }
{
    match role {
        Role::Ignored => true,
        Role::Space => skips_blanks(state),
        _ => false,
    }
}
