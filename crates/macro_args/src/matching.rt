//! Texts at the end of a list of tokens: the delimiter of an argument, and its beginnings (`tex.web` 392, 394
//! and 397).
ghost use Rattle.std.specs.Prelude.{◌≡◌, IsTrue, length};
ghost use Rattle.tokens.specs.TokenList.{same_tokens};
ghost use Rattle.macro_args.specs.BraceCount.{braces_of, is_balanced};
ghost use Rattle.macro_args.specs.Arguments.{ends_with, before, stands_at_end, is_part};

use crate::braces::Braces;
use tokens::Token;

fn are_same(tokens: &[Token], others: &[Token]) -> bool
    requires { length tokens.now ≡ length others.now }
    ensures { result ≡ same_tokens tokens.now others.now }
{
    for i in 0..tokens.len() {
        if !tokens[i].is_same(&others[i]) {
            return false;
        }
    }
    true
}

fn ends_with(tokens: &[Token], text: &[Token]) -> bool
    ensures { result ≡ ends_with tokens.now text.now }
{
    if tokens.len() < text.len() {
        return false;
    }
    are_same(&tokens[tokens.len() - text.len()..], text)
}

/// Whether the list ends with this text, and what stands before that is balanced. The braces are those of the
/// list.
pub fn stands_at_end(text: &[Token], tokens: &[Token], braces: Braces) -> bool
    ensures { braces ≡ braces_of tokens.now → result ≡ stands_at_end text.now tokens.now }
{
    ends_with(tokens, text) && is_balanced_before(text, tokens, braces)
}

/// Whether what stands before the text is balanced, where the list ends with the text. The braces are those of the
/// list.
fn is_balanced_before(text: &[Token], tokens: &[Token], braces: Braces) -> bool
    ensures { braces ≡ braces_of tokens.now → IsTrue (ends_with tokens.now text.now)
        → result ≡ is_balanced (before tokens.now text.now) }
{
    let own = Braces::of(text);
    if own.lone != braces.lone || own.unclosed != braces.unclosed {
        return false;
    }
    if own.lone == 0 {
        return true;
    }
    // A text with the partner of a brace that stands before it: no parameter text that TeX makes has one.
    let length = tokens.len().saturating_sub(text.len());
    Braces::of(&tokens[..length]).is_none()
}

/// Whether the last token is part of the delimiter, whether that is whole or may still become so. The braces are
/// those of the list.
pub fn is_part(delimiter: &[Token], tokens: &[Token], braces: Braces) -> bool
    ensures { braces ≡ braces_of tokens.now → result ≡ is_part delimiter.now tokens.now }
{
    for last in 0..delimiter.len() {
        if stands_at_end(&delimiter[..last + 1], tokens, braces) {
            return true;
        }
    }
    false
}
