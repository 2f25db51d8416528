//! What is to be said of the tokens of an argument so far (`tex.web` 392 to 399).
ghost use Rattle.std.specs.Prelude.{◌≡◌};
ghost use Rattle.macro_args.specs.BraceCount.{braces_of};
ghost use Rattle.macro_args.specs.Arguments.{is_space, is_passed, is_barred, is_too_long, judged};

use crate::braces::Braces;
use crate::matching::{is_part, stands_at_end};
use crate::rules::Rules;
use crate::verdict::Refusal;
use tokens::Token;

/// The most tokens that a list may have.
const LIMIT: usize = 16_777_215;

/// What is to be said of the tokens of an argument, with those of its delimiter.
#[derive(Clone, Copy, Debug)]
pub enum Judgement {
    /// A space in front of the argument.
    Passed,
    Going,
    /// They are the whole argument with its delimiter.
    Found,
    Refused(Refusal),
}

/// Judges the tokens so far, of which `token` is the last. The braces are theirs.
pub fn judged(
    rules: Rules,
    delimiter: &[Token],
    tokens: &[Token],
    braces: Braces,
    token: Token,
) -> Judgement
    ensures { braces ≡ braces_of tokens.now → result ≡ judged rules delimiter.now tokens.now token }
{
    if is_passed(delimiter, tokens, token) {
        Judgement::Passed
    } else if is_barred(rules, token) && !is_part(delimiter, tokens, braces) {
        Judgement::Refused(Refusal::ParagraphEnded)
    } else if braces.lone >= 1 && !is_part(delimiter, tokens, braces) {
        Judgement::Refused(Refusal::ExtraBrace)
    } else if stands_at_end(delimiter, tokens, braces) {
        Judgement::Found
    } else if is_too_long(delimiter, tokens) {
        Judgement::Refused(Refusal::TooLong)
    } else {
        Judgement::Going
    }
}

fn is_space(token: Token) -> bool
    ensures { result ≡ is_space token }
{
    match token {
        Token::Char { cat, byte } => cat == 10 && byte == 32,
        Token::Active(_) | Token::Name(_) | Token::Arg(_) | Token::Frozen(_) => false,
    }
}

fn is_passed(delimiter: &[Token], tokens: &[Token], token: Token) -> bool
    ensures { result ≡ is_passed delimiter.now tokens.now token }
{
    delimiter.len() == 0 && tokens.len() == 1 && is_space(token)
}

fn is_barred(rules: Rules, token: Token) -> bool
    ensures { result ≡ is_barred rules token }
{
    !rules.long && token.is_same(&Token::Name(rules.par))
}

fn is_too_long(delimiter: &[Token], tokens: &[Token]) -> bool
    ensures { result ≡ is_too_long delimiter.now tokens.now }
{
    tokens
        .len()
        .saturating_sub(delimiter.len().saturating_sub(1))
        > LIMIT
}
