//! The parameter text of a macro, and what stands behind the signs of parameters (The TeXbook, chapter 20, pages 203 and 204;
//! `tex.web` 474 to 476 and 479).
#![tactic(auto, using(asking::specs::Asked::asking), unfolding(crate::specs::Progress::text_rest))]

ghost use Rattle.std.specs.Prelude.{◌≡◌, ◌++◌, ◌-◌, [], ◌∷◌, List, Option, IfOk, true, false};
ghost use Rattle.scan_nums.specs.Starts.{is_from_to};
ghost use Rattle.gullet.specs.Progress.{rest_behind, text_rest, WhileOpen, is_plain};
ghost use Rattle.gullet.specs.Wants.{Taken, digit, is_next, parameter_count, longer, front, body_opened};

use crate::acts::list_from;
use crate::gathering::{begun, fits, full, grown, is_left, is_left_brace, is_right, is_sign};
use crate::in_text::{Front, Gathered, InText, Purpose};
use crate::progress::Progress;
use crate::task::{Told, Want};
use std::alloc::{AllocError, Global};
use tokens::{Kind, Meaning, Token};

/// The number that one digit from 1 to 9 writes, 0 where none stands there.
fn digit(token: Token) -> u8
    ensures { result ≡ digit token }
{
    match token {
        Token::Char { cat, byte } => {
            if cat == 12 && 49 <= byte && byte <= 57 {
                byte - 48
            } else {
                0
            }
        }
        Token::Active(_) | Token::Name(_) | Token::Arg(_) | Token::Frozen(_) => 0,
    }
}

/// Whether this is the number of the next parameter.
fn is_next(count: u8, number: u8) -> bool
    ensures { result ≡ is_next count number }
{
    1 <= number && number - 1 == count
}

/// How many parameters a macro's text has.
fn parameter_count(purpose: &Purpose) -> u8
    ensures { result ≡ parameter_count purpose.now }
{
    match purpose {
        Purpose::Alone => 0,
        Purpose::Body { count, .. } => *count,
    }
}

/// In front of a definition's parameter text.
pub fn definition_start(alloc: Global, expanded: bool) -> (Progress, Want)
    ensures want { result.1 ≡ front expanded false 0 [] [] }
    ensures steps { (x : Taken) (xs : List Taken) → front expanded false 0 [] (x ∷ xs) ≡ rest_behind result.0 x xs }
    ensures plain { is_plain result.0 ≡ true }
{
    let text = Front {
        expanded,
        tokens: Vec::new(alloc),
        count: 0,
    };
    (Progress::Text(InText::Front(text)), Want::Raw)
}

/// A token of a parameter text.
pub fn front(
    alloc: Global,
    text: Front,
    token: Token,
    meaning: &Meaning,
) -> Result<(Progress, Want), AllocError>
    ensures want { IfOk result (λ r. r.1 ≡ text_rest (InText.Front text) token meaning.now Told.Done []) }
    ensures steps { IfOk result (λ r. WhileOpen r.1 ((x : Taken) (xs : List Taken)
        → text_rest (InText.Front text) token meaning.now Told.Done (x ∷ xs) ≡ rest_behind r.0 x xs)) }
    ensures plain { IfOk result (λ r. is_plain r.0 ≡ true) }
{
    if is_left(token) {
        opened(alloc, text, None)
    } else if is_right(token) {
        Ok((Progress::Telling, Want::Wrong(Kind::MissingLeftBrace)))
    } else if is_sign(meaning) {
        Ok((Progress::Text(InText::FrontSign(text)), Want::Raw))
    } else {
        longer(text, token)
    }
}

/// What stands behind a sign in a parameter text: a left brace, or the digit of the next parameter.
pub fn front_sign(
    alloc: Global,
    text: Front,
    token: Token,
    meaning: &Meaning,
) -> Result<(Progress, Want), AllocError>
    ensures want { IfOk result (λ r. r.1 ≡ text_rest (InText.FrontSign text) token meaning.now Told.Done []) }
    ensures steps { IfOk result (λ r. WhileOpen r.1 ((x : Taken) (xs : List Taken)
        → text_rest (InText.FrontSign text) token meaning.now Told.Done (x ∷ xs) ≡ rest_behind r.0 x xs)) }
    ensures plain { IfOk result (λ r. is_plain r.0 ≡ true) }
{
    let number = digit(token);
    if is_left_brace(meaning) {
        last_brace(alloc, text, token)
    } else if is_next(text.count, number) {
        numbered(text, number)
    } else {
        Ok(misused())
    }
}

/// A sign of parameters is misused.
fn misused() -> (Progress, Want)
    ensures want { result.1 ≡ Want.Wrong Kind.BadParameter }
    ensures plain { is_plain result.0 ≡ true }
{
    (Progress::Telling, Want::Wrong(Kind::BadParameter))
}

/// The parameter text has one token more.
fn longer(mut text: Front, token: Token) -> Result<(Progress, Want), AllocError>
    ensures want { IfOk result (λ r. r.1 ≡ longer (λ more. front text.expanded false text.count more []) text.tokens.items (token ∷ []) []) }
    ensures steps { IfOk result (λ r. WhileOpen r.1 ((x : Taken) (xs : List Taken)
        → longer (λ more. front text.expanded false text.count more (x ∷ xs)) text.tokens.items (token ∷ []) (x ∷ xs) ≡ rest_behind r.0 x xs)) }
    ensures plain { IfOk result (λ r. is_plain r.0 ≡ true) }
{
    if !fits(text.tokens.len(), 1) {
        return Ok(full());
    }
    text.tokens.push(token)?;
    Ok((Progress::Text(InText::Front(text)), Want::Raw))
}

/// The parameter text has one parameter more, of this number.
fn numbered(mut text: Front, number: u8) -> Result<(Progress, Want), AllocError>
    ensures want { IfOk result (λ r. r.1 ≡ longer (λ more. front text.expanded false number more []) text.tokens.items (Token.Arg number ∷ []) []) }
    ensures steps { IfOk result (λ r. WhileOpen r.1 ((x : Taken) (xs : List Taken)
        → longer (λ more. front text.expanded false number more (x ∷ xs)) text.tokens.items (Token.Arg number ∷ []) (x ∷ xs) ≡ rest_behind r.0 x xs)) }
    ensures plain { IfOk result (λ r. is_plain r.0 ≡ true) }
{
    text.count = number;
    longer(text, Token::Arg(number))
}

/// A left brace ends the parameter text as its last delimiter.
fn last_brace(alloc: Global, text: Front, token: Token) -> Result<(Progress, Want), AllocError>
    ensures want { IfOk result (λ r. r.1 ≡ longer (body_opened text.expanded text.count (Option.Some token) []) text.tokens.items (token ∷ []) []) }
    ensures steps { IfOk result (λ r. WhileOpen r.1 ((x : Taken) (xs : List Taken)
        → longer (body_opened text.expanded text.count (Option.Some token) (x ∷ xs)) text.tokens.items (token ∷ []) (x ∷ xs) ≡ rest_behind r.0 x xs)) }
    ensures plain { IfOk result (λ r. is_plain r.0 ≡ true) }
{
    if fits(text.tokens.len(), 1) {
        opened_behind(alloc, text, token)
    } else {
        Ok(full())
    }
}

/// The macro's text begins behind this token, which ends its parameter text.
fn opened_behind(
    alloc: Global,
    mut text: Front,
    token: Token,
) -> Result<(Progress, Want), AllocError>
    ensures want { IfOk result (λ r. r.1 ≡ body_opened text.expanded text.count (Option.Some token) [] (text.tokens.items ++ token ∷ [])) }
    ensures steps { IfOk result (λ r. WhileOpen r.1 ((x : Taken) (xs : List Taken)
        → body_opened text.expanded text.count (Option.Some token) (x ∷ xs) (text.tokens.items ++ token ∷ []) ≡ rest_behind r.0 x xs)) }
    ensures plain { IfOk result (λ r. is_plain r.0 ≡ true) }
{
    text.tokens.push(token)?;
    opened(alloc, text, Some(token))
}

/// The macro's text begins.
fn opened(alloc: Global, text: Front, brace: Option<Token>) -> Result<(Progress, Want), AllocError>
    ensures want { IfOk result (λ r. r.1 ≡ body_opened text.expanded text.count brace [] text.tokens.items) }
    ensures steps { IfOk result (λ r. WhileOpen r.1 ((x : Taken) (xs : List Taken)
        → body_opened text.expanded text.count brace (x ∷ xs) text.tokens.items ≡ rest_behind r.0 x xs)) }
    ensures plain { IfOk result (λ r. is_plain r.0 ≡ true) }
{
    let parameters = list_from(alloc, &text.tokens)?;
    let purpose = Purpose::Body {
        parameters,
        count: text.count,
        brace,
    };
    Ok(begun(alloc, purpose, text.expanded))
}

/// What stands behind a sign in a macro's text: another one, or the digit of a parameter.
pub fn sign(text: Gathered, token: Token, meaning: &Meaning) -> Result<(Progress, Want), AllocError>
    ensures want { IfOk result (λ r. r.1 ≡ text_rest (InText.Sign text) token meaning.now Told.Done []) }
    ensures steps { IfOk result (λ r. WhileOpen r.1 ((x : Taken) (xs : List Taken)
        → text_rest (InText.Sign text) token meaning.now Told.Done (x ∷ xs) ≡ rest_behind r.0 x xs)) }
    ensures plain { IfOk result (λ r. is_plain r.0 ≡ true) }
{
    let depth = text.depth;
    let number = digit(token);
    if is_sign(meaning) {
        grown(text, depth, token)
    } else if 1 <= number && number <= parameter_count(&text.purpose) {
        grown(text, depth, Token::Arg(number))
    } else {
        Ok(misused())
    }
}
