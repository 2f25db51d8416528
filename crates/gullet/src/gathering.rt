//! A text in braces takes its tokens, as they stand or expanded (The TeXbook, chapters 20 and 24; `tex.web` 403 and 473 to
//! 479).
#![tactic(auto, using(asking::specs::Asked::asking), unfolding(crate::specs::Progress::text_rest))]

ghost use Rattle.std.specs.Prelude.{◌≡◌, ◌+◌, ◌&&◌, [], ◌∷◌, List, Option, IfOk, true};
ghost use Rattle.macro_args.specs.BraceCount.{is_left, is_right};
ghost use Rattle.gullet.specs.Progress.{rest_behind, text_rest, WhileOpen, is_plain};
ghost use Rattle.gullet.specs.Wants.{Taken, Place, fits, longer, tokens_told, means_category, is_left_brace, is_sign, is_filler, text_expansion, expansion_in, Ahead, has_signs, gathered, text_by, text_ended, body_ended};

use crate::acts::list_from;
use crate::definition::{front, front_sign, sign};
use crate::in_text::{Gathered, InText, Purpose};
use crate::meanings::expansion;
use crate::passing::with_one_more;
use crate::progress::Progress;
use crate::step::{is_relax, is_space, last_act};
use crate::task::{Act, Task, Told, Want};
use std::alloc::{AllocError, Global};
use tokens::{Cap, Kind, Meaning, Token, TokenList, codes};

/// A text takes one thing more: a token with its meaning, or what is told.
pub fn take_text(
    alloc: Global,
    text: InText,
    token: Token,
    meaning: &Meaning,
    told: Told,
) -> Result<(Progress, Want), AllocError>
    ensures want { IfOk result (λ r. r.1 ≡ text_rest text token meaning.now told []) }
    ensures steps { IfOk result (λ r. WhileOpen r.1 ((x : Taken) (xs : List Taken)
        → text_rest text token meaning.now told (x ∷ xs) ≡ rest_behind r.0 x xs)) }
    ensures plain { IfOk result (λ r. is_plain r.0 ≡ true) }
{
    match text {
        InText::Start { expanded } => Ok(text_start(alloc, expanded, meaning)),
        InText::Front(text) => front(alloc, text, token, meaning),
        InText::FrontSign(text) => front_sign(alloc, text, token, meaning),
        InText::Inside(text) => gather(alloc, text, token, meaning),
        InText::Sign(text) => sign(text, token, meaning),
        InText::Inserting(text) => insert(text, told),
    }
}

/// Whether a list of this size may become so much longer.
pub fn fits(size: usize, more: usize) -> bool
    ensures { result ≡ fits size more }
{
    let limit = Cap::Items.limit() as usize;
    more <= limit && size <= limit - more
}

/// A list would have too many tokens.
pub fn full() -> (Progress, Want)
    ensures progress { result.0 ≡ Progress.Finishing Option.None }
    ensures want { result.1 ≡ Want.Act Act.Full }
{
    last_act(Act::Full)
}

/// The list that is told, without tokens where none is.
pub fn tokens_told(told: Told) -> TokenList
    ensures { result ≡ tokens_told told }
{
    match told {
        Told::Tokens(tokens) => tokens,
        Told::Done
        | Told::Number(_)
        | Told::Word(_)
        | Told::Level(_)
        | Told::GoOn
        | Told::Text(_)
        | Told::Holds(_)
        | Told::Definition { .. } => TokenList::empty(),
    }
}

/// Whether a meaning is that of a character of this category.
pub fn means_category(wanted: u8, meaning: &Meaning) -> bool
    ensures { result ≡ means_category wanted meaning.now }
{
    match meaning {
        Meaning::Char { cat, .. } => *cat == wanted,
        Meaning::Undefined
        | Meaning::Primitive(_)
        | Meaning::Macro(_)
        | Meaning::CharDef(_)
        | Meaning::MathCharDef(_)
        | Meaning::Register { .. }
        | Meaning::Font(_) => false,
    }
}

/// The categories of the two braces, and of the sign of parameters.
const LEFT: u8 = 1;

const RIGHT: u8 = 2;

const SIGN: u8 = 6;

/// Whether a left brace stands there, also one that a name stands for.
pub fn is_left_brace(meaning: &Meaning) -> bool
    ensures { result ≡ is_left_brace meaning.now }
{
    means_category(LEFT, meaning)
}

/// Whether a sign of parameters stands there, also one that a name stands for.
pub fn is_sign(meaning: &Meaning) -> bool
    ensures { result ≡ is_sign meaning.now }
{
    means_category(SIGN, meaning)
}

/// Whether a character is a left brace.
pub fn is_left(token: Token) -> bool
    ensures { result ≡ is_left token }
{
    match token {
        Token::Char { cat, .. } => cat == LEFT,
        Token::Active(_) | Token::Name(_) | Token::Arg(_) | Token::Frozen(_) => false,
    }
}

/// Whether a character is a right brace.
pub fn is_right(token: Token) -> bool
    ensures { result ≡ is_right token }
{
    match token {
        Token::Char { cat, .. } => cat == RIGHT,
        Token::Active(_) | Token::Name(_) | Token::Arg(_) | Token::Frozen(_) => false,
    }
}

/// A token in front of a text.
fn text_start(alloc: Global, expanded: bool, meaning: &Meaning) -> (Progress, Want)
    ensures want { result.1 ≡ text_rest (InText.Start expanded) (Token.Frozen 0) meaning.now Told.Done [] }
    ensures steps { WhileOpen result.1 ((x : Taken) (xs : List Taken)
        → text_rest (InText.Start expanded) (Token.Frozen 0) meaning.now Told.Done (x ∷ xs) ≡ rest_behind result.0 x xs) }
    ensures plain { is_plain result.0 ≡ true }
{
    if is_filler(meaning) {
        (Progress::Text(InText::Start { expanded }), Want::Expanded)
    } else if is_left_brace(meaning) {
        begun(alloc, Purpose::Alone, expanded)
    } else {
        (Progress::Telling, Want::Wrong(Kind::MissingLeftBrace))
    }
}

/// Behind the left brace of a text.
pub fn begun(alloc: Global, purpose: Purpose, expanded: bool) -> (Progress, Want)
    ensures want { result.1 ≡ gathered purpose expanded Ahead 0 [] [] }
    ensures steps { WhileOpen result.1 ((x : Taken) (xs : List Taken) → gathered purpose expanded Ahead 0 [] (x ∷ xs) ≡ rest_behind result.0 x xs) }
    ensures plain { is_plain result.0 ≡ true }
{
    let text = Gathered {
        purpose,
        expanded,
        tokens: Vec::new(alloc),
        depth: 0,
    };
    (Progress::Text(InText::Inside(text)), Want::Raw)
}

/// Whether a token is passed in front of a text.
fn is_filler(meaning: &Meaning) -> bool
    ensures { result ≡ is_filler meaning.now }
{
    is_space(meaning) || is_relax(meaning)
}

/// What is expanded in an expanded text.
fn text_expansion(token: Token, meaning: &Meaning) -> Result<Option<Task>, AllocError>
    ensures { IfOk result (λ inner. inner ≡ text_expansion token meaning.now) }
{
    match meaning {
        Meaning::Primitive(code) => {
            if *code == codes::THE {
                Ok(Some(Task::The { straight: true }))
            } else {
                expansion(token, meaning)
            }
        }
        Meaning::Macro(called) => {
            if called.guarded {
                Ok(None)
            } else {
                expansion(token, meaning)
            }
        }
        Meaning::Undefined => expansion(token, meaning),
        Meaning::Char { .. }
        | Meaning::CharDef(_)
        | Meaning::MathCharDef(_)
        | Meaning::Register { .. }
        | Meaning::Font(_) => Ok(None),
    }
}

/// What is expanded in a text.
fn expansion_in(expanded: bool, token: Token, meaning: &Meaning) -> Result<Option<Task>, AllocError>
    ensures { IfOk result (λ inner. inner ≡ expansion_in expanded token meaning.now) }
{
    if expanded {
        text_expansion(token, meaning)
    } else {
        Ok(None)
    }
}

/// Whether signs of parameters are looked for.
fn has_signs(purpose: &Purpose) -> bool
    ensures { result ≡ has_signs purpose.now }
{
    match purpose {
        Purpose::Alone => false,
        Purpose::Body { .. } => true,
    }
}

/// A token of a text.
fn gather(
    alloc: Global,
    text: Gathered,
    token: Token,
    meaning: &Meaning,
) -> Result<(Progress, Want), AllocError>
    ensures want { IfOk result (λ r. r.1 ≡ text_rest (InText.Inside text) token meaning.now Told.Done []) }
    ensures steps { IfOk result (λ r. WhileOpen r.1 ((x : Taken) (xs : List Taken)
        → text_rest (InText.Inside text) token meaning.now Told.Done (x ∷ xs) ≡ rest_behind r.0 x xs)) }
    ensures plain { IfOk result (λ r. is_plain r.0 ≡ true) }
{
    match expansion_in(text.expanded, token, meaning)? {
        Some(inner) => Ok((Progress::Text(InText::Inserting(text)), Want::Inner(inner))),
        None => counted(alloc, text, token, meaning),
    }
}

/// A token that isn't expanded: characters that are braces are counted.
fn counted(
    alloc: Global,
    text: Gathered,
    token: Token,
    meaning: &Meaning,
) -> Result<(Progress, Want), AllocError>
    ensures want { IfOk result (λ r. r.1 ≡ text_by (λ place depth more. gathered text.purpose text.expanded place depth more []) text.purpose text.tokens.items text.depth token meaning.now []) }
    ensures steps { IfOk result (λ r. WhileOpen r.1 ((x : Taken) (xs : List Taken)
        → text_by (λ place depth more. gathered text.purpose text.expanded place depth more (x ∷ xs)) text.purpose text.tokens.items text.depth token meaning.now (x ∷ xs) ≡ rest_behind r.0 x xs)) }
    ensures plain { IfOk result (λ r. is_plain r.0 ≡ true) }
{
    if is_left(token) {
        let depth = with_one_more(text.depth)?;
        grown(text, depth, token)
    } else if is_right(token) {
        if text.depth == 0 {
            text_ended(alloc, text)
        } else {
            let depth = text.depth - 1;
            grown(text, depth, token)
        }
    } else if has_signs(&text.purpose) && is_sign(meaning) {
        Ok(signed(text))
    } else {
        let depth = text.depth;
        grown(text, depth, token)
    }
}

/// Behind a sign of parameters.
fn signed(text: Gathered) -> (Progress, Want)
    ensures want { result.1 ≡ gathered text.purpose text.expanded Place.BehindSign text.depth text.tokens.items [] }
    ensures steps { (x : Taken) (xs : List Taken)
        → gathered text.purpose text.expanded Place.BehindSign text.depth text.tokens.items (x ∷ xs) ≡ rest_behind result.0 x xs }
    ensures plain { is_plain result.0 ≡ true }
{
    let want = if text.expanded {
        Want::Expanded
    } else {
        Want::Raw
    };
    (Progress::Text(InText::Sign(text)), want)
}

/// The text ends.
fn text_ended(alloc: Global, text: Gathered) -> Result<(Progress, Want), AllocError>
    ensures want { IfOk result (λ r. r.1 ≡ text_ended text.purpose text.tokens.items []) }
    ensures steps { IfOk result (λ r. WhileOpen r.1 ((x : Taken) (xs : List Taken)
        → text_ended text.purpose text.tokens.items (x ∷ xs) ≡ rest_behind r.0 x xs)) }
    ensures plain { IfOk result (λ r. is_plain r.0 ≡ true) }
{
    let Gathered {
        purpose,
        tokens,
        ..
    } = text;
    match purpose {
        Purpose::Alone => {
            let list = list_from(alloc, &tokens)?;
            Ok(telling(Told::Tokens(list)))
        }
        Purpose::Body {
            parameters,
            brace,
            ..
        } => body_ended(alloc, parameters, brace, tokens),
    }
}

/// A macro's text ends, with the left brace that its parameter text ended in.
fn body_ended(
    alloc: Global,
    parameters: TokenList,
    brace: Option<Token>,
    mut tokens: Vec<Token>,
) -> Result<(Progress, Want), AllocError>
    ensures want { IfOk result (λ r. r.1 ≡ body_ended parameters brace tokens.items []) }
    ensures steps { IfOk result (λ r. WhileOpen r.1 ((x : Taken) (xs : List Taken)
        → body_ended parameters brace tokens.items (x ∷ xs) ≡ rest_behind r.0 x xs)) }
    ensures plain { IfOk result (λ r. is_plain r.0 ≡ true) }
{
    if let Some(brace) = brace {
        if !fits(tokens.len(), 1) {
            return Ok(full());
        }
        tokens.push(brace)?;
    }
    let body = list_from(alloc, &tokens)?;
    Ok(telling(Told::Definition { parameters, body }))
}

/// The phrase is at its end, and tells this.
fn telling(told: Told) -> (Progress, Want)
    ensures want { result.1 ≡ Want.Gives told Option.None }
    ensures plain { is_plain result.0 ≡ true }
{
    (Progress::Telling, Want::Gives { told, back: None })
}

/// The text has one token more, and so many braces are open.
pub fn grown(mut text: Gathered, depth: u64, token: Token) -> Result<(Progress, Want), AllocError>
    ensures want { IfOk result (λ r. r.1 ≡ longer (λ more. gathered text.purpose text.expanded Ahead depth more []) text.tokens.items (token ∷ []) []) }
    ensures steps { IfOk result (λ r. WhileOpen r.1 ((x : Taken) (xs : List Taken)
        → longer (λ more. gathered text.purpose text.expanded Ahead depth more (x ∷ xs)) text.tokens.items (token ∷ []) (x ∷ xs) ≡ rest_behind r.0 x xs)) }
    ensures plain { IfOk result (λ r. is_plain r.0 ≡ true) }
{
    if !fits(text.tokens.len(), 1) {
        return Ok(full());
    }
    text.tokens.push(token)?;
    text.depth = depth;
    Ok((Progress::Text(InText::Inside(text)), Want::Raw))
}

/// The tokens that an expansion told go into the text as they stand; where it told none, it has put others in front.
fn insert(mut text: Gathered, told: Told) -> Result<(Progress, Want), AllocError>
    ensures want { IfOk result (λ r. r.1 ≡ text_rest (InText.Inserting text) (Token.Frozen 0) Meaning.Undefined told []) }
    ensures steps { IfOk result (λ r. WhileOpen r.1 ((x : Taken) (xs : List Taken)
        → text_rest (InText.Inserting text) (Token.Frozen 0) Meaning.Undefined told (x ∷ xs) ≡ rest_behind r.0 x xs)) }
    ensures plain { IfOk result (λ r. is_plain r.0 ≡ true) }
{
    let list = tokens_told(told);
    let more = list.as_slice();
    if !fits(text.tokens.len(), more.len()) {
        return Ok(full());
    }
    text.tokens.extend_from_slice(more)?;
    Ok((Progress::Text(InText::Inside(text)), Want::Raw))
}
