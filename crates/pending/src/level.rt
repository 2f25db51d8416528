//! Levels: lists of tokens that are read one in another (`tex.web` 300 to 307 and 323 to 325).
ghost use Rattle.std.specs.Prelude.{◌≡◌, [], ◌∷◌, drop, reverse, IfOk, OnOk, OnErr};
ghost use Rattle.pending.specs.Levels.{state_of, list_state, body_state, new_token, next_index, passed, SameItems};
ghost use Rattle.pending.specs.Pending.{argument};

use crate::waiting::Waiting;
use std::alloc::AllocError;
use std::mem;
use tokens::{Token, TokenList};

/// A level. Its tokens up to the index are read.
#[derive(Drop)]
pub enum Level {
    List {
        tokens: TokenList,
        at: usize,
    },
    /// The text of a macro, in which arguments stand by their numbers.
    Body {
        body: TokenList,
        arguments: Vec<TokenList>,
        at: usize,
    },
    /// A token that was put back.
    Back(Waiting),
    /// The next of the sources that stand beside the levels.
    Source,
}

/// What stands in front of a level.
#[derive(Clone, Copy, Debug)]
pub enum State {
    Ready(Waiting),
    /// The argument of this number, in the text of a macro.
    Argument(u8),
    Source,
    Used,
}

/// A level without tokens.
pub fn empty_level() -> Level
    ensures { result ≡ Level.List [] 0 }
{
    list_level(TokenList::empty())
}

/// A level of these tokens.
pub fn list_level(tokens: TokenList) -> Level
    ensures { result ≡ Level.List tokens 0 }
{
    Level::List { tokens, at: 0 }
}

/// What stands in front of a level.
pub fn state_of(level: &Level) -> State
    ensures { result ≡ state_of level.now }
{
    match level {
        Level::List { tokens, at } => list_state(tokens.as_slice(), *at),
        Level::Body { body, at, .. } => body_state(body.as_slice(), *at),
        Level::Back(waiting) => State::Ready(*waiting),
        Level::Source => State::Source,
    }
}

fn list_state(tokens: &[Token], at: usize) -> State
    ensures { result ≡ list_state (drop at tokens.now) }
{
    if at < tokens.len() {
        State::Ready(new_token(tokens[at]))
    } else {
        State::Used
    }
}

fn body_state(tokens: &[Token], at: usize) -> State
    ensures { result ≡ body_state (drop at tokens.now) }
{
    if at < tokens.len() {
        state_by(tokens[at])
    } else {
        State::Used
    }
}

fn state_by(token: Token) -> State
    ensures { result ≡ body_state (token ∷ []) }
{
    match token {
        Token::Arg(number) => State::Argument(number),
        _ => State::Ready(new_token(token)),
    }
}

fn new_token(token: Token) -> Waiting
    ensures { result ≡ new_token token }
{
    Waiting {
        token,
        noexpand: false,
        paid: false,
    }
}

/// Passes what stands in front of a level.
pub fn pass(level: &mut Level)
    ensures { level.new ≡ passed level.old }
{
    match level {
        Level::List { tokens, at } => *at = next_index(*at, tokens.as_slice()),
        Level::Body { body, at, .. } => *at = next_index(*at, body.as_slice()),
        Level::Back(_) => *level = empty_level(),
        Level::Source => *level = empty_level(),
    }
}

fn next_index(at: usize, tokens: &[Token]) -> usize
    ensures { result ≡ next_index at tokens.now }
{
    if at < tokens.len() { at + 1 } else { at }
}

/// A macro's argument by its number, which shares its tokens.
pub fn argument(arguments: &[TokenList], number: u8) -> Result<TokenList, AllocError>
    ensures { IfOk result (λ tokens. tokens ≡ argument arguments.now number) }
{
    match arguments.get(usize::from(number).saturating_sub(1)) {
        None => Ok(TokenList::empty()),
        Some(tokens) => tokens.share(),
    }
}

/// Puts a level in front. One that is used up gives its place to it, so that no memory is taken.
pub fn push_level(top: &mut Level, below: &mut Vec<Level>, level: Level) -> Result<(), AllocError>
    ensures ok { OnOk result (top.new ≡ level) }
    ensures below { OnOk result (SameItems (top.old ∷ reverse below.old.items) (reverse below.new.items)) }
    ensures replaces { OnOk result (state_of top.old ≡ State.Used → below.new.items ≡ below.old.items) }
    ensures err { OnErr result (top.new ≡ top.old) }
    ensures kept { OnErr result (below.new.items ≡ below.old.items) }
{
    if let State::Used = state_of(top) {
        *top = level;
        return Ok(());
    }
    put_under(top, below, level)
}

/// Puts a level in front of another, which it leaves below.
pub fn put_under(top: &mut Level, below: &mut Vec<Level>, level: Level) -> Result<(), AllocError>
    ensures ok { OnOk result (top.new ≡ level) }
    ensures below { OnOk result (reverse below.new.items ≡ top.old ∷ reverse below.old.items) }
    ensures err { OnErr result (top.new ≡ top.old) }
    ensures kept { OnErr result (below.new.items ≡ below.old.items) }
{
    let last = below.len();
    below.push(level)?;
    mem::swap(top, &mut below[last]);
    Ok(())
}
