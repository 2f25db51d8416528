//! `\uppercase` and `\lowercase` (The TeXbook, page 41; `tex.web` 1285 to 1289).
#![tactic(auto, using(asking::specs::Asked::asking), unfolding(crate::specs::Letters::change_case))]

ghost use Rattle.std.specs.Prelude.{◌≡◌, IfOk, map};
ghost use Rattle.asking.specs.Did.{Does};
ghost use Rattle.asking.specs.Seen.{DoesBeside};
ghost use Rattle.save_groups.specs.Standing.{copies_of};
ghost use Rattle.gullet.specs.State.{state_of};
ghost use Rattle.commands.specs.Letters.{table_of, changed_byte, changed, with_changed, change_case};

use asking::Library;
use gullet::{Gullet, Site};
use save_groups::{Env, Key};
use std::alloc::{AllocError, Global};
use tokens::{Stop, Token, TokenList};

/// Which case letters get.
#[derive(Clone, Copy, Debug, PartialEq, Eq)]
pub enum LetterCase {
    /// By `\lccode`.
    Lower,
    /// By `\uccode`.
    Upper,
}

/// Changes the case of the text in braces that comes next, and puts it in front.
pub(crate) fn change_case<L: Library>(
    alloc: Global,
    gullet: &mut Gullet,
    site: &mut Site,
    library: &mut L,
    case: LetterCase,
) -> Result<(), Stop>
    ensures does { DoesBeside L.outside (L.seen library.old) (L.seen library.new) result (state_of gullet.new site.new)
        (change_case L.outside case (state_of gullet.old site.old)) }
{
    let text = gullet.take_general_text(site, library)?;
    put_changed(alloc, gullet, site, case, text.as_slice())
}

/// Puts a text in front whose letters have the other case.
fn put_changed(
    alloc: Global,
    gullet: &mut Gullet,
    site: &Site,
    case: LetterCase,
    text: &[Token],
) -> Result<(), Stop>
    ensures does { Does result (state_of gullet.new site.now) (with_changed case (text.now, state_of gullet.old site.now)) }
{
    match changed_list(alloc, &site.env, case, text) {
        Ok(list) => match gullet.push_list(list) {
            Ok(()) => Ok(()),
            Err(_) => Err(Stop::OutOfMemory),
        },
        Err(_) => Err(Stop::OutOfMemory),
    }
}

/// The list of the changed tokens. It has as many tokens as another list, so that it isn't too long.
fn changed_list(
    alloc: Global,
    env: &Env,
    case: LetterCase,
    text: &[Token],
) -> Result<TokenList, AllocError>
    ensures { IfOk result (λ list. list ≡ map (changed (copies_of env.now) case) text.now) }
{
    let tokens = changed_tokens(alloc, env, case, text)?;
    match TokenList::from_slice(alloc, &tokens) {
        Ok(list) => Ok(list),
        Err(_) => Err(AllocError),
    }
}

fn changed_tokens(
    alloc: Global,
    env: &Env,
    case: LetterCase,
    text: &[Token],
) -> Result<Vec<Token>, AllocError>
    ensures { IfOk result (λ tokens. tokens.items ≡ map (changed (copies_of env.now) case) text.now) }
{
    text.iter()
        .map(|token| changed(env, case, *token))
        .collect(alloc)
}

/// A character gets the byte that its code gives, and keeps its category; a name stays.
fn changed(env: &Env, case: LetterCase, token: Token) -> Token
    ensures { result ≡ changed (copies_of env.now) case token }
{
    match token {
        Token::Char { cat, byte } => Token::Char {
            cat,
            byte: changed_byte(env, case, byte),
        },
        Token::Active(byte) => Token::Active(changed_byte(env, case, byte)),
        Token::Name(id) => Token::Name(id),
        Token::Arg(number) => Token::Arg(number),
        Token::Frozen(number) => Token::Frozen(number),
    }
}

fn changed_byte(env: &Env, case: LetterCase, byte: u8) -> u8
    ensures { result ≡ changed_byte (copies_of env.now) case byte }
{
    let code = env.number(Key::Code {
        table: table_of(case),
        byte,
    });
    if 0 < code && code <= 255 {
        code as u8
    } else {
        byte
    }
}

/// The table of codes, as the environments number them.
fn table_of(case: LetterCase) -> u8
    ensures { result ≡ table_of case }
{
    match case {
        LetterCase::Lower => 1,
        LetterCase::Upper => 2,
    }
}
