//! What is read of a line: as it stands, or expanded.
ghost use Rattle.std.specs.Prelude.{◌≡◌};

use super::tex::Tex;
use asking::{Known, Library, Start};
use gullet::{Gullet, Site};
use scan_nums::{Number, Phrase};
use std::alloc::{AllocError, Global};
use std::marker::Brand;
use std::test::Fail;
use tokens::{Stop, Token, TokenList, tokens_text};
use world::World;

/// More tokens than any line leaves.
const MOST_TOKENS: u32 = 1000;

/// Whether a text ends in `#`.
fn ends_in_mark(tokens: &[Token]) -> bool {
    matches!(tokens.last(), Some(Token::Char { cat: 6, .. }))
}

/// The parameter that a digit behind `#` stands for.
fn parameter(tokens: &[Token], token: Token) -> Option<Token> {
    match token {
        Token::Char { byte, .. } if ends_in_mark(tokens) && byte.is_ascii_digit() => {
            Some(Token::Arg(byte.saturating_sub(b'0')))
        }
        _ => None,
    }
}

/// Puts a token behind a text.
fn push_token(tokens: &mut Vec<Token>, token: Token) -> Result<(), AllocError> {
    match parameter(tokens, token) {
        Some(parameter) => {
            tokens.pop();
            tokens.push(parameter)?;
        }
        None => tokens.push(token)?,
    }
    Ok(())
}

/// Puts the next token of a source behind a text. False where nothing is left.
fn push_next(site: &mut Site, source: &mut Gullet, tokens: &mut Vec<Token>) -> Result<bool, Stop> {
    match source.next_raw(site) {
        Ok(Some((token, _))) => {
            push_token(tokens, token)?;
            Ok(true)
        }
        Ok(None) => Ok(false),
        Err(stop) => Err(stop),
    }
}

/// The tokens of a source as they stand, in which `#` and a digit stand for a parameter.
fn raw_tokens(alloc: Global, site: &mut Site, source: &mut Gullet) -> Result<Vec<Token>, Stop> {
    let mut tokens = Vec::new(alloc);
    'tokens: for _ in 0..MOST_TOKENS {
        if !push_next(site, source, &mut tokens)? {
            break 'tokens;
        }
    }
    Ok(tokens)
}

/// The tokens of a text.
pub fn tokens_of(tex: &mut Tex, text: &[u8]) -> Result<TokenList, Stop> {
    let mut source = Gullet::new(tex.alloc, text.to_vec(tex.alloc)?);
    let tokens = raw_tokens(tex.alloc, &mut tex.site, &mut source)?;
    TokenList::from_slice(tex.alloc, &tokens)
}

/// A line as it stands.
pub fn raw_text(tex: &mut Tex) -> Result<Vec<u8>, Fail> {
    let tokens = raw_tokens(tex.alloc, &mut tex.site, &mut tex.gullet)?;
    Ok(text_of(tex, &tokens)?)
}

/// Puts the next token that expansion leaves behind a text. False where nothing is left.
fn push_expanded<L: Library>(
    tex: &mut Tex,
    library: &mut L,
    tokens: &mut Vec<Token>,
) -> Result<bool, Stop> {
    match tex.gullet.next_expanded(&mut tex.site, library) {
        Ok(Some(token)) => {
            tokens.push(token)?;
            Ok(true)
        }
        Ok(None) => Ok(false),
        Err(stop) => Err(stop),
    }
}

/// The tokens that expansion leaves of a line, up to its end.
fn gather<L: Library>(tex: &mut Tex, library: &mut L, tokens: &mut Vec<Token>) -> Result<(), Stop> {
    'tokens: for _ in 0..MOST_TOKENS {
        if !push_expanded(tex, library, tokens)? {
            break 'tokens;
        }
    }
    Ok(())
}

/// How a line ended, as a text.
pub fn shown(alloc: Global, stop: Stop) -> Result<Vec<u8>, AllocError> {
    match stop {
        Stop::Trouble(kind) => kind.text(alloc),
        Stop::Capacity(cap) => cap.text().to_vec(alloc),
        Stop::Spent => b"spent".to_vec(alloc),
        Stop::ReadFault => b"read fault".to_vec(alloc),
        Stop::WriteFault => b"write fault".to_vec(alloc),
        Stop::OutOfMemory => b"no memory".to_vec(alloc),
    }
}

/// Tokens as `\message` shows them.
fn text_of(tex: &Tex, tokens: &[Token]) -> Result<Vec<u8>, AllocError> {
    tokens_text(
        tex.alloc,
        tokens,
        &tex.site.names,
        tex.site.env.cats(),
        i32::from(b'\\'),
    )
}

/// Tokens as a text, with the trouble behind it.
fn text_with_end(tex: &Tex, tokens: &[Token], stop: Stop) -> Result<Vec<u8>, AllocError> {
    let mut text = text_of(tex, tokens)?;
    text.extend_from_slice(b"! ")?;
    let trouble = shown(tex.alloc, stop)?;
    text.extend_from_slice(&trouble)?;
    Ok(text)
}

/// All that expansion leaves, as a text, with the trouble in which it ends behind it.
fn expanded_by<L: Library>(tex: &mut Tex, library: &mut L) -> Result<Vec<u8>, AllocError> {
    let mut tokens = Vec::new(tex.alloc);
    match gather(tex, library, &mut tokens) {
        Ok(()) => text_of(tex, &tokens),
        Err(stop) => text_with_end(tex, &tokens, stop),
    }
}

fn expanded_over<F: Start, W: World>(tex: &mut Tex, world: &mut W) -> Result<Vec<u8>, AllocError>
    requires told { W.told world.old ≡ F.told }
{
    let mut library = Known::<F, &mut W>::new(world);
    expanded_by(tex, &mut library)
}

/// All that expansion leaves of a line over these files.
pub fn expanded<W: World>(tex: &mut Tex, world: &mut W) -> Result<Vec<u8>, AllocError> {
    expanded_over::<Brand, W>(tex, world)
}

fn whole_by<L: Library>(tex: &mut Tex, library: &mut L) -> Result<Number, Stop> {
    tex.gullet.take_number(&mut tex.site, library, Phrase::Int)
}

fn whole_over<F: Start, W: World>(tex: &mut Tex, world: &mut W) -> Result<Number, Stop>
    requires told { W.told world.old ≡ F.told }
{
    let mut library = Known::<F, &mut W>::new(world);
    whole_by(tex, &mut library)
}

/// The whole number that is taken, if one is.
fn whole<W: World>(tex: &mut Tex, world: &mut W) -> Result<Option<i32>, Stop> {
    match whole_over::<Brand, W>(tex, world) {
        Ok(Number::Int(value)) => Ok(Some(value)),
        Ok(_) => Ok(None),
        Err(stop) => Err(stop),
    }
}

/// The whole number that is taken, and what expansion leaves of the rest; no number where none was.
pub fn number_and_rest<W: World>(
    tex: &mut Tex,
    world: &mut W,
) -> Result<(Option<i32>, Vec<u8>), AllocError> {
    match whole(tex, world) {
        Ok(number) => Ok((number, expanded(tex, world)?)),
        Err(stop) => Ok((None, shown(tex.alloc, stop)?)),
    }
}

fn text_by<L: Library>(tex: &mut Tex, library: &mut L, expanded: bool) -> Result<TokenList, Stop> {
    if expanded {
        tex.gullet.expanded_text(&mut tex.site, library)
    } else {
        tex.gullet.take_general_text(&mut tex.site, library)
    }
}

fn text_over<F: Start, W: World>(
    tex: &mut Tex,
    world: &mut W,
    expanded: bool,
) -> Result<TokenList, Stop>
    requires told { W.told world.old ≡ F.told }
{
    let mut library = Known::<F, &mut W>::new(world);
    text_by(tex, &mut library, expanded)
}

fn text<W: World>(tex: &mut Tex, world: &mut W, expanded: bool) -> Result<TokenList, Stop> {
    text_over::<Brand, W>(tex, world, expanded)
}

/// The text in braces that is taken, as it stands or expanded, or the trouble in which it ends.
pub fn text_shown<W: World>(
    tex: &mut Tex,
    world: &mut W,
    expanded: bool,
) -> Result<Vec<u8>, AllocError> {
    match text(tex, world, expanded) {
        Ok(list) => text_of(tex, list.as_slice()),
        Err(stop) => text_with_end(tex, &[], stop),
    }
}

fn name_over<F: Start, W: World>(tex: &mut Tex, world: &mut W) -> Result<Vec<u8>, Stop>
    requires told { W.told world.old ≡ F.told }
{
    let mut library = Known::<F, &mut W>::new(world);
    tex.gullet.take_file_name(&mut tex.site, &mut library)
}

fn name<W: World>(tex: &mut Tex, world: &mut W) -> Result<Vec<u8>, Stop> {
    name_over::<Brand, W>(tex, world)
}

/// The name of a file that is taken, or the trouble in which it ends, and what expansion leaves of the rest.
pub fn name_and_rest<W: World>(
    tex: &mut Tex,
    world: &mut W,
) -> Result<(Vec<u8>, Vec<u8>), AllocError> {
    match name(tex, world) {
        Ok(name) => Ok((name, expanded(tex, world)?)),
        Err(stop) => Ok((text_with_end(tex, &[], stop)?, Vec::new(tex.alloc))),
    }
}

fn definition_by<L: Library>(
    tex: &mut Tex,
    library: &mut L,
    expanded: bool,
) -> Result<(TokenList, TokenList), Stop> {
    match tex.gullet.next_expanded(&mut tex.site, library) {
        Ok(_) => tex.gullet.take_definition(&mut tex.site, library, expanded),
        Err(stop) => Err(stop),
    }
}

fn definition_over<F: Start, W: World>(
    tex: &mut Tex,
    world: &mut W,
    expanded: bool,
) -> Result<(TokenList, TokenList), Stop>
    requires told { W.told world.old ≡ F.told }
{
    let mut library = Known::<F, &mut W>::new(world);
    definition_by(tex, &mut library, expanded)
}

fn definition<W: World>(
    tex: &mut Tex,
    world: &mut W,
    expanded: bool,
) -> Result<(TokenList, TokenList), Stop> {
    definition_over::<Brand, W>(tex, world, expanded)
}

/// The two texts of a macro with an arrow between them.
fn macro_text(tex: &Tex, parameters: &TokenList, body: &TokenList) -> Result<Vec<u8>, AllocError> {
    let mut text = text_of(tex, parameters.as_slice())?;
    text.extend_from_slice(b"->")?;
    let behind = text_of(tex, body.as_slice())?;
    text.extend_from_slice(&behind)?;
    Ok(text)
}

/// The definition behind the next token, or the trouble in which it ends.
pub fn definition_shown<W: World>(
    tex: &mut Tex,
    world: &mut W,
    expanded: bool,
) -> Result<Vec<u8>, AllocError> {
    match definition(tex, world, expanded) {
        Ok((parameters, body)) => macro_text(tex, &parameters, &body),
        Err(stop) => text_with_end(tex, &[], stop),
    }
}

/// The definition behind the next token, and what expansion leaves of the rest.
pub fn definition_and_rest<W: World>(
    tex: &mut Tex,
    world: &mut W,
    expanded: bool,
) -> Result<(Vec<u8>, Vec<u8>), AllocError> {
    let shown = definition_shown(tex, world, expanded)?;
    let rest = self::expanded(tex, world)?;
    Ok((shown, rest))
}
