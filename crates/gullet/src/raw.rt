//! Tokens that are taken as they stand: `\noexpand`, `\string`, `\meaning` and `\ifx` (The TeXbook, pages 210 to 214;
//! `tex.web` 369, 472 and 507).
#![tactic(auto, using(asking::specs::Asked::asking), unfolding(crate::specs::RawToken::one_token, crate::specs::Acts::no_expand, crate::specs::Acts::show_token, crate::specs::Acts::show_meaning, crate::specs::Acts::compare_meanings))]

ghost use Rattle.std.specs.Prelude.{◌≡◌, ◌++◌, IfOk};
ghost use Rattle.scaled.specs.ArithmeticDecimals.{points_text};
ghost use Rattle.asking.specs.Did.{Does};
ghost use Rattle.save_groups.specs.Standing.{copies_of};
ghost use Rattle.gullet.specs.Acts.{no_expand, show_token, show_meaning, compare_meanings, is_named, string_text, text_of_meaning, is_marked, mean_same, same_flag};
ghost use Rattle.gullet.specs.FontText.{font_shown, at_size};
ghost use Rattle.gullet.specs.Meanings.{taken_meaning};
ghost use Rattle.gullet.specs.RawToken.{one_token};
ghost use Rattle.gullet.specs.State.{state_of};

use crate::acts::done;
use crate::facts::Facts;
use crate::gullet::Gullet;
use crate::meanings::{fixed_meaning, is_expanded, taken_meaning};
use crate::parameters::{categories, escape};
use crate::site::Site;
use crate::task::Told;
use save_groups::Env;
use scaled::points;
use std::alloc::{AllocError, Global};
use tfm::Metrics;
use tokens::{Kind, Meaning, NameTable, Stop, Token, meaning_text, token_shown};

/// A token as it stands, and whether it isn't to be expanded.
type Raw = (Token, bool);

impl Gullet {
    /// The next token as it stands. Where nothing is left, the run ends.
    pub fn one_token(&mut self, site: &mut Site) -> Result<Raw, Stop>
        ensures does { Does result (state_of self.new site.new) (one_token (state_of self.old site.old)) }
    {
        match self.next_raw(site) {
            Ok(Some(raw)) => Ok(raw),
            Ok(None) => Err(Stop::Trouble(Kind::NoEnd)),
            Err(stop) => Err(stop),
        }
    }

    /// The next token is put back, and isn't to be expanded.
    pub(crate) fn no_expand(&mut self, site: &mut Site) -> Result<Told, Stop>
        ensures does { Does result (state_of self.new site.new) (no_expand (state_of self.old site.old)) }
    {
        let (token, _) = self.one_token(site)?;
        done(self.pending.back(token, is_named(token), true))
    }

    /// The text of the next token is put in front.
    pub(crate) fn show_token(&mut self, site: &mut Site) -> Result<Told, Stop>
        ensures does { Does result (state_of self.new site.new) (show_token (state_of self.old site.old)) }
    {
        let (token, _) = self.one_token(site)?;
        let escape = escape(&site.env);
        match string_text(self.alloc, token, &site.names, escape) {
            Ok(text) => done(self.push_bytes(site, &text)),
            Err(_) => Err(Stop::OutOfMemory),
        }
    }

    /// The meaning of the next token is put in front.
    pub(crate) fn show_meaning(&mut self, site: &mut Site) -> Result<Told, Stop>
        ensures does { Does result (state_of self.new site.new) (show_meaning (state_of self.old site.old)) }
    {
        let (token, noexpand) = self.one_token(site)?;
        match self.text_of_meaning(site, token, noexpand) {
            Ok(text) => done(self.push_bytes(site, &text)),
            Err(_) => Err(Stop::OutOfMemory),
        }
    }

    /// The text of what a token means that was taken.
    fn text_of_meaning(
        &self,
        site: &Site,
        token: Token,
        noexpand: bool,
    ) -> Result<Vec<u8>, AllocError>
        ensures { IfOk result (λ text. text.items ≡ text_of_meaning (state_of self.now site.now) (taken_meaning (copies_of site.now.env) token noexpand)) }
    {
        let fixed = fixed_meaning(&site.env, token, noexpand);
        let meaning = taken_meaning(&site.env, &fixed, token, noexpand);
        let font = font_shown(self.alloc, meaning, &site.facts)?;
        let escape = escape(&site.env);
        meaning_text(
            self.alloc,
            meaning,
            &site.names,
            categories(&site.env),
            escape,
            &font,
        )
    }

    /// Takes two tokens, and tells whether they mean the same.
    pub(crate) fn compare_meanings(&mut self, site: &mut Site) -> Result<Told, Stop>
        ensures does { Does result (state_of self.new site.new) (compare_meanings (state_of self.old site.old)) }
    {
        let first = self.one_token(site)?;
        let second = self.one_token(site)?;
        Ok(Told::Holds(mean_same(&site.env, first, second)))
    }
}

/// Whether a token is a name or an active character.
fn is_named(token: Token) -> bool
    ensures { result ≡ is_named token }
{
    match token {
        Token::Active(_) | Token::Name(_) => true,
        Token::Char { .. } | Token::Arg(_) | Token::Frozen(_) => false,
    }
}

/// The text of a token: a name behind the escape character, and a character as it is.
pub fn string_text(
    alloc: Global,
    token: Token,
    names: &NameTable,
    escape: i32,
) -> Result<Vec<u8>, AllocError>
    ensures { IfOk result (λ text. text.items ≡ string_text names.now escape token) }
{
    match token {
        Token::Char { byte, .. } | Token::Active(byte) => [byte].to_vec(alloc),
        Token::Name(_) | Token::Arg(_) | Token::Frozen(_) => token_shown(
            alloc, token, names, escape,
        ),
    }
}

/// The size of a font, where that isn't the design size.
fn at_size(alloc: Global, metrics: &Option<Metrics>) -> Result<Vec<u8>, AllocError>
    ensures { IfOk result (λ text. text.items ≡ at_size metrics.now) }
{
    let Some(metrics) = metrics else {
        return Ok(Vec::new(alloc));
    };
    let size = metrics.size();
    if size == metrics.design() {
        Ok(Vec::new(alloc))
    } else {
        size_text(alloc, b" at ", size, b"pt")
    }
}

/// A size behind a word, with its unit.
fn size_text(alloc: Global, word: &[u8], size: i32, unit: &[u8]) -> Result<Vec<u8>, AllocError>
    ensures { IfOk result (λ text. text.items ≡ word.now ++ (points_text size ++ unit.now)) }
{
    let points = points(alloc, size)?;
    let mut text = word.to_vec(alloc)?;
    text.extend_from_slice(&points)?;
    text.extend_from_slice(unit)?;
    Ok(text)
}

/// The font that a meaning is, by its name and its size; nothing for any other meaning.
pub fn font_shown(alloc: Global, meaning: &Meaning, facts: &Facts) -> Result<Vec<u8>, AllocError>
    ensures { IfOk result (λ text. text.items ≡ font_shown meaning.now facts.now) }
{
    match meaning {
        Meaning::Font(font) => match facts.fonts.get(*font as usize) {
            None => Ok(Vec::new(alloc)),
            Some(font) => {
                let mut text = font.name.bytes().to_vec(alloc)?;
                text.extend_from_slice(&at_size(alloc, &font.metrics)?)?;
                Ok(text)
            }
        },
        Meaning::Undefined
        | Meaning::Primitive(_)
        | Meaning::Macro(_)
        | Meaning::Char { .. }
        | Meaning::CharDef(_)
        | Meaning::MathCharDef(_)
        | Meaning::Register { .. } => Ok(Vec::new(alloc)),
    }
}

/// Whether a token that was taken isn't to be expanded, though it would be.
#[tactic(auto, unfolding(crate::specs::Meanings::taken_meaning))]
pub fn is_marked(env: &Env, token: Token, noexpand: bool) -> bool
    ensures { result ≡ is_marked (copies_of env.now) token noexpand }
{
    noexpand && is_expanded(env, token, false)
}

/// Whether both flags are set, or none.
fn same_flag(a: bool, b: bool) -> bool
    ensures { result ≡ same_flag a b }
{
    if a { b } else { !b }
}

/// Whether two tokens that were taken mean the same.
fn mean_same(env: &Env, a: Raw, b: Raw) -> bool
    ensures { result ≡ mean_same (copies_of env.now) a b }
{
    let is_a_marked = is_marked(env, a.0, a.1);
    let is_b_marked = is_marked(env, b.0, b.1);
    let fixed_a = fixed_meaning(env, a.0, a.1);
    let fixed_b = fixed_meaning(env, b.0, b.1);
    same_flag(is_a_marked, is_b_marked)
        && taken_meaning(env, &fixed_a, a.0, a.1).is_same(taken_meaning(env, &fixed_b, b.0, b.1))
}
