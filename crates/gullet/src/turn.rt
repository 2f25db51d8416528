//! One turn of a phrase: what it wants is taken, or done (The TeXbook, chapter 20; `tex.web` 341 to 366).
#![tactic(auto, using(asking::specs::Asked::asking), unfolding(crate::specs::Expansion::raw_found, crate::specs::Expansion::expanded_found, crate::specs::Expansion::character_found, crate::specs::Expansion::next_found, crate::specs::Expansion::by_want))]

ghost use Rattle.std.specs.Prelude.{◌≡◌, IfOk};
ghost use Rattle.asking.specs.Did.{DoesBy, Ended};
ghost use Rattle.asking.specs.Seen.{DoesBesideBy};
ghost use Rattle.save_groups.specs.Standing.{copies_of};
ghost use Rattle.gullet.specs.Expansion.{Turned as Outcome, by_event, by_want, character_of, next_found, raw_found, expanded_found, forbidden};
ghost use Rattle.gullet.specs.Meanings.{taken_meaning};
ghost use Rattle.gullet.specs.State.{state_of};
ghost use Rattle.gullet.specs.Turned.{finding, found_of, want_of, Fits};

use crate::context::Context;
use crate::gullet::Gullet;
use crate::meanings::{expansion_of, is_outer_token};
use crate::parameters::escape;
use crate::site::Site;
use crate::task::{Task, Told, Want};
use asking::Library;
use pending::Event;
use tokens::{Kind, NameTable, Stop, Text, Token, token_shown};

/// What a turn found.
#[derive(Drop)]
pub(crate) enum Turned {
    /// A token was taken, which has the meaning of the token `of`. Where that isn't to be expanded it is `\relax`.
    Token {
        token: Token,
        of: Token,
        noexpand: bool,
    },
    /// Something was done that tells this.
    Told(Told),
    /// The phrase goes on as it was.
    Again,
    /// An inner phrase is read first, and what it tells is taken.
    Inner(Task),
    /// An inner phrase is read first, and the phrase goes on as it was.
    Aside(Task),
    /// The phrase ends.
    Ends(Told),
}

/// In which way a token is taken.
#[derive(Clone, Copy, Debug)]
pub(crate) enum Taking {
    /// As it stands.
    Raw,
    /// Where it is expanded, its expansion is read first.
    Expanded,
    /// As it stands, a name of one byte as its character.
    Character,
}

impl Gullet {
    /// Does one turn of a phrase by what it wants.
    pub(crate) fn turn<L: Library>(
        &mut self,
        site: &mut Site,
        library: &mut L,
        context: Context,
        want: Want,
    ) -> Result<Turned, Stop>
        ensures does { DoesBesideBy (found_of (copies_of site.new.env)) L.outside (L.seen library.old) (L.seen library.new) result (state_of self.new site.new)
            (by_want L.outside context (state_of self.old site.old) want) }
        ensures fits { IfOk result (λ found. Fits found want) }
    {
        match want {
            Want::Raw => self.take(site, context, Taking::Raw),
            Want::Expanded => self.take(site, context, Taking::Expanded),
            Want::Character => self.take(site, context, Taking::Character),
            Want::Act(act) => match self.perform(site, library, act) {
                Ok(told) => Ok(Turned::Told(told)),
                Err(stop) => Err(stop),
            },
            Want::Inner(task) => Ok(Turned::Inner(task)),
            Want::Gives { told, back } => match self.put_back_some(site, back) {
                Ok(()) => Ok(Turned::Ends(told)),
                Err(_) => Err(Stop::OutOfMemory),
            },
            Want::Wrong(kind) => Err(Stop::Trouble(kind)),
        }
    }

    /// Takes what comes next.
    fn take(&mut self, site: &mut Site, context: Context, taking: Taking) -> Result<Turned, Stop>
        ensures does { DoesBy (found_of (copies_of site.new.env)) result (state_of self.new site.new)
            (next_found context (finding context taking) (state_of self.old site.old)) }
        ensures fits { IfOk result (λ found. Fits found (want_of taking)) }
    {
        match self.take_event(site) {
            Ok(event) => self.found_event(site, context, taking, event),
            Err(stop) => Err(stop),
        }
    }

    /// By what came next. Where nothing is left, the run ends.
    fn found_event(
        &self,
        site: &Site,
        context: Context,
        taking: Taking,
        event: Event,
    ) -> Result<Turned, Stop>
        ensures does { DoesBy (found_of (copies_of site.now.env)) result (state_of self.now site.now)
            (by_event context (finding context taking) (event, state_of self.now site.now)) }
        ensures fits { IfOk result (λ found. Fits found (want_of taking)) }
    {
        match event {
            Event::Token { token, noexpand } => self.found_token(
                site, context, taking, token, noexpand,
            ),
            Event::Eof => Ok(Turned::Again),
            Event::SourceEnd { printed } => {
                if printed && context.closed {
                    Err(Stop::Trouble(Kind::FileEnded))
                } else {
                    Ok(Turned::Again)
                }
            }
            Event::Empty => Err(Stop::Trouble(Kind::NoEnd)),
        }
    }

    /// A token came next.
    fn found_token(
        &self,
        site: &Site,
        context: Context,
        taking: Taking,
        token: Token,
        noexpand: bool,
    ) -> Result<Turned, Stop>
        ensures does { DoesBy (found_of (copies_of site.now.env)) result (state_of self.now site.now)
            (finding context taking token (taken_meaning (copies_of site.now.env) token noexpand) (state_of self.now site.now)) }
        ensures fits { IfOk result (λ found. Fits found (want_of taking)) }
    {
        match taking {
            Taking::Raw => self.found_raw(site, context, token, token, noexpand),
            Taking::Expanded => self.found_expanded(site, context, token, noexpand),
            Taking::Character => {
                let character = character_of(&site.names, token);
                self.found_raw(site, context, character, token, noexpand)
            }
        }
    }

    /// A token is taken as it stands, with the meaning of the token `of`.
    fn found_raw(
        &self,
        site: &Site,
        context: Context,
        token: Token,
        of: Token,
        noexpand: bool,
    ) -> Result<Turned, Stop>
        ensures does { DoesBy (found_of (copies_of site.now.env)) result (state_of self.now site.now)
            (raw_found context token (taken_meaning (copies_of site.now.env) of noexpand) (state_of self.now site.now)) }
        ensures token { IfOk result (λ found. found ≡ Turned.Token token of noexpand) }
    {
        if context.closed && is_outer_token(&site.env, of, noexpand) {
            return Err(self.forbidden(site, token));
        }
        Ok(Turned::Token {
            token,
            of,
            noexpand,
        })
    }

    /// A token is taken, where it isn't expanded.
    fn found_expanded(
        &self,
        site: &Site,
        context: Context,
        token: Token,
        noexpand: bool,
    ) -> Result<Turned, Stop>
        ensures does { DoesBy (found_of (copies_of site.now.env)) result (state_of self.now site.now)
            (expanded_found context token (taken_meaning (copies_of site.now.env) token noexpand) (state_of self.now site.now)) }
        ensures fits { IfOk result (λ found. Fits found Want.Expanded) }
    {
        if context.closed && is_outer_token(&site.env, token, noexpand) {
            return Err(self.forbidden(site, token));
        }
        match expansion_of(&site.env, token, noexpand) {
            Ok(Some(task)) => Ok(Turned::Aside(task)),
            Ok(None) => Ok(Turned::Token {
                token,
                of: token,
                noexpand,
            }),
            Err(_) => Err(Stop::OutOfMemory),
        }
    }

    /// The end of the run at an outer macro that may not stand here.
    fn forbidden(&self, site: &Site, token: Token) -> Stop
        ensures { Ended {A = Outcome} result (state_of self.now site.now) (forbidden token (state_of self.now site.now)) }
    {
        let escape = escape(&site.env);
        match token_shown(self.alloc, token, &site.names, escape) {
            Ok(text) => Stop::Trouble(Kind::ForbiddenOuter(Text::new(text))),
            Err(_) => Stop::OutOfMemory,
        }
    }
}

/// The category of characters that are neither letters nor special.
const OTHER: u8 = 12;

/// A name of one byte as its character; any other token as it stands.
fn character_of(names: &NameTable, token: Token) -> Token
    ensures { result ≡ character_of names.now token }
{
    match token {
        Token::Name(id) if id.0 < names.len() => match names.text(id) {
            [byte] => Token::Char {
                cat: OTHER,
                byte: *byte,
            },
            _ => token,
        },
        _ => token,
    }
}
