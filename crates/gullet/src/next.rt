//! The next token, with expansion or as it stands, and the next number (The TeXbook, chapters 20 and 24; `tex.web` 341, 380
//! and 440).
#![tactic(auto, using(asking::specs::Asked::asking), unfolding(crate::specs::Next::next_expanded, crate::specs::Next::take_number))]

ghost use Rattle.std.specs.Prelude.{◌≡◌, is_some};
ghost use Rattle.asking.specs.Did.{Does};
ghost use Rattle.asking.specs.Seen.{DoesBeside};
ghost use Rattle.scan_nums.specs.declared.verdict.Phrase.{Phrase};
ghost use Rattle.save_groups.specs.Standing.{copies_of};
ghost use Rattle.gullet.specs.Expansion.{outcome, outermost};
ghost use Rattle.gullet.specs.Meanings.{expansion, meaning_of};
ghost use Rattle.gullet.specs.RawToken.{is_end, raw_of, next_raw};
ghost use Rattle.gullet.specs.Next.{next_expanded, take_number, as_taken, token_taken};
ghost use Rattle.gullet.specs.State.{state_of};
ghost use Rattle.gullet.specs.Wants.{number_told};

use crate::context::OUTERMOST;
use crate::gullet::Gullet;
use crate::meanings::is_expanded;
use crate::site::Site;
use crate::task::{Task, Told};
use asking::Library;
use pending::Event;
use save_groups::Env;
use scan_nums::{Number, Phrase};
use tokens::{Stop, Token};

impl Gullet {
    /// The next token as it stands, and whether it isn't to be expanded; None exactly where nothing is left. Behind the
    /// end of a source it goes on.
    ///
    /// # Errors
    ///
    /// A byte that can't be read, a line that is too long, steps that are used up, want of memory.
    #[tactic(auto, using(crate::proofs::Seeking::passing))]
    pub fn next_raw(&mut self, site: &mut Site) -> Result<Option<(Token, bool)>, Stop>
        ensures does { Does result (state_of self.new site.new) (next_raw (state_of self.old site.old)) }
    {
        'ends: loop {
            match self.take_event(site) {
                Ok(event) => {
                    if !is_end(event) {
                        return Ok(raw_of(event));
                    }
                }
                Err(stop) => return Err(stop),
            }
        }
    }

    /// The next token that isn't expanded; None exactly where nothing is left. Behind the end of a source it goes on. A
    /// token that isn't to be expanded is answered as `\relax`.
    ///
    /// # Errors
    ///
    /// Those of `next_unexpandable`.
    pub fn next_expanded<L: Library>(
        &mut self,
        site: &mut Site,
        library: &mut L,
    ) -> Result<Option<Token>, Stop>
        ensures does { DoesBeside L.outside (L.seen library.old) (L.seen library.new) result (state_of self.new site.new)
            (next_expanded L.outside (state_of self.old site.old)) }
    {
        match self.next_unexpandable(site, library) {
            Ok(found) => Ok(token_taken(&site.env, found)),
            Err(stop) => Err(stop),
        }
    }

    /// The number that comes next, with the tokens that belong to it taken. `phrase` says which kind is wanted; for now
    /// only whole numbers are read.
    ///
    /// # Errors
    ///
    /// Those of `next_expanded`; where nothing is left, the run ends as without `\end`.
    pub fn take_number<L: Library>(
        &mut self,
        site: &mut Site,
        library: &mut L,
        phrase: Phrase,
    ) -> Result<Number, Stop>
        requires whole { phrase ≡ Phrase.Int }
        ensures does { DoesBeside L.outside (L.seen library.old) (L.seen library.new) result (state_of self.new site.new)
            (take_number L.outside (state_of self.old site.old)) }
    {
        match self.read(site, library, OUTERMOST, task_of(phrase)) {
            Ok(told) => Ok(number_told(told)),
            Err(stop) => Err(stop),
        }
    }
}

/// Whether an event is an end, behind which something may be left.
fn is_end(event: Event) -> bool
    ensures { result ≡ is_end event }
{
    match event {
        Event::Eof | Event::SourceEnd { .. } => true,
        Event::Token { .. } | Event::Empty => false,
    }
}

/// The token that came next, if one did.
fn raw_of(event: Event) -> Option<(Token, bool)>
    ensures { result ≡ raw_of event }
{
    match event {
        Event::Token { token, noexpand } => Some((token, noexpand)),
        Event::Eof | Event::SourceEnd { .. } | Event::Empty => None,
    }
}

/// A token that isn't to be expanded is `\relax` to whoever takes it, where it would be expanded.
#[tactic(auto, unfolding(crate::specs::Meanings::taken_meaning))]
fn as_taken(env: &Env, token: Token, noexpand: bool) -> Token
    ensures { result ≡ as_taken (copies_of env.now) token noexpand }
{
    if noexpand && is_expanded(env, token, false) {
        Token::Frozen(0)
    } else {
        token
    }
}

/// The same of a token that was found, if there is one.
fn token_taken(env: &Env, found: Option<(Token, bool)>) -> Option<Token>
    ensures { result ≡ token_taken (copies_of env.now) found }
{
    match found {
        None => None,
        Some((token, noexpand)) => Some(as_taken(env, token, noexpand)),
    }
}

/// The phrase that reads a number of this kind.
fn task_of(phrase: Phrase) -> Task
    requires { phrase ≡ Phrase.Int }
    ensures { result ≡ Task.WholeNumber }
{
    match phrase {
        Phrase::Int => Task::WholeNumber,
        Phrase::Dimen | Phrase::Mu | Phrase::Glue | Phrase::MuGlue | Phrase::Expr(_) =>
            unreachable!(),
    }
}

/// The number that a phrase told.
fn number_told(told: Told) -> Number
    ensures { result ≡ number_told told }
{
    match told {
        Told::Number(number) => number,
        Told::Done
        | Told::Word(_)
        | Told::Level(_)
        | Told::GoOn
        | Told::Text(_)
        | Told::Holds(_)
        | Told::Tokens(_)
        | Told::Definition { .. } => Number::Int(0),
    }
}
