//! The next token that isn't expanded, with its flag (The TeXbook, page 214; `tex.web` 358 and 380).
#![tactic(auto, using(asking::specs::Asked::asking), unfolding(crate::specs::Unexpandable::seek_once, crate::specs::Unexpandable::one_unexpandable))]

ghost use Rattle.std.specs.Prelude.{◌≡◌, is_some};
ghost use Rattle.asking.specs.Did.{Does};
ghost use Rattle.asking.specs.Seen.{DoesBeside};
ghost use Rattle.save_groups.specs.Standing.{copies_of};
ghost use Rattle.gullet.specs.Meanings.{expansion, taken_meaning};
ghost use Rattle.gullet.specs.Unexpandable.{next_unexpandable, one_unexpandable, seek_once, by_sight, by_expansion, expanded};
ghost use Rattle.gullet.specs.State.{state_of};

use crate::context::OUTERMOST;
use crate::gullet::Gullet;
use crate::meanings::{expansion_of, is_expanded};
use crate::site::Site;
use crate::task::Task;
use asking::Library;
use macro_args::takes_tokens;
use pending::Event;
use tokens::{Kind, Macro, Stop, Token};

/// What one look at what comes next found.
#[derive(Clone, Copy, Debug)]
pub(crate) enum Sought {
    /// A token that isn't expanded, and whether it isn't to be, though it would be.
    Token(Token, bool),
    /// Nothing is left.
    Nothing,
    /// A token was expanded, or a source has ended: it is looked at again.
    Again,
}

/// How many looks a call takes at most, as many as turns are counted.
const MOST_LOOKS: u64 = u64::MAX;

impl Gullet {
    /// The next token that isn't expanded, and whether it isn't to be, though it would be; None exactly where nothing is left.
    /// Behind the end of a source it goes on.
    ///
    /// # Errors
    ///
    /// What the document's expansion ends in: its troubles, more than 10,000 unfinished phrases, a macro's argument that
    /// is too long, more than fifteen open files, a line that is too long, steps that are used up, a file that can't be
    /// read, a terminal that can't be written, want of memory.
    #[tactic(auto, using(crate::proofs::Seeking::seeking))]
    pub fn next_unexpandable<L: Library>(
        &mut self,
        site: &mut Site,
        library: &mut L,
    ) -> Result<Option<(Token, bool)>, Stop>
        ensures does { DoesBeside L.outside (L.seen library.old) (L.seen library.new) result (state_of self.new site.new)
            (next_unexpandable L.outside (state_of self.old site.old)) }
    {
        let mut left = MOST_LOOKS;
        'looks: while left > 0 {
            left -= 1;
            match self.seek_once(site, library) {
                Ok(sought) => match sought {
                    Sought::Token(token, noexpand) => return Ok(Some((token, noexpand))),
                    Sought::Nothing => return Ok(None),
                    Sought::Again => {}
                },
                Err(stop) => return Err(stop),
            }
        }
        Err(Stop::OutOfMemory)
    }

    /// The same where a token has to come.
    ///
    /// # Errors
    ///
    /// Those of `next_unexpandable`; where nothing is left, the run ends as without `\end`.
    pub fn one_unexpandable<L: Library>(
        &mut self,
        site: &mut Site,
        library: &mut L,
    ) -> Result<(Token, bool), Stop>
        ensures does { DoesBeside L.outside (L.seen library.old) (L.seen library.new) result (state_of self.new site.new)
            (one_unexpandable L.outside (state_of self.old site.old)) }
    {
        match self.next_unexpandable(site, library) {
            Ok(Some(found)) => Ok(found),
            Ok(None) => Err(Stop::Trouble(Kind::NoEnd)),
            Err(stop) => Err(stop),
        }
    }

    /// One look at what comes next.
    fn seek_once<L: Library>(&mut self, site: &mut Site, library: &mut L) -> Result<Sought, Stop>
        ensures does { DoesBeside L.outside (L.seen library.old) (L.seen library.new) result (state_of self.new site.new)
            (seek_once L.outside (state_of self.old site.old)) }
    {
        match self.take_event(site) {
            Ok(event) => self.seek_event(site, library, event),
            Err(stop) => Err(stop),
        }
    }

    /// By what comes next.
    fn seek_event<L: Library>(
        &mut self,
        site: &mut Site,
        library: &mut L,
        event: Event,
    ) -> Result<Sought, Stop>
        ensures does { DoesBeside L.outside (L.seen library.old) (L.seen library.new) result (state_of self.new site.new)
            (by_sight L.outside (event, state_of self.old site.old)) }
    {
        match event {
            Event::Token { token, noexpand } => self.seek_token(site, library, token, noexpand),
            Event::Eof | Event::SourceEnd { .. } => Ok(Sought::Again),
            Event::Empty => Ok(Sought::Nothing),
        }
    }

    /// A token is answered, or its expansion is read.
    fn seek_token<L: Library>(
        &mut self,
        site: &mut Site,
        library: &mut L,
        token: Token,
        noexpand: bool,
    ) -> Result<Sought, Stop>
        ensures does { DoesBeside L.outside (L.seen library.old) (L.seen library.new) result (state_of self.new site.new)
            (by_expansion L.outside (token, noexpand) (expansion token (taken_meaning (copies_of site.old.env) token noexpand)) (state_of self.old site.old)) }
    {
        if !is_expanded(&site.env, token, noexpand) {
            return Ok(Sought::Token(token, noexpand));
        }
        match expansion_of(&site.env, token, noexpand) {
            Ok(Some(task)) => self.expand(site, library, task),
            Ok(None) => Ok(Sought::Token(token, noexpand)),
            Err(_) => Err(Stop::OutOfMemory),
        }
    }

    /// The expansion of a token is read, and what it puts in front is looked at.
    fn expand<L: Library>(
        &mut self,
        site: &mut Site,
        library: &mut L,
        task: Task,
    ) -> Result<Sought, Stop>
        ensures does { DoesBeside L.outside (L.seen library.old) (L.seen library.new) result (state_of self.new site.new)
            (expanded L.outside task (state_of self.old site.old)) }
    {
        match task {
            Task::Call { name, called } => self.expand_call(site, library, name, called),
            task => self.expand_phrase(site, library, task),
        }
    }

    /// The same of a macro's call. One without parameters takes no token: its text is put in front at once.
    fn expand_call<L: Library>(
        &mut self,
        site: &mut Site,
        library: &mut L,
        name: Token,
        called: Macro,
    ) -> Result<Sought, Stop>
        ensures does { DoesBeside L.outside (L.seen library.old) (L.seen library.new) result (state_of self.new site.new)
            (expanded L.outside (Task.Call name called) (state_of self.old site.old)) }
    {
        if takes_tokens(&called.params) {
            return self.expand_phrase(site, library, Task::Call { name, called });
        }
        match self.push_text(site, called.body, Vec::new(self.alloc)) {
            Ok(()) => Ok(Sought::Again),
            Err(_) => Err(Stop::OutOfMemory),
        }
    }

    /// The same of any phrase.
    fn expand_phrase<L: Library>(
        &mut self,
        site: &mut Site,
        library: &mut L,
        task: Task,
    ) -> Result<Sought, Stop>
        ensures does { DoesBeside L.outside (L.seen library.old) (L.seen library.new) result (state_of self.new site.new)
            (expanded L.outside task (state_of self.old site.old)) }
    {
        match self.read(site, library, OUTERMOST, task) {
            Ok(_) => Ok(Sought::Again),
            Err(stop) => Err(stop),
        }
    }
}
