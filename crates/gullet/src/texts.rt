//! The texts for which expansion is asked from outside (The TeXbook, chapters 20, 24 and 25; `tex.web`, part 27).
#![tactic(auto, using(asking::specs::Asked::asking), unfolding(crate::specs::Texts::take_file_name, crate::specs::Texts::take_general_text, crate::specs::Texts::expanded_text, crate::specs::Texts::take_definition))]

ghost use Rattle.std.specs.Prelude.{◌≡◌, IfOk};
ghost use Rattle.asking.specs.Seen.{DoesBeside, DoesBesideBy};
ghost use Rattle.gullet.specs.State.{state_of};
ghost use Rattle.gullet.specs.Texts.{take_file_name, take_general_text, expanded_text, take_definition, definition_told};
ghost use Rattle.gullet.specs.Wants.{text_told};

use crate::context::OUTERMOST;
use crate::gathering::tokens_told;
use crate::gullet::Gullet;
use crate::site::Site;
use crate::step::text_told;
use crate::task::{Task, Told};
use asking::Library;
use std::alloc::{AllocError, Global};
use tokens::{Stop, TokenList};

impl Gullet {
    /// The name of a file that comes next, before `.tex` is added: spaces in front of it are passed, and it ends before a
    /// space, which is taken, or before a token that is no character (`tex.web` 526).
    ///
    /// # Errors
    ///
    /// Those of `next_expanded`; where nothing is left, the run ends as without `\end`.
    pub fn take_file_name<L: Library>(
        &mut self,
        site: &mut Site,
        library: &mut L,
    ) -> Result<Vec<u8>, Stop>
        ensures does { DoesBesideBy (λ name. name.items) L.outside (L.seen library.old) (L.seen library.new) result (state_of self.new site.new)
            (take_file_name L.outside (state_of self.old site.old)) }
    {
        match self.read(site, library, OUTERMOST, Task::FileName) {
            Ok(told) => match bytes_told(self.alloc, told) {
                Ok(name) => Ok(name),
                Err(_) => Err(Stop::OutOfMemory),
            },
            Err(stop) => Err(stop),
        }
    }

    /// The tokens of the text in braces that comes next, as they stand. Spaces and `\relax` in front of the left brace are
    /// passed, and what expands there is expanded (The TeXbook, page 276).
    ///
    /// # Errors
    ///
    /// Those of `next_expanded`; where no left brace stands, where a file ends in the text or an outer macro stands in it, the
    /// troubles of these; more than 16,777,215 tokens; where nothing is left, the run ends as without `\end`.
    pub fn take_general_text<L: Library>(
        &mut self,
        site: &mut Site,
        library: &mut L,
    ) -> Result<TokenList, Stop>
        ensures does { DoesBeside L.outside (L.seen library.old) (L.seen library.new) result (state_of self.new site.new)
            (take_general_text L.outside (state_of self.old site.old)) }
    {
        match self.read(site, library, OUTERMOST, Task::Text { expanded: false }) {
            Ok(told) => Ok(tokens_told(told)),
            Err(stop) => Err(stop),
        }
    }

    /// The tokens that are left where the text in braces that comes next is expanded, as `\edef` reads it: a token that isn't
    /// to be expanded stands as it is, and so do the tokens of a list behind `\the`, which take no step.
    ///
    /// # Errors
    ///
    /// Those of `take_general_text`.
    pub fn expanded_text<L: Library>(
        &mut self,
        site: &mut Site,
        library: &mut L,
    ) -> Result<TokenList, Stop>
        ensures does { DoesBeside L.outside (L.seen library.old) (L.seen library.new) result (state_of self.new site.new)
            (expanded_text L.outside (state_of self.old site.old)) }
    {
        match self.read(site, library, OUTERMOST, Task::Text { expanded: true }) {
            Ok(told) => Ok(tokens_told(told)),
            Err(stop) => Err(stop),
        }
    }

    /// The parameter text and the text of the macro whose name stood in front, as `\def` reads them, or as `\edef` does
    /// where the text is to be expanded. Parameters are arguments of their numbers in both; a left brace behind a sign of
    /// parameters is the last token of both. The sign is whatever means a character of category 6; signs that come from a
    /// list behind `\the` in an expanded text stay as they are.
    ///
    /// # Errors
    ///
    /// Those of `take_general_text`, where a right brace stands in the parameter text that of a missing left brace; the
    /// trouble of a sign behind which stands nothing that may stand there, and of parameters out of order.
    pub fn take_definition<L: Library>(
        &mut self,
        site: &mut Site,
        library: &mut L,
        expanded: bool,
    ) -> Result<(TokenList, TokenList), Stop>
        ensures does { DoesBeside L.outside (L.seen library.old) (L.seen library.new) result (state_of self.new site.new)
            (take_definition L.outside expanded (state_of self.old site.old)) }
    {
        match self.read(site, library, OUTERMOST, Task::Definition { expanded }) {
            Ok(told) => Ok(definition_told(told)),
            Err(stop) => Err(stop),
        }
    }
}

/// The two texts that are told, empty ones where none are.
fn definition_told(told: Told) -> (TokenList, TokenList)
    ensures { result ≡ definition_told told }
{
    match told {
        Told::Definition { parameters, body } => (parameters, body),
        Told::Done
        | Told::Number(_)
        | Told::Word(_)
        | Told::Level(_)
        | Told::GoOn
        | Told::Text(_)
        | Told::Holds(_)
        | Told::Tokens(_) => (TokenList::empty(), TokenList::empty()),
    }
}

/// The bytes of the text that a phrase told.
fn bytes_told(alloc: Global, told: Told) -> Result<Vec<u8>, AllocError>
    ensures { IfOk result (λ bytes. bytes.items ≡ text_told told) }
{
    text_told(alloc, told).bytes().to_vec(alloc)
}
