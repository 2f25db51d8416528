//! `\message` (The TeXbook, page 279; `tex.web` 403, 473 to 479, 1279 and 1280).
ghost use Rattle.std.specs.Prelude.{◌≡◌, ◌≤◌, ◌<◌, OnOk};
ghost use Rattle.asking.specs.Did.{Does, DoesBy, Ended};
ghost use Rattle.asking.specs.Seen.{DoesBeside, DoesBesideBy};
ghost use Rattle.stomach.specs.Message.{
  brace_token,
  brace_turn,
  left_brace,
  text_turn,
  balanced_text,
  shown_text,
  message,
};
ghost use Rattle.stomach.specs.Work.{work};

use crate::command::{is_input, is_relax};
use crate::gather::GatheredText;
use crate::report;
use crate::start_values::ESCAPE_CHARACTER;
use crate::state::State;
use asking::Library;
use std::alloc::Global;
use tokens::{Stop, Token, tokens_text};

impl State {
    /// Carries `\message` out, behind its token.
    #[tactic(auto, using(asking::specs::Asked::asking), unfolding(crate::specs::Message::message))]
    pub fn message<L: Library>(&mut self, alloc: Global, library: &mut L) -> Result<(), Stop>
        ensures does { DoesBeside L.outside (L.seen library.old) (L.seen library.new) result self.new (message L.outside self.old) }
        ensures less { OnOk result (work self.new ≤ work self.old) }
    {
        self.left_brace(alloc, library)?;
        let text = self.balanced_text(alloc, library)?;
        self.show_text(alloc, text.tokens())
    }

    /// Shows a text, with room in front of it.
    #[tactic(auto, using(asking::specs::Asked::asking), unfolding(crate::specs::Message::shown_text))]
    fn show_text(&mut self, alloc: Global, tokens: &[Token]) -> Result<(), Stop>
        ensures does { Does result self.new (shown_text tokens.now self.old) }
        ensures same { work self.new ≡ work self.old }
    {
        let Ok(text) = tokens_text(
            alloc,
            tokens,
            &self.names,
            &self.categories,
            ESCAPE_CHARACTER,
        ) else {
            return Err(Stop::OutOfMemory);
        };
        match report::show_spaced(&mut self.printer, &text) {
            Ok(()) => Ok(()),
            Err(_) => Err(Stop::OutOfMemory),
        }
    }

    /// Passes spaces and `\relax`, up to a left brace. Files that `\input` names are opened.
    #[tactic(auto, using(asking::specs::Leads::loops))]
    fn left_brace<L: Library>(&mut self, alloc: Global, library: &mut L) -> Result<(), Stop>
        ensures does { DoesBeside L.outside (L.seen library.old) (L.seen library.new) result self.new (left_brace L.outside self.old) }
        ensures less { OnOk result (work self.new ≤ work self.old) }
    {
        'brace: loop {
            match self.brace_turn(alloc, library) {
                Ok(true) => {}
                Ok(false) => return Ok(()),
                Err(stop) => return Err(stop),
            }
        }
    }

    /// Takes a token in front of a text. The answer is whether a brace is still wanted.
    #[tactic(auto, using(asking::specs::Asked::asking), unfolding(crate::specs::Message::brace_turn))]
    fn brace_turn<L: Library>(&mut self, alloc: Global, library: &mut L) -> Result<bool, Stop>
        ensures does { DoesBesideBy (λ more. (more, tt)) L.outside (L.seen library.old) (L.seen library.new) result self.new
            (brace_turn L.outside tt self.old) }
        ensures less { OnOk result (work self.new < work self.old) }
    {
        let token = self.text_token()?;
        if is_input(token) {
            self.input(alloc, library)?;
            return Ok(true);
        }
        self.brace_token(alloc, token)
    }

    fn brace_token(&mut self, alloc: Global, token: Token) -> Result<bool, Stop>
        ensures does { DoesBy (λ more. (more, tt)) result self.new (brace_token (token, self.old)) }
        ensures same { OnOk result (self.new ≡ self.old) }
    {
        match token {
            Token::Char { cat, byte: _ } => {
                if cat == 10 {
                    Ok(true)
                } else if cat == 1 {
                    Ok(false)
                } else {
                    self.wrong_operand(alloc)
                }
            }
            Token::Active(_) => self.wrong_operand(alloc),
            Token::Name(id) => {
                if is_relax(id) {
                    Ok(true)
                } else {
                    self.wrong_operand(alloc)
                }
            }
            Token::Arg(_) => self.wrong_operand(alloc),
            Token::Frozen(_) => Ok(true),
        }
    }

    /// Takes the tokens up to the right brace of the text. Files that `\input` names are opened.
    #[tactic(auto, using(asking::specs::Leads::loops))]
    fn balanced_text<L: Library>(
        &mut self,
        alloc: Global,
        library: &mut L,
    ) -> Result<GatheredText, Stop>
        ensures does { DoesBeside L.outside (L.seen library.old) (L.seen library.new) result self.new
            (balanced_text L.outside self.old) }
        ensures less { OnOk result (work self.new ≤ work self.old) }
    {
        let mut text = GatheredText::new(alloc);
        'text: loop {
            match self.text_turn(alloc, library, &mut text) {
                Ok(true) => {}
                Ok(false) => return Ok(text),
                Err(stop) => return Err(stop),
            }
        }
    }

    /// Takes a token of a text. The answer is whether the text goes on.
    #[tactic(auto, using(asking::specs::Asked::asking), unfolding(crate::specs::Message::text_turn))]
    fn text_turn<L: Library>(
        &mut self,
        alloc: Global,
        library: &mut L,
        text: &mut GatheredText,
    ) -> Result<bool, Stop>
        ensures does { DoesBesideBy (λ more. (more, text.new)) L.outside (L.seen library.old) (L.seen library.new) result self.new
            (text_turn L.outside text.old self.old) }
        ensures less { OnOk result (work self.new < work self.old) }
    {
        let token = self.text_token()?;
        if is_input(token) {
            self.input(alloc, library)?;
            return Ok(true);
        }
        self.gather_token(alloc, text, token)
    }
}
