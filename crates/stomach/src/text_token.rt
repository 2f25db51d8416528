//! The tokens of a text, in which no file may end (`tex.web` 336).
ghost use Rattle.std.specs.Prelude.{◌≡◌, ◌≤◌, ◌+◌, OnOk};
ghost use Rattle.asking.specs.Did.{Does, DoesBy, Ended};
ghost use Rattle.stomach.specs.TextToken.{text_event, text_token};
ghost use Rattle.stomach.specs.Work.{work};
ghost use Rattle.stomach.specs.declared.pending.Event.TheVariants.{FileEnd};

use crate::pending::Event;
use crate::state::State;
use tokens::{Kind, Stop, Token};

impl State {
    /// Takes the next token of a text.
    #[tactic(auto, unfolding(crate::specs::TextToken::text_token))]
    pub fn text_token(&mut self) -> Result<Token, Stop>
        ensures does { Does result self.new (text_token self.old) }
        ensures less { OnOk result (work self.new + 3 ≤ work self.old) }
    {
        match self.take() {
            Ok(Event::Token(token)) => Ok(token),
            Ok(Event::FileEnd) => self.end_in_text(),
            Err(stop) => Err(stop),
        }
    }

    /// The end of a run at the end of a file within a text.
    fn end_in_text(&mut self) -> Result<Token, Stop>
        ensures does { Does result self.new (text_event (FileEnd, self.old)) }
        ensures ends { OnOk result ⊥ }
    {
        match self.pass_file() {
            Ok(()) => Err(Stop::Trouble(Kind::FileEnded)),
            Err(_) => Err(Stop::OutOfMemory),
        }
    }
}
