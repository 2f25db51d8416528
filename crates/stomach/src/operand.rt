//! What is taken of all that is still to be read, and tokens that are put back (`tex.web` 325 and 336).
ghost use Rattle.std.specs.Prelude.{◌≡◌, ◌≤◌, ◌+◌, OnOk, IfOk, if◌then◌else◌};
ghost use Rattle.tokens.specs.TokenText.{token_shown};
ghost use Rattle.asking.specs.Did.{Does, DoesBy, Ended};
ghost use Rattle.stomach.specs.Operand.{
  take,
  token_by,
  token_turn,
  next_token,
  put_back,
  put_behind_relax,
  file_passed,
  left_out,
  wrong_operand,
  undefined,
};
ghost use Rattle.stomach.specs.Pending.{worth};
ghost use Rattle.stomach.specs.Work.{work};

use crate::pending::Event;
use crate::report;
use crate::start_values::{END_LINE_CHARACTER, ESCAPE_CHARACTER};
use crate::state::State;
use std::alloc::{AllocError, Global};
use tokens::{Kind, Stop, Text, Token, token_shown};

impl State {
    /// Takes what comes next.
    #[tactic(auto, unfolding(crate::specs::Operand::take))]
    pub fn take(&mut self) -> Result<Event, Stop>
        ensures does { Does result self.new (take self.old) }
        ensures less { IfOk result (λ event. work self.new + worth event ≤ work self.old) }
    {
        self.pending.next(
            &self.categories,
            END_LINE_CHARACTER,
            &mut self.names,
            &mut self.budget,
        )
    }

    /// Takes the next token, past the ends of files, each of which is shown.
    #[tactic(auto, using(crate::specs::Again::loops))]
    pub fn next_token(&mut self) -> Result<Token, Stop>
        ensures does { Does result self.new (next_token self.old) }
        ensures less { OnOk result (work self.new + 3 ≤ work self.old) }
    {
        let mut token = Token::Frozen(0);
        'files: loop {
            match self.token_turn(&mut token) {
                Ok(true) => {}
                Ok(false) => return Ok(token),
                Err(stop) => return Err(stop),
            }
        }
    }

    /// Takes a token, or passes the end of a file. The answer is whether a token is still wanted.
    #[tactic(auto, unfolding(crate::specs::Operand::token_turn))]
    fn token_turn(&mut self, token: &mut Token) -> Result<bool, Stop>
        ensures does { DoesBy (λ more. (more, token.new)) result self.new (token_turn token.old self.old) }
        ensures less { IfOk result (λ more. work self.new + (if more then 1 else 3) ≤ work self.old) }
    {
        match self.take() {
            Ok(event) => self.token_by(token, event),
            Err(stop) => Err(stop),
        }
    }

    fn token_by(&mut self, token: &mut Token, event: Event) -> Result<bool, Stop>
        ensures does { DoesBy (λ more. (more, token.new)) result self.new (token_by token.old (event, self.old)) }
        ensures same { OnOk result (work self.new ≡ work self.old) }
        ensures worth { IfOk result (λ more. worth event ≡ (if more then 1 else 3)) }
    {
        match event {
            Event::Token(taken) => {
                *token = taken;
                Ok(false)
            }
            Event::FileEnd => match self.pass_file() {
                Ok(()) => Ok(true),
                Err(_) => Err(Stop::OutOfMemory),
            },
        }
    }

    /// Shows the end of a file.
    pub fn pass_file(&mut self) -> Result<(), AllocError>
        ensures ok { OnOk result (self.new ≡ file_passed self.old) }
    {
        report::show_over(&mut self.printer)
    }

    /// Puts a token back, to be taken again without a step.
    pub fn put_back(&mut self, token: Token) -> Result<(), AllocError>
        ensures ok { OnOk result (self.new ≡ put_back token self.old) }
        ensures less { OnOk result (work self.new ≤ work self.old + 3) }
    {
        self.pending.put_back(token)
    }

    /// Puts a token back behind an inserted `\relax`, which takes a step.
    pub fn put_behind_relax(&mut self, token: Token) -> Result<(), AllocError>
        ensures ok { OnOk result (self.new ≡ put_behind_relax token self.old) }
        ensures less { OnOk result (work self.new ≤ work self.old + 2) }
    {
        self.pending.put_back(token)?;
        self.pending.insert(Token::Frozen(0))
    }

    /// The end of a run at something that this program leaves out.
    pub fn leave_out<T>(&mut self, alloc: Global, what: &[u8]) -> Result<T, Stop>
        ensures does { Does result self.new (left_out what.now self.old) }
        ensures ends { OnOk result ⊥ }
    {
        match what.to_vec(alloc) {
            Ok(what) => Err(Stop::Trouble(Kind::LeftOut(Text::new(what)))),
            Err(_) => Err(Stop::OutOfMemory),
        }
    }

    /// The end of a run at an operand of another form than those that this program reads.
    pub fn wrong_operand<T>(&mut self, alloc: Global) -> Result<T, Stop>
        ensures does { Does result self.new (wrong_operand self.old) }
        ensures ends { OnOk result ⊥ }
    {
        self.leave_out(alloc, b"operand")
    }

    /// The end of a run at a token without a meaning.
    pub fn undefined<T>(&mut self, alloc: Global, token: Token) -> Result<T, Stop>
        ensures does { Does result self.new (undefined token self.old) }
        ensures ends { OnOk result ⊥ }
    {
        match token_shown(alloc, token, &self.names, ESCAPE_CHARACTER) {
            Ok(shown) => Err(Stop::Trouble(Kind::UndefinedCs(Text::new(shown)))),
            Err(_) => Err(Stop::OutOfMemory),
        }
    }
}
