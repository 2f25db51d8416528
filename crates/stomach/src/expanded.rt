//! The tokens of an operand, in front of which `\input` opens files (The TeXbook, page 215; `tex.web` 366, 378
//! and 380).
ghost use Rattle.std.specs.Prelude.{◌≡◌, ◌≤◌, ◌+◌, OnOk, IfOk, if◌then◌else◌};
ghost use Rattle.asking.specs.Did.{Does, DoesBy, Ended};
ghost use Rattle.asking.specs.Seen.{DoesBeside, DoesBesideBy};
ghost use Rattle.stomach.specs.Expanded.{expanded_by, expanded_turn, operand_token};
ghost use Rattle.stomach.specs.Work.{work};

use crate::command::is_input;
use crate::state::State;
use asking::Library;
use std::alloc::Global;
use tokens::{Stop, Token};

impl State {
    /// Takes the next token of an operand. Files that `\input` names in front of it are opened, and the ends of files
    /// are shown.
    #[tactic(auto, using(asking::specs::Leads::loops))]
    pub fn operand_token<L: Library>(
        &mut self,
        alloc: Global,
        library: &mut L,
    ) -> Result<Token, Stop>
        ensures does { DoesBeside L.outside (L.seen library.old) (L.seen library.new) result self.new (operand_token L.outside self.old) }
        ensures less { OnOk result (work self.new + 3 ≤ work self.old) }
    {
        let mut token = Token::Frozen(0);
        'files: loop {
            match self.expanded_turn(alloc, library, &mut token) {
                Ok(true) => {}
                Ok(false) => return Ok(token),
                Err(stop) => return Err(stop),
            }
        }
    }

    /// Takes a token, and opens a file at `\input`. The answer is whether a token is still wanted.
    #[tactic(auto, using(asking::specs::Asked::asking), unfolding(crate::specs::Expanded::expanded_turn))]
    fn expanded_turn<L: Library>(
        &mut self,
        alloc: Global,
        library: &mut L,
        token: &mut Token,
    ) -> Result<bool, Stop>
        ensures does { DoesBesideBy (λ more. (more, token.new)) L.outside (L.seen library.old) (L.seen library.new) result self.new
            (expanded_turn L.outside token.old self.old) }
        ensures less { IfOk result (λ more. work self.new + (if more then 1 else 3) ≤ work self.old) }
    {
        *token = self.next_token()?;
        if is_input(*token) {
            self.input(alloc, library)?;
            return Ok(true);
        }
        Ok(false)
    }
}
