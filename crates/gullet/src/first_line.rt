//! The first line of a run where it names a file (`tex.web` 1337).
#![tactic(auto, using(asking::specs::Asked::asking), unfolding(crate::specs::FirstLine::begun_line, crate::specs::FirstLine::name_first_line))]

ghost use Rattle.std.specs.Prelude.{◌≡◌};
ghost use Rattle.asking.specs.Did.{Does};
ghost use Rattle.gullet.specs.State.{state_of};
ghost use Rattle.gullet.specs.FirstLine.{begun_line, name_first_line};

use crate::gullet::Gullet;
use crate::parameters::end_line;
use crate::site::Site;
use tokens::{NameId, Stop, Token, codes};

impl Gullet {
    /// Takes the first line of a run, to be read as if `\input` stood in front of it: `\input` comes next, without a step.
    /// Blanks in front of the name are skipped. Nothing else was taken before.
    ///
    /// # Errors
    ///
    /// No step is left for the line; the line is too long; want of memory.
    pub fn name_first_line(&mut self, site: &mut Site) -> Result<(), Stop>
        ensures does { Does result (state_of self.new site.new) (name_first_line (state_of self.old site.old)) }
    {
        self.begin_line(site)?;
        let input = Token::Name(NameId(u64::from(codes::INPUT)));
        match self.put_back(site, input) {
            Ok(()) => Ok(()),
            Err(_) => Err(Stop::OutOfMemory),
        }
    }

    fn begin_line(&mut self, site: &mut Site) -> Result<(), Stop>
        ensures does { Does result (state_of self.new site.new) (begun_line (state_of self.old site.old)) }
    {
        let end_line = end_line(&site.env);
        match self.pending.begin_behind_name(end_line, &mut site.budget) {
            Ok(()) => Ok(()),
            Err(stop) => Err(stop),
        }
    }
}
