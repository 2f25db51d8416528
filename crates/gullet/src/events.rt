//! What comes next of all that is still to be read (`tex.web` 341 and 362).
#![tactic(auto, using(asking::specs::Asked::asking), unfolding(crate::specs::Events::next_event_of, crate::specs::Events::take_event))]

ghost use Rattle.std.specs.Prelude.{◌≡◌};
ghost use Rattle.asking.specs.Did.{Does};
ghost use Rattle.gullet.specs.State.{state_of};
ghost use Rattle.gullet.specs.Events.{next_event_of, take_event};

use crate::gullet::Gullet;
use crate::parameters::{categories, end_line, new_line};
use crate::report::show_over;
use crate::site::Site;
use pending::Event;
use tokens::Stop;

impl Gullet {
    /// Takes what comes next, and shows the end of a file.
    pub(crate) fn take_event(&mut self, site: &mut Site) -> Result<Event, Stop>
        ensures does { Does result (state_of self.new site.new) (take_event (state_of self.old site.old)) }
    {
        let event = self.next_event(site)?;
        if let Event::SourceEnd { printed: true } = event {
            let newline = new_line(&site.env);
            if show_over(&mut site.out, newline).is_err() {
                return Err(Stop::OutOfMemory);
            }
        }
        Ok(event)
    }

    // Taking asks for no file and shows nothing, so the two faults never come; the clause of `Pending::next` doesn't
    // say so.
    fn next_event(&mut self, site: &mut Site) -> Result<Event, Stop>
        ensures does { Does result (state_of self.new site.new) (next_event_of (state_of self.old site.old)) }
    {
        let end_line = end_line(&site.env);
        match self.pending.next(
            categories(&site.env),
            end_line,
            &mut site.names,
            &mut site.budget,
        ) {
            Ok(event) => Ok(event),
            Err(Stop::Trouble(kind)) => Err(Stop::Trouble(kind)),
            Err(Stop::Capacity(cap)) => Err(Stop::Capacity(cap)),
            Err(Stop::Spent) => Err(Stop::Spent),
            Err(Stop::ReadFault | Stop::WriteFault | Stop::OutOfMemory) => Err(Stop::OutOfMemory),
        }
    }
}
