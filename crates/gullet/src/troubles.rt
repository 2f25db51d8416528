//! Troubles that are passed over (`tex.web`, part 6).
#![tactic(auto, using(asking::specs::Asked::asking), unfolding(crate::specs::Troubles::pass, crate::specs::Troubles::pass_undefined, crate::specs::Acts::refused))]

ghost use Rattle.std.specs.Prelude.{◌≡◌};
ghost use Rattle.asking.specs.Did.{Does};
ghost use Rattle.gullet.specs.State.{state_of};
ghost use Rattle.gullet.specs.Acts.{refused};
ghost use Rattle.gullet.specs.Troubles.{pass, pass_undefined};

use crate::gullet::Gullet;
use crate::parameters::{escape, new_line};
use crate::report::show_trouble;
use crate::site::Site;
use crate::task::Told;
use macro_args::Refusal;
use tokens::{Cap, Kind, Stop, Text, Token, token_shown};

/// So many troubles may be passed over between two ends of paragraphs.
const MOST_RECENT: u8 = 99;

impl Gullet {
    /// Passes a trouble over: tells it on a line of its own, and counts it. The hundredth since the last end of a
    /// paragraph ends the run.
    pub fn pass(&mut self, site: &mut Site, kind: Kind) -> Result<(), Stop>
        ensures does { Does result (state_of self.new site.new) (pass kind (state_of self.old site.old)) }
    {
        if site.passed.recent >= MOST_RECENT {
            return Err(Stop::Trouble(kind));
        }
        let newline = new_line(&site.env);
        let Ok(text) = kind.text(self.alloc) else {
            return Err(Stop::OutOfMemory);
        };
        if show_trouble(&mut site.out, &text, newline).is_err() {
            return Err(Stop::OutOfMemory);
        }
        site.passed.total = site.passed.total.saturating_add(1);
        site.passed.recent += 1;
        Ok(())
    }

    /// Passes over a token without meaning.
    pub fn pass_undefined(&mut self, site: &mut Site, token: Token) -> Result<(), Stop>
        ensures does { Does result (state_of self.new site.new) (pass_undefined token (state_of self.old site.old)) }
    {
        let escape = escape(&site.env);
        match token_shown(self.alloc, token, &site.names, escape) {
            Ok(text) => self.pass(site, Kind::UndefinedCs(Text::new(text))),
            Err(_) => Err(Stop::OutOfMemory),
        }
    }

    /// Ends the run at tokens that are no use of a macro.
    pub(crate) fn refuse(
        &mut self,
        site: &Site,
        name: Token,
        refusal: Refusal,
    ) -> Result<Told, Stop>
        ensures does { Does result (state_of self.new site.now) (refused name refusal (state_of self.old site.now)) }
    {
        let escape = escape(&site.env);
        match token_shown(self.alloc, name, &site.names, escape) {
            Ok(text) => Err(match refusal {
                Refusal::NoMatch => Stop::Trouble(Kind::UseDoesntMatch(Text::new(text))),
                Refusal::ExtraBrace => Stop::Trouble(Kind::ExtraBrace(Text::new(text))),
                Refusal::ParagraphEnded => Stop::Trouble(Kind::ParagraphEnded(Text::new(text))),
                Refusal::TooLong => Stop::Capacity(Cap::Items),
            }),
            Err(_) => Err(Stop::OutOfMemory),
        }
    }
}
