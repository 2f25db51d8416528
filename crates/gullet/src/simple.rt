//! Names of which one thing is done, and what is asked of the run (The TeXbook, chapter 20; `tex.web` 378, 470 and 501).
#![tactic(auto, using(asking::specs::Asked::asking), unfolding(crate::specs::Acts::simply))]

ghost use Rattle.std.specs.Prelude.{◌≡◌, OnOk};
ghost use Rattle.asking.specs.Did.{Does};
ghost use Rattle.gullet.specs.State.{state_of};
ghost use Rattle.gullet.specs.Acts.{is_vertical, is_inner, is_in_mode, mode_holds, with_any_job, with_job_name, simply};

use crate::acts::done;
use crate::facts::{Facts, Mode};
use crate::gullet::Gullet;
use crate::site::Site;
use crate::task::{ModeTest, Simple, Told};
use std::alloc::AllocError;
use tokens::{Stop, Text};

fn is_vertical(mode: Mode) -> bool
    ensures { result ≡ is_vertical mode }
{
    match mode {
        Mode::Vertical | Mode::InternalVertical => true,
        Mode::Horizontal | Mode::RestrictedHorizontal => false,
    }
}

fn is_inner(mode: Mode) -> bool
    ensures { result ≡ is_inner mode }
{
    match mode {
        Mode::InternalVertical | Mode::RestrictedHorizontal => true,
        Mode::Vertical | Mode::Horizontal => false,
    }
}

fn is_in_mode(asked: ModeTest, mode: Mode) -> bool
    ensures { result ≡ is_in_mode asked mode }
{
    match asked {
        ModeTest::Vertical => is_vertical(mode),
        ModeTest::Horizontal => !is_vertical(mode),
        ModeTest::Math => false,
        ModeTest::Inner => is_inner(mode),
    }
}

/// Whether the mode that is in force is one of those that are asked for. While a `\write` is carried out none is in force.
pub fn mode_holds(asked: ModeTest, facts: &Facts) -> bool
    ensures { result ≡ mode_holds asked facts.now }
{
    !facts.in_write && is_in_mode(asked, facts.mode)
}

impl Gullet {
    /// Does the one thing of a name.
    pub(crate) fn simply(&mut self, site: &mut Site, simple: Simple) -> Result<Told, Stop>
        ensures does { Does result (state_of self.new site.new) (simply simple (state_of self.old site.old)) }
    {
        match simple {
            Simple::EndInput => {
                self.pending.end_input();
                Ok(Told::Done)
            }
            Simple::NoExpand => self.no_expand(site),
            Simple::TokenText => self.show_token(site),
            Simple::MeaningText => self.show_meaning(site),
            Simple::JobName => done(self.show_job(site)),
        }
    }

    /// The name of the job is put in front.
    fn show_job(&mut self, site: &mut Site) -> Result<(), AllocError>
        ensures ok { OnOk result (state_of self.new site.new ≡ with_job_name (with_any_job (state_of self.old site.old))) }
    {
        self.name_any_job(site)?;
        self.push_bytes(site, site.facts.job.bytes())
    }

    /// The job has a name from here on.
    fn name_any_job(&mut self, site: &mut Site) -> Result<(), AllocError>
        ensures ok { OnOk result (state_of self.new site.new ≡ with_any_job (state_of self.old site.old)) }
    {
        if site.facts.job.bytes().is_empty() {
            site.facts.job = Text::new(b"texput".to_vec(self.alloc)?);
        }
        Ok(())
    }
}
