//! Opening a file (The TeXbook, page 214; `tex.web` 537 and 538).
#![tactic(auto, using(asking::specs::Asked::asking), unfolding(crate::specs::Acts::begun, crate::specs::Acts::found, crate::specs::Acts::open_file, crate::specs::Acts::read_file))]

ghost use Rattle.std.specs.Prelude.{◌≡◌, OnOk, IfOk};
ghost use Rattle.asking.specs.Did.{Does, DoesBy, Ended};
ghost use Rattle.asking.specs.Seen.{DoesBeside, DoesBesideBy};
ghost use Rattle.gullet.specs.State.{state_of};
ghost use Rattle.gullet.specs.Acts.{with_job, is_no_output, with_asked, not_found, begun, found, open_file, read_file};

use crate::file_name::{dvi_of, file_of, job_of};
use crate::gullet::Gullet;
use crate::parameters::{end_line, new_line};
use crate::report::show_begun;
use crate::site::Site;
use crate::task::Told;
use asking::Library;
use std::alloc::AllocError;
use tokens::{Kind, Stop, Text};
use world::is_good_name;

impl Gullet {
    /// Opens the file that a name asks for.
    pub(crate) fn read_file<L: Library>(
        &mut self,
        site: &mut Site,
        library: &mut L,
        name: &[u8],
    ) -> Result<Told, Stop>
        ensures does { DoesBeside L.outside (L.seen library.old) (L.seen library.new) result (state_of self.new site.new)
            (read_file L.outside name.now (state_of self.old site.old)) }
    {
        let Ok(file) = file_of(self.alloc, name) else {
            return Err(Stop::OutOfMemory);
        };
        if self.name_job(site, &file).is_err() {
            return Err(Stop::OutOfMemory);
        }
        self.open_file(site, library, &file)
    }

    /// The first file that is asked for names the job.
    fn name_job(&mut self, site: &mut Site, file: &[u8]) -> Result<(), AllocError>
        ensures ok { OnOk result (state_of self.new site.new ≡ with_job file.now (state_of self.old site.old)) }
    {
        if site.facts.job.bytes().is_empty() {
            site.facts.job = Text::new(job_of(self.alloc, file)?);
        }
        Ok(())
    }

    /// Opens a file. A name that can't be read stands for no file, and isn't asked for outside.
    fn open_file<L: Library>(
        &mut self,
        site: &mut Site,
        library: &mut L,
        file: &[u8],
    ) -> Result<Told, Stop>
        ensures does { DoesBeside L.outside (L.seen library.old) (L.seen library.new) result (state_of self.new site.new)
            (open_file L.outside file.now (state_of self.old site.old)) }
    {
        let Ok(is_no_output) = self.is_no_output(site, file) else {
            return Err(Stop::OutOfMemory);
        };
        if !is_no_output || !is_good_name(file) {
            return self.not_found(site, file);
        }
        if self.keep_name(site, file).is_err() {
            return Err(Stop::OutOfMemory);
        }
        match library.fetch(self.alloc, &mut site.out, file) {
            Ok(Some(bytes)) => self.found(site, file, bytes),
            Ok(None) => self.not_found(site, file),
            Err(stop) => Err(stop),
        }
    }

    /// The name of the file that is asked for is kept.
    fn keep_name(&mut self, site: &mut Site, file: &[u8]) -> Result<(), AllocError>
        ensures ok { OnOk result (state_of self.new site.new ≡ with_asked file.now (state_of self.old site.old)) }
    {
        site.facts.asked = Text::new(file.to_vec(self.alloc)?);
        Ok(())
    }

    /// Whether a file isn't the DVI file that is being written.
    fn is_no_output(&self, site: &Site, file: &[u8]) -> Result<bool, AllocError>
        ensures { IfOk result (λ can. can ≡ is_no_output file.now (state_of self.now site.now)) }
    {
        if !site.facts.dvi_open {
            return Ok(true);
        }
        let dvi = dvi_of(self.alloc, site.facts.job.bytes())?;
        Ok(file != dvi.as_slice())
    }

    /// A file that is there.
    fn found(&mut self, site: &mut Site, file: &[u8], bytes: Vec<u8>) -> Result<Told, Stop>
        ensures does { Does result (state_of self.new site.new) (found file.now bytes.items (state_of self.old site.old)) }
    {
        let newline = new_line(&site.env);
        match show_begun(&mut site.out, file, newline) {
            Ok(()) => self.begin(site, bytes),
            Err(_) => Err(Stop::OutOfMemory),
        }
    }

    /// Begins to read a file with its first line.
    fn begin(&mut self, site: &mut Site, bytes: Vec<u8>) -> Result<Told, Stop>
        ensures does { Does result (state_of self.new site.new) (begun bytes.items (state_of self.old site.old)) }
    {
        let end_line = end_line(&site.env);
        match self.pending.push_file(bytes, end_line, &mut site.budget) {
            Ok(()) => Ok(Told::Done),
            Err(stop) => Err(stop),
        }
    }

    /// The end of a run at a file that isn't there.
    fn not_found(&mut self, site: &Site, file: &[u8]) -> Result<Told, Stop>
        ensures does { Does result (state_of self.new site.now) (not_found file.now (state_of self.old site.now)) }
    {
        match file.to_vec(self.alloc) {
            Ok(file) => Err(Stop::Trouble(Kind::FileNotFound(Text::new(file)))),
            Err(_) => Err(Stop::OutOfMemory),
        }
    }
}
