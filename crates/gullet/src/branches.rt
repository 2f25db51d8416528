//! What conditions do to what is open (The TeXbook, page 210; `tex.web` 495 to 510).
#![tactic(auto, using(asking::specs::Asked::asking), unfolding(crate::specs::Acts::open_condition, crate::specs::Acts::leave, crate::specs::Acts::meet))]

ghost use Rattle.std.specs.Prelude.{◌≡◌, OnOk};
ghost use Rattle.asking.specs.Did.{Does};
ghost use Rattle.gullet.specs.State.{state_of};
ghost use Rattle.gullet.specs.Acts.{open_condition, leave, meet, ends_branch, ends_condition, passed_extra, behind_relax, with_first_branch, without_condition, behind_else};

use crate::gullet::Gullet;
use crate::site::Site;
use crate::task::{BranchWord, Told};
use conditionals::Branch;
use std::alloc::AllocError;
use tokens::{Kind, Stop, Token};

impl Gullet {
    /// Opens a condition, and tells how many are open.
    pub(crate) fn open_condition(&mut self, site: &Site, kind: i8) -> Result<Told, Stop>
        ensures does { Does result (state_of self.new site.now) (open_condition kind (state_of self.old site.now)) }
    {
        let line = self.pending.line();
        match self.conditions.open(kind, line) {
            Ok(()) => Ok(Told::Level(self.conditions.level())),
            Err(_) => Err(Stop::OutOfMemory),
        }
    }

    /// The branch in front of `\else` is read of the condition that is so many deep.
    pub(crate) fn choose(&mut self, site: &Site, level: u32)
        ensures { state_of self.new site.now ≡ with_first_branch level (state_of self.old site.now) }
    {
        self.conditions.chosen_at(level, false);
    }

    /// The innermost condition ends.
    pub(crate) fn close(&mut self, site: &Site)
        ensures { state_of self.new site.now ≡ without_condition (state_of self.old site.now) }
    {
        if self.conditions.level() > 0 {
            self.conditions.close();
        }
    }
}

impl Gullet {
    /// A text was passed over to this word, 0 being `\fi` and 2 `\or`. The answer is whether there is more to pass over
    /// before the condition that is so many deep goes on or ends, or that its own `\or` was met.
    pub(crate) fn leave(&mut self, site: &Site, word: u8, level: u32) -> Result<Told, Stop>
        ensures does { Does result (state_of self.new site.now) (leave word level (state_of self.old site.now)) }
    {
        let is_inside = level < self.conditions.level();
        if word == 0 {
            self.close(site);
        }
        if is_inside {
            return Ok(Told::GoOn);
        }
        if word == 2 {
            return Ok(Told::Word(2));
        }
        if word != 0 {
            self.choose_last(site);
        }
        Ok(Told::Done)
    }

    /// The branch behind `\else` is read of the innermost condition.
    fn choose_last(&mut self, site: &Site)
        ensures { state_of self.new site.now ≡ behind_else (state_of self.old site.now) }
    {
        if self.conditions.level() > 0 {
            self.conditions.chosen(true);
        }
    }

    /// Carries out `\else`, `\or` or `\fi`.
    pub(crate) fn meet(
        &mut self,
        site: &mut Site,
        token: Token,
        word: BranchWord,
    ) -> Result<Told, Stop>
        ensures does { Does result (state_of self.new site.new) (meet token word (state_of self.old site.old)) }
    {
        match self.conditions.innermost() {
            None => self.pass_extra(site, word),
            Some(condition) => match condition.branch {
                Branch::Deciding => match self.insert_relax(site, token) {
                    Ok(()) => Ok(Told::Done),
                    Err(_) => Err(Stop::OutOfMemory),
                },
                Branch::BeforeElse => self.end_branch(site, word, condition.kind),
                Branch::BehindElse => self.end_condition(site, word),
            },
        }
    }

    /// Passes over a word that has no condition.
    fn pass_extra(&mut self, site: &mut Site, word: BranchWord) -> Result<Told, Stop>
        ensures does { Does result (state_of self.new site.new) (passed_extra word (state_of self.old site.old)) }
    {
        let kind = match word {
            BranchWord::Fi => Kind::ExtraFi,
            BranchWord::Else => Kind::ExtraElse,
            BranchWord::Or => Kind::ExtraOr,
        };
        self.pass(site, kind)?;
        Ok(Told::Done)
    }

    /// The word in the branch in front of `\else`.
    fn end_branch(&mut self, site: &mut Site, word: BranchWord, kind: i8) -> Result<Told, Stop>
        ensures does { Does result (state_of self.new site.new) (ends_branch word kind (state_of self.old site.old)) }
    {
        match word {
            BranchWord::Fi => {
                self.close(site);
                Ok(Told::Done)
            }
            BranchWord::Else => Ok(Told::GoOn),
            BranchWord::Or => {
                if kind == CASE || kind == -CASE {
                    Ok(Told::GoOn)
                } else {
                    self.pass_extra(site, word)
                }
            }
        }
    }

    /// The word in the branch behind `\else`.
    fn end_condition(&mut self, site: &mut Site, word: BranchWord) -> Result<Told, Stop>
        ensures does { Does result (state_of self.new site.new) (ends_condition word (state_of self.old site.old)) }
    {
        match word {
            BranchWord::Fi => {
                self.close(site);
                Ok(Told::Done)
            }
            BranchWord::Else | BranchWord::Or => self.pass_extra(site, word),
        }
    }

    /// Puts a token back behind a new `\relax`.
    pub(crate) fn insert_relax(&mut self, site: &Site, token: Token) -> Result<(), AllocError>
        ensures ok { OnOk result (state_of self.new site.now ≡ behind_relax token (state_of self.old site.now)) }
    {
        self.pending.back(token, false, true)?;
        self.pending.back(Token::Frozen(0), false, false)
    }
}

/// The number of `\ifcase` among the conditions.
const CASE: i8 = 17;
