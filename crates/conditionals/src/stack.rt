//! The conditions that are open, one in another (`tex.web` 489 and 495 to 497).
ghost use Rattle.std.specs.Prelude.{◌≡◌, ◌<◌, [], ◌∷◌, length, min, reverse, OnOk, OnErr};
ghost use Rattle.conditionals.specs.Conditions.{condition_of, with_branch, with_branch_at, with_chosen, with_chosen_at, branch_by, without_innermost, innermost, innermost_kind, innermost_branch, branch_number};

use std::alloc::{AllocError, Global};
use std::marker::Model;

/// Which branch of a condition is read.
#[derive(Clone, Copy, Debug, PartialEq, Eq)]
pub enum Branch {
    /// None yet: the condition is being decided.
    Deciding,
    BeforeElse,
    BehindElse,
}

impl Branch {
    fn behind_else(is_behind: bool) -> Branch
        ensures { result ≡ branch_by is_behind }
    {
        if is_behind {
            Branch::BehindElse
        } else {
            Branch::BeforeElse
        }
    }

    /// The number that `\currentifbranch` shows.
    fn number(self) -> i8
        ensures { result ≡ branch_number self }
    {
        match self {
            Branch::Deciding => 0,
            Branch::BeforeElse => 1,
            Branch::BehindElse => -1,
        }
    }
}

/// A condition that is open.
#[derive(Clone, Copy, Debug)]
pub struct Condition {
    /// The number that `\currentiftype` shows: negative after `\unless`.
    pub kind: i8,
    /// The line in which it began.
    pub line: u32,
    pub branch: Branch,
}

/// The conditions that are open. Contracts see them as a list, the innermost first.
#[derive(Drop)]
pub struct IfStack {
    // The innermost one stands last.
    conditions: Vec<Condition>,
}

impl Model for IfStack {
    ghost use Rattle.std.specs.Prelude.{List, reverse};
    ghost use Rattle.conditionals.specs.declared.stack.Condition.{Condition};

    ghost Value = { List Condition };

    ghost view = { λ stack. reverse stack.conditions.items };
}

impl IfStack {
    /// No condition is open.
    pub fn new(alloc: Global) -> IfStack
        ensures { result ≡ [] }
    {
        IfStack {
            conditions: Vec::new(alloc),
        }
    }

    /// Opens a condition, which is being decided from here on.
    pub fn open(&mut self, kind: i8, line: u32) -> Result<(), AllocError>
        ensures ok { OnOk result (self.new ≡ condition_of kind line ∷ self.old) }
        ensures err { OnErr result (self.new ≡ self.old) }
    {
        self.conditions.push(Condition {
            kind,
            line,
            branch: Branch::Deciding,
        })?;
        Ok(())
    }

    /// The branch of the innermost condition is chosen: the one behind its `\else`, or another.
    pub fn chosen(&mut self, after_else: bool)
        requires { 0 < length self.old }
        ensures { self.new ≡ with_chosen after_else self.old }
    {
        let branch = Branch::behind_else(after_else);
        choose(&mut self.conditions, branch);
    }

    /// The branch is chosen of the condition that is so many deep, counted from 1 for the outermost. Where there is
    /// none, nothing changes.
    pub fn chosen_at(&mut self, level: u32, after_else: bool)
        ensures { self.new ≡ with_chosen_at level after_else self.old }
    {
        if let Some(place) = level.checked_sub(1) {
            choose_at(
                &mut self.conditions,
                place as usize,
                Branch::behind_else(after_else),
            );
        }
    }

    /// Closes the innermost condition.
    pub fn close(&mut self)
        requires { 0 < length self.old }
        ensures { self.new ≡ without_innermost self.old }
    {
        let _ = self.conditions.pop();
    }

    /// How many conditions are open, up to the last number of the type.
    pub fn level(&self) -> u32
        ensures { result ≡ min (length self.now) 4294967295 }
    {
        u32::try_from(self.conditions.len()).unwrap_or(u32::MAX)
    }

    /// The innermost condition.
    pub fn innermost(&self) -> Option<Condition>
        ensures { result ≡ innermost self.now }
    {
        match self.conditions.last() {
            None => None,
            Some(condition) => Some(*condition),
        }
    }

    /// The kind of the innermost condition, 0 where none is open.
    pub fn kind(&self) -> i8
        ensures { result ≡ innermost_kind self.now }
    {
        match self.conditions.last() {
            None => 0,
            Some(innermost) => innermost.kind,
        }
    }

    /// The branch of the innermost condition, as `\currentifbranch` shows it: 1 before its `\else`, -1
    /// behind it, and 0 while it is decided or where none is open.
    pub fn branch(&self) -> i8
        ensures { result ≡ innermost_branch self.now }
    {
        match self.conditions.last() {
            None => 0,
            Some(innermost) => innermost.branch.number(),
        }
    }
}

fn choose_at(conditions: &mut Vec<Condition>, place: usize, branch: Branch)
    ensures { conditions.new.items ≡ with_branch_at branch place conditions.old.items }
{
    if place < conditions.len() {
        conditions[place].branch = branch;
    }
}

fn choose(conditions: &mut Vec<Condition>, branch: Branch)
    ensures { reverse conditions.new.items ≡ with_branch branch (reverse conditions.old.items) }
{
    if let Some(last) = conditions.len().checked_sub(1) {
        conditions[last].branch = branch;
    }
}
