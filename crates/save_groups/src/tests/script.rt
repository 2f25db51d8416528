//! Scripts: what is done to environments that are new, and what is then seen of them.
ghost use Rattle.std.specs.Prelude.{◌≡◌, ◌<◌, false, IsTrue};
ghost use Rattle.save_groups.specs.Keys.{is_key, holds_meaning};

use super::boxes::{BoxStep, is_box_taken};
use super::content::{Content, FIRST_NAME, NumberAt, give, holds, number_key};
use super::{Groups, SEMI_SIMPLE, means, name};
use crate::{Env, Key, Save, Scope, Value};
use std::alloc::Global;
use std::marker::Brand;
use std::process::Abort;
use std::sync::ledger::{Blank, Ledger};
use std::test::Fail;
use tokens::{Cap, Meaning, Stop};

/// What is done, or what is then so.
#[derive(Clone, Copy)]
pub enum Step {
    Begin,
    End,
    /// So many groups begin, or end.
    BeginMany(u32),
    EndMany(u32),
    Local(Content),
    Global(Content),
    /// So many names behind the primitives get a meaning, locally.
    Name(u32),
    Holds(Content),
    /// So many names have no meaning.
    Unnamed(u32),
    /// There are exactly so many saves.
    Saves(u64),
    /// A number was saved, with so many saves before it.
    Saved {
        before: u64,
        place: NumberAt,
        group: u16,
        level: u16,
        number: i32,
    },
    Level(u16),
    /// The kind of the innermost group.
    Kind(u8),
    /// No further group can begin.
    Full,
    Boxes(BoxStep),
}

/// Takes the steps of a script, from the start of a mode.
pub fn play(rt: &impl Abort, alloc: Global, extended: bool, script: &[Step]) -> Result<(), Fail> {
    playing::<Brand>(rt, alloc, extended, script, Blank::new(1))
}

fn playing<L: Ledger>(
    rt: &impl Abort,
    alloc: Global,
    extended: bool,
    script: &[Step],
    blank: Blank,
) -> Result<(), Fail>
    requires name { blank.name ≡ L.name }
    requires parts { blank.parts ≡ L.parts }
    requires some { 0 < L.parts }
{
    let mut groups = Groups::<L>::new(alloc, extended, blank)?;
    take_all(rt, alloc, &mut groups, script)
}

fn take_all<L: Ledger>(
    rt: &impl Abort,
    alloc: Global,
    groups: &mut Groups<L>,
    script: &[Step],
) -> Result<(), Fail> {
    for (n, step) in script.iter().enumerate() {
        assert!(rt; is_taken(alloc, groups, *step)?, "step {n}");
    }
    Ok(())
}

/// Takes one step, and tells whether all is as it says.
fn is_taken<L: Ledger>(alloc: Global, groups: &mut Groups<L>, step: Step) -> Result<bool, Fail> {
    match step {
        Step::Begin => begin(groups, 1),
        Step::End => end(groups, 1),
        Step::BeginMany(count) => begin(groups, count),
        Step::EndMany(count) => end(groups, count),
        Step::Local(content) => done(give(alloc, groups, content, Scope::Local)),
        Step::Global(content) => done(give(alloc, groups, content, Scope::Global)),
        Step::Name(count) => give_names(groups, count),
        Step::Holds(content) => holds(alloc, &groups.env, content),
        Step::Unnamed(count) => Ok(are_undefined(&groups.env, count)),
        Step::Saves(count) => Ok(has_saves(&groups.env, count)),
        Step::Saved {
            before,
            place,
            group,
            level,
            number,
        } => Ok(is_save(
            groups.env.save(before),
            number_key(place),
            group,
            level,
            number,
        )),
        Step::Level(level) => Ok(groups.env.level() == level),
        Step::Kind(kind) => Ok(groups.env.group_kind() == kind),
        Step::Full => Ok(is_full(&groups.env.enter(1, 255))),
        Step::Boxes(step) => is_box_taken(alloc, groups, step),
    }
}

fn done(answer: Result<(), Fail>) -> Result<bool, Fail> {
    answer?;
    Ok(true)
}

fn begin<L: Ledger>(groups: &mut Groups<L>, count: u32) -> Result<bool, Fail> {
    for line in 0..count {
        groups.env.enter(SEMI_SIMPLE, line)?;
    }
    Ok(true)
}

fn end<L: Ledger>(groups: &mut Groups<L>, count: u32) -> Result<bool, Fail> {
    for _ in 0..count {
        groups.end()?;
    }
    Ok(true)
}

/// One of the names behind the primitives.
fn name_behind(n: u32) -> Key
    ensures key { IsTrue (is_key false result) }
    ensures kind { IsTrue (holds_meaning result) }
{
    name(FIRST_NAME + u64::from(n))
}

fn give_names<L: Ledger>(groups: &mut Groups<L>, count: u32) -> Result<bool, Fail> {
    for n in 0..count {
        let letter = Value::Meaning(Meaning::CharDef(65));
        groups.set(name_behind(n), letter, Scope::Local)?;
    }
    Ok(true)
}

fn are_undefined(env: &Env, count: u32) -> bool {
    for n in 0..count {
        if !means(env, name_behind(n), &Meaning::Undefined) {
            return false;
        }
    }
    true
}

fn has_saves(env: &Env, count: u64) -> bool {
    env.saved() == count && env.save(count).is_none()
}

/// Whether a save is this one, of a number.
fn is_save(save: Option<&Save>, key: Key, group: u16, level: u16, number: i32) -> bool {
    match save {
        Some(save) => save.key == key
            && save.group == group
            && save.level == level
            && is_number(&save.value, number),
        None => false,
    }
}

fn is_number(value: &Value, number: i32) -> bool {
    match value {
        Value::Number(n) => *n == number,
        _ => false,
    }
}

/// Whether a group was refused because there are too many.
fn is_full(answer: &Result<(), Stop>) -> bool {
    match answer {
        Err(Stop::Capacity(Cap::Groups)) => true,
        _ => false,
    }
}
