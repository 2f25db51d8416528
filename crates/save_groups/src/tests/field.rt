//! Environments in a field: what a type that has them says of its methods.
ghost use Rattle.std.specs.Prelude.{◌≡◌, ◌<◌, Bool, false, IsTrue, IsSome, OnOk};
ghost use Rattle.save_groups.specs.Keys.{is_key};
ghost use Rattle.save_groups.specs.Values.{fits, is_in_mode};
ghost use Rattle.save_groups.specs.Environments.{entered, left, innermost};
ghost use Rattle.save_groups.specs.Assignment.{assigned};
ghost use Rattle.save_groups.specs.Standing.{copies_of};

use super::{COUNT, SEMI_SIMPLE};
use crate::{Env, Key, Left, Scope, Value};
use std::alloc::{AllocError, Global};
use std::marker::Brand;
use std::process::Abort;
use std::sync::ledger::{Blank, Ledger};
use std::test::Fail;
use steps::Steps;
use tokens::Stop;

/// A part of a run that has environments.
#[derive(Drop)]
struct Run<L: Ledger> {
    env: Env,
    steps: Steps<L>,
    line: u32,
}

impl<L: Ledger> Run<L> {
    fn new(alloc: Global, blank: Blank) -> Result<Run<L>, AllocError>
        requires name { blank.name ≡ L.name }
        requires parts { blank.parts ≡ L.parts }
        requires some { 0 < L.parts }
    {
        Ok(Run {
            env: Env::new(alloc, true)?,
            steps: Steps::new(blank),
            line: 17,
        })
    }

    fn assign(&mut self, key: Key, value: Value) -> Result<(), AllocError>
        requires key { IsTrue (is_key false key) }
        requires kind { IsTrue (fits key value) }
        requires mode { (extended : Bool) → IsTrue (is_in_mode extended value) }
        ensures { OnOk result (copies_of self.new.env ≡ assigned key value Scope.Local (copies_of self.old.env)) }
    {
        self.env.assign(key, value, Scope::Local, &mut self.steps)
    }

    fn enter(&mut self) -> Result<(), Stop>
        ensures { OnOk result (copies_of self.new.env ≡ entered 14 self.old.line (copies_of self.old.env)) }
    {
        self.env.enter(SEMI_SIMPLE, self.line)
    }

    fn leave(&mut self) -> Left
        requires { IsSome (innermost (copies_of self.old.env)) }
        ensures { copies_of self.new.env ≡ left (copies_of self.old.env) }
    {
        self.env.leave(&mut self.steps)
    }
}

fn assign_in_group<L: Ledger>(run: &mut Run<L>) -> Result<(), Fail> {
    run.enter()?;
    run.assign(COUNT, Value::Number(7))?;
    Ok(())
}

/// Ends the group, if there is one, and tells the line at which it began.
fn line_of_group<L: Ledger>(run: &mut Run<L>) -> Option<u32> {
    if run.env.level() == 1 {
        return None;
    }
    Some(run.leave().line)
}

fn assigning<L: Ledger>(rt: &impl Abort, alloc: Global, blank: Blank) -> Result<(), Fail>
    requires name { blank.name ≡ L.name }
    requires parts { blank.parts ≡ L.parts }
    requires some { 0 < L.parts }
{
    let mut run = Run::<L>::new(alloc, blank)?;
    assign_in_group(&mut run)?;
    assert_eq!(rt; line_of_group(&mut run), Some(17));
    assert_eq!(rt; super::number(&run.env, COUNT), 0);
    Ok(())
}

#[test]
fn environments_in_a_field(rt: HostRuntime) -> Result<(), Fail> {
    assigning::<Brand>(&rt, rt.alloc(), Blank::new(1))
}
