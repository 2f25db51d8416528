//! Calls on environments as values, so that laws can speak of lists of them.

ghost use Rattle.save_groups.specs.Calls.{IsAllowed, Answers};
ghost use Rattle.save_groups.specs.Standing.{copies_of};

use crate::env::Env;
use crate::group::Left;
use crate::heap_box::HeapBox;
use crate::key::{Key, Scope};
use crate::value::Value;
use std::sync::ledger::Ledger;
use steps::Steps;
use tokens::{Stop, Token};

/// A call that changes environments.
#[derive(Debug, Drop)]
pub enum Call {
    /// `Env::assign`
    Assign {
        key: Key,
        value: Value,
        scope: Scope,
    },
    /// `Env::enter`
    Enter {
        kind: u8,
        line: u32,
    },
    /// `Env::leave`
    Leave,
    /// `Env::after_group`
    AfterGroup(Token),
    /// `Env::set_box_size`
    SetBoxSize {
        number: u16,
        part: u8,
        size: i32,
    },
    /// `Env::swap_box`
    SwapBox {
        number: u16,
        content: Option<HeapBox>,
    },
}

/// What a call tells.
#[derive(Debug, Drop)]
pub enum Told {
    Nothing,
    /// The group that was left.
    Group(Left),
    /// Whether a box was there whose size could be changed.
    Resized(bool),
    /// The box that was taken out, or void.
    Taken(Option<HeapBox>),
}

/// Makes a call, and gives what it tells.
pub fn make<L: Ledger>(env: &mut Env, call: Call, steps: &mut Steps<L>) -> Result<Told, Stop>
    requires { IsAllowed call (copies_of env.old) }
    ensures { Answers call (copies_of env.old) result (copies_of env.new) }
{
    match call {
        Call::Assign { key, value, scope } => match env.assign(key, value, scope, steps) {
            Ok(()) => Ok(Told::Nothing),
            Err(_) => Err(Stop::OutOfMemory),
        },
        Call::Enter { kind, line } => match env.enter(kind, line) {
            Ok(()) => Ok(Told::Nothing),
            Err(stop) => Err(stop),
        },
        Call::Leave => Ok(Told::Group(env.leave(steps))),
        Call::AfterGroup(token) => match env.after_group(token) {
            Ok(()) => Ok(Told::Nothing),
            Err(_) => Err(Stop::OutOfMemory),
        },
        Call::SetBoxSize { number, part, size } => Ok(Told::Resized(env.set_box_size(
            number, part, size,
        ))),
        Call::SwapBox { number, content } => Ok(Told::Taken(env.swap_box(number, content))),
    }
}
