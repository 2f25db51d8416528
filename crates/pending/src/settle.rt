//! Levels that are used up go, and arguments become levels, until a token or a source stands in front
//! (`tex.web` 324, 357 and 359).
ghost use Rattle.std.specs.Prelude.{◌≡◌, ◌∷◌, ◌<◌, reverse, IfOk, OnOk};
ghost use Rattle.pending.specs.Levels.{SameItems, IsFront, passed, state_of, weight_of};

use crate::level::{Level, State, argument, list_level, pass, put_under, state_of};
use crate::waiting::Waiting;
use std::alloc::AllocError;

/// What stands in front of all levels.
#[derive(Clone, Copy, Debug)]
pub enum Front {
    Ready(Waiting),
    Source,
}

/// Brings a token or a source in front.
pub fn settle(top: &mut Level, below: &mut Vec<Level>) -> Result<Front, AllocError>
    ensures same { OnOk result (SameItems (top.old ∷ reverse below.old.items) (top.new ∷ reverse below.new.items)) }
    ensures front { IfOk result (λ front. IsFront front top.new (reverse below.new.items)) }
{
    'levels: loop {
        match state_of(top) {
            State::Ready(waiting) => return Ok(Front::Ready(waiting)),
            State::Source => return Ok(Front::Source),
            State::Argument(number) => enter(top, below, number)?,
            State::Used => match below.pop() {
                None => return Ok(Front::Source),
                Some(level) => *top = level,
            },
        }
    }
}

/// Makes the argument in front a level of its own. A text of which nothing is left behind it gives its place to it.
fn enter(top: &mut Level, below: &mut Vec<Level>, number: u8) -> Result<(), AllocError>
    requires { state_of top.old ≡ State.Argument number }
    ensures same { OnOk result (SameItems (top.old ∷ reverse below.old.items) (top.new ∷ reverse below.new.items)) }
    ensures less { OnOk result (weight_of (top.new ∷ reverse below.new.items) < weight_of (top.old ∷ reverse below.old.items)) }
    ensures replaces { OnOk result (state_of (passed top.old) ≡ State.Used → below.new.items ≡ below.old.items) }
{
    let Level::Body { arguments, .. } = top else {
        return Ok(());
    };
    let tokens = list_level(argument(arguments, number)?);
    pass(top);
    if let State::Used = state_of(top) {
        *top = tokens;
        return Ok(());
    }
    put_under(top, below, tokens)?;
    Ok(())
}
