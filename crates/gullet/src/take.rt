//! A phrase takes one thing more: a token, what the phrase inside it told, or what was told by something that was done.
#![tactic(auto, using(asking::specs::Asked::asking))]

ghost use Rattle.std.specs.Prelude.{◌≡◌, [], ◌∷◌, List, Option, IfOk, true};
ghost use Rattle.gullet.specs.Progress.{FitsToken, FitsGot, FitsWas, IsCall, TakesUp, WhileOpen, Steps, rest, is_plain};
ghost use Rattle.gullet.specs.Wants.{Tok, Got, Was};

use crate::calling::Parts;
use crate::progress::Progress;
use crate::step::step;
use crate::task::{Told, Want};
use crate::{call, number, passing};
use conditionals::Skip;
use macro_args::Verdict;
use std::alloc::{AllocError, Global};
use std::mem;
use tokens::{Meaning, Token};

/// A token that no phrase looks at, in place of what is told.
const NO_TOKEN: Token = Token::Frozen(0);

/// The phrase takes a token with its meaning, and says what it wants next.
pub fn take_token(
    alloc: Global,
    progress: &mut Progress,
    token: Token,
    meaning: &Meaning,
) -> Result<Want, AllocError>
    requires { FitsToken progress.old }
    ensures { IfOk result (λ want. TakesUp progress.old (Tok token meaning.now) progress.new want) }
{
    match progress {
        Progress::Number(scan) => number::take_token(alloc, scan, token, meaning),
        Progress::Passing { scan, taken, .. } => match passing::take(scan, taken, meaning)? {
            Skip::Go => Ok(Want::Raw),
            Skip::Stopped { word } => {
                *progress = Progress::Telling;
                Ok(passing::ended(word))
            }
        },
        Progress::Call(calling) => match calling.take(token)? {
            Verdict::Need => Ok(Want::Raw),
            Verdict::Done => Ok(call::whole(end_call(progress))),
            Verdict::Refused(refusal) => Ok(call::refused(end_call(progress), refusal)),
        },
        _ => take_plain(alloc, progress, token, meaning, Told::Done),
    }
}

/// What is done for a macro's call is its last thing.
fn end_call(progress: &mut Progress) -> Parts
    requires call { IsCall progress.old }
    ensures parts { progress.old ≡ Progress.Call result }
    ensures last { progress.new ≡ Progress.Finishing Option.None }
{
    match mem::replace(progress, Progress::Finishing { back: None }) {
        Progress::Call(calling) => calling.into_parts(),
        _ => unreachable!(),
    }
}

/// The phrase takes what the phrase inside it told, and says what it wants next.
pub fn take_got(alloc: Global, progress: &mut Progress, told: Told) -> Result<Want, AllocError>
    requires { FitsGot progress.old }
    ensures { IfOk result (λ want. TakesUp progress.old (Got told) progress.new want) }
{
    match progress {
        Progress::Number(scan) => number::take_value(alloc, scan, told),
        Progress::Passing { .. } | Progress::Call(_) => unreachable!(),
        _ => take_plain(alloc, progress, NO_TOKEN, &Meaning::Undefined, told),
    }
}

/// The phrase takes what was told by something that was done, and says what it wants next.
pub fn take_was(alloc: Global, progress: &mut Progress, told: Told) -> Result<Want, AllocError>
    requires { FitsWas progress.old }
    ensures { IfOk result (λ want. TakesUp progress.old (Was told) progress.new want) }
{
    match progress {
        Progress::Number(scan) => number::resume(alloc, scan),
        Progress::Passing { .. } | Progress::Call(_) => unreachable!(),
        _ => take_plain(alloc, progress, NO_TOKEN, &Meaning::Undefined, told),
    }
}

/// Any other phrase than a number, a text that is passed over and a macro's call takes one thing more.
fn take_plain(
    alloc: Global,
    progress: &mut Progress,
    token: Token,
    meaning: &Meaning,
    told: Told,
) -> Result<Want, AllocError>
    requires { is_plain progress.old ≡ true }
    ensures want { IfOk result (λ want. want ≡ rest progress.old token meaning.now told []) }
    ensures steps { IfOk result (λ want. WhileOpen want (Steps progress.old token meaning.now told progress.new)) }
    ensures plain { IfOk result (λ want. is_plain progress.new ≡ true) }
{
    let before = mem::replace(progress, Progress::Telling);
    let (after, want) = step(alloc, before, token, meaning, told)?;
    *progress = after;
    Ok(want)
}
