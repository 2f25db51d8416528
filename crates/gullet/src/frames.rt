//! Phrases are read on a stack of frames, the innermost beside it (The TeXbook, chapter 20; `tex.web`, part 25, where these
//! are procedures that call one another).
#![tactic(auto, using(asking::specs::Asked::asking))]

ghost use Rattle.std.specs.Prelude.{◌≡◌, [], ◌∷◌, IfOk, OnOk};
ghost use Rattle.asking.specs.Did.{DoesBy};
ghost use Rattle.asking.specs.Seen.{DoesBeside};
ghost use Rattle.save_groups.specs.Standing.{copies_of};
ghost use Rattle.gullet.specs.Expansion.{begin as begun_in, outcome};
ghost use Rattle.gullet.specs.Frames.{again_of, Begins, Waits, GoesOn, Popped};
ghost use Rattle.gullet.specs.Meanings.{taken_meaning};
ghost use Rattle.gullet.specs.Progress.{FitsToken, TakesUp};
ghost use Rattle.gullet.specs.State.{State, state_of};
ghost use Rattle.gullet.specs.Wants.{Tok};

use crate::begin::begin;
use crate::context::Context;
use crate::gullet::Gullet;
use crate::inside::{inside, is_full};
use crate::meanings::{fixed_meaning, taken_meaning};
use crate::progress::Progress;
use crate::site::Site;
use crate::take::{take_got, take_token, take_was};
use crate::task::{Task, Told, Want};
use crate::turn::Turned;
use asking::Library;
use save_groups::Env;
use std::alloc::{AllocError, Global};
use std::marker::Model;
use tokens::{Cap, Stop, Token};

/// How many turns are made at most: no run has as many. Behind them the phrase ends as where memory runs out.
const MOST_TURNS: u64 = u64::MAX;

/// A phrase that is read: what stands around it, how far it is, and what it wants next.
#[derive(Drop)]
struct Top {
    context: Context,
    progress: Progress,
    want: Want,
}

/// A phrase begins in this context, if it isn't one too many.
fn enter(alloc: Global, context: Context, task: Task) -> Result<Top, Stop>
    ensures does { (s : State) → DoesBy (λ top. top.context) result s (begun_in context task s) }
    ensures begins { IfOk result (λ top. Begins task top.context top.progress top.want) }
{
    if is_full(context, &task) {
        return Err(Stop::Capacity(Cap::Frames));
    }
    let context = inside(context, &task);
    match begin(alloc, context, task) {
        Ok((progress, want)) => Ok(Top {
            context,
            progress,
            want,
        }),
        Err(_) => Err(Stop::OutOfMemory),
    }
}

/// A phrase that waits for the one inside it.
#[derive(Drop)]
struct Frame {
    context: Context,
    /// Whether it takes what that tells. If not, it wants an expanded token again.
    takes: bool,
    progress: Progress,
}

/// The phrases that wait. Contracts see their list, the innermost first.
#[derive(Drop)]
struct Below {
    frames: Vec<Frame>,
}

impl Model for Below {
    ghost use Rattle.std.specs.Prelude.{List, reverse};
    ghost use Rattle.gullet.specs.declared.frames.Frame.{Frame};

    ghost Value = { List Frame };

    ghost view = { λ below. reverse below.frames.items };
}

impl Below {
    /// None waits. This takes no memory.
    fn new(alloc: Global) -> Below
        ensures { result ≡ [] }
    {
        Below {
            frames: Vec::new(alloc),
        }
    }

    /// The innermost phrase waits.
    fn push(&mut self, frame: Frame) -> Result<(), AllocError>
        ensures ok { OnOk result (self.new ≡ frame ∷ self.old) }
    {
        self.frames.push(frame)?;
        Ok(())
    }

    /// The one that was inside it is over.
    fn pop(&mut self) -> Option<Frame>
        ensures { Popped self.old result self.new }
    {
        self.frames.pop()
    }
}

/// A phrase begins inside another, which waits for it.
fn enter_inside(alloc: Global, below: &mut Below, frame: Frame, task: Task) -> Result<Top, Stop>
    ensures does { (s : State) → DoesBy (λ top. top.context) result s (begun_in frame.context task s) }
    ensures begins { IfOk result (λ top. Begins task top.context top.progress top.want) }
    ensures waits { OnOk result (below.new ≡ frame ∷ below.old) }
{
    let top = enter(alloc, frame.context, task)?;
    match below.push(frame) {
        Ok(()) => Ok(top),
        Err(_) => Err(Stop::OutOfMemory),
    }
}

/// What is wanted again behind a turn that took nothing.
fn again(want: &Want) -> Want
    ensures { result ≡ again_of want.now }
{
    match want {
        Want::Expanded => Want::Expanded,
        Want::Character => Want::Character,
        Want::Raw | Want::Act(_) | Want::Inner(_) | Want::Gives { .. } | Want::Wrong(_) =>
            Want::Raw,
    }
}

/// The phrase takes a token, with the meaning that the token `of` has.
fn take(
    alloc: Global,
    env: &Env,
    progress: &mut Progress,
    token: Token,
    of: Token,
    noexpand: bool,
) -> Result<Want, AllocError>
    requires { FitsToken progress.old }
    ensures { IfOk result (λ want. TakesUp progress.old (Tok token (taken_meaning (copies_of env.now) of noexpand)) progress.new want) }
{
    let fixed = fixed_meaning(env, of, noexpand);
    let meaning = taken_meaning(env, &fixed, of, noexpand);
    take_token(alloc, progress, token, meaning)
}

/// A phrase goes on that has waited, by what the one inside it told.
fn resume(
    alloc: Global,
    takes: bool,
    progress: &mut Progress,
    told: Told,
) -> Result<Want, AllocError>
    requires { Waits takes progress.old }
    ensures { IfOk result (λ want. GoesOn takes progress.old told progress.new want) }
{
    if takes {
        take_got(alloc, progress, told)
    } else {
        Ok(Want::Expanded)
    }
}

impl Gullet {
    /// Reads a phrase to its end, with all that are read inside it.
    pub(crate) fn read<L: Library>(
        &mut self,
        site: &mut Site,
        library: &mut L,
        context: Context,
        task: Task,
    ) -> Result<Told, Stop>
        ensures does { DoesBeside L.outside (L.seen library.old) (L.seen library.new) result (state_of self.new site.new)
            (outcome L.outside context task (state_of self.old site.old)) }
    {
        let top = match enter(self.alloc, context, task) {
            Ok(top) => top,
            Err(stop) => return Err(stop),
        };
        let Top {
            mut context,
            mut progress,
            mut want,
        } = top;
        let mut below = Below::new(self.alloc);
        'turns: for _made in 0..MOST_TURNS {
            let wanted_again = again(&want);
            let turned = match self.turn(site, library, context, want) {
                Ok(turned) => turned,
                Err(stop) => return Err(stop),
            };
            match turned {
                Turned::Token {
                    token,
                    of,
                    noexpand,
                } => match take(self.alloc, &site.env, &mut progress, token, of, noexpand) {
                    Ok(next) => want = next,
                    Err(_) => return Err(Stop::OutOfMemory),
                },
                Turned::Told(told) => match take_was(self.alloc, &mut progress, told) {
                    Ok(next) => want = next,
                    Err(_) => return Err(Stop::OutOfMemory),
                },
                Turned::Again => want = wanted_again,
                Turned::Inner(task) => {
                    let frame = Frame {
                        context,
                        takes: true,
                        progress,
                    };
                    match enter_inside(self.alloc, &mut below, frame, task) {
                        Ok(top) => {
                            context = top.context;
                            progress = top.progress;
                            want = top.want;
                        }
                        Err(stop) => return Err(stop),
                    }
                }
                Turned::Aside(task) => {
                    let frame = Frame {
                        context,
                        takes: false,
                        progress,
                    };
                    match enter_inside(self.alloc, &mut below, frame, task) {
                        Ok(top) => {
                            context = top.context;
                            progress = top.progress;
                            want = top.want;
                        }
                        Err(stop) => return Err(stop),
                    }
                }
                Turned::Ends(told) => match below.pop() {
                    None => return Ok(told),
                    Some(frame) => {
                        context = frame.context;
                        progress = frame.progress;
                        match resume(self.alloc, frame.takes, &mut progress, told) {
                            Ok(next) => want = next,
                            Err(_) => return Err(Stop::OutOfMemory),
                        }
                    }
                },
            }
        }
        Err(Stop::OutOfMemory)
    }
}
