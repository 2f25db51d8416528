//! What a command does: one table (The TeXbook, chapter 24; `tex.web` 1045).
#![tactic(auto, using(asking::specs::Asked::asking), unfolding(crate::specs::Execute::execute))]

ghost use Rattle.std.specs.Prelude.{◌≡◌};
ghost use Rattle.asking.specs.Did.{Does};
ghost use Rattle.asking.specs.Seen.{DoesBeside};
ghost use Rattle.save_groups.specs.Standing.{copies_of};
ghost use Rattle.gullet.specs.Meanings.{taken_meaning};
ghost use Rattle.gullet.specs.State.{state_of};
ghost use Rattle.commands.specs.Command.{command_of};
ghost use Rattle.commands.specs.Execute.{GoesOn, execute, execute_by, left_out, left_out_character, cant_use_name};

use crate::command::{Command, command_of};
use crate::groups::{after_group, begin_group, end_group};
use crate::letters::{LetterCase, change_case};
use crate::messages::{error_message, message};
use crate::showing::{show, show_the};
use crate::spaces::ignore_spaces;
use asking::Library;
use gullet::{Gullet, Site, escape, fixed_meaning, taken_meaning};
use save_groups::Env;
use std::alloc::Global;
use tokens::{Kind, Stop, Text, Token, token_shown};

/// Whether the run goes on behind a command.
#[derive(Clone, Copy, Debug, PartialEq, Eq)]
pub enum Next {
    GoesOn,
    /// `\end` was met.
    Ended,
}

/// Carries a token out that isn't expanded, and that begins no assignment. One that isn't to be expanded, where it would be, does
/// nothing.
///
/// # Errors
///
/// The troubles of the command, and those of the texts and tokens that it takes; 255 groups that are open already; want of
/// memory.
pub fn execute<L: Library>(
    alloc: Global,
    token: Token,
    noexpand: bool,
    gullet: &mut Gullet,
    site: &mut Site,
    library: &mut L,
) -> Result<Next, Stop>
    ensures does { DoesBeside L.outside (L.seen library.old) (L.seen library.new) result (state_of gullet.new site.new)
        (execute L.outside token noexpand (state_of gullet.old site.old)) }
{
    let command = command_at(&site.env, token, noexpand);
    execute_by(alloc, token, command, gullet, site, library)
}

/// The command of a token that was taken.
fn command_at(env: &Env, token: Token, noexpand: bool) -> Command
    ensures { result ≡ command_of (copies_of env.now).extended (taken_meaning (copies_of env.now) token noexpand) }
{
    let fixed = fixed_meaning(env, token, noexpand);
    command_of(
        env.is_extended(),
        taken_meaning(env, &fixed, token, noexpand),
    )
}

/// One line for each command.
fn execute_by<L: Library>(
    alloc: Global,
    token: Token,
    command: Command,
    gullet: &mut Gullet,
    site: &mut Site,
    library: &mut L,
) -> Result<Next, Stop>
    ensures does { DoesBeside L.outside (L.seen library.old) (L.seen library.new) result (state_of gullet.new site.new)
        (execute_by L.outside token command (state_of gullet.old site.old)) }
{
    match command {
        Command::Nothing => Ok(Next::GoesOn),
        Command::BeginGroup(brace) => goes_on(begin_group(gullet, site, brace)),
        Command::EndGroup(brace) => goes_on(end_group(gullet, site, brace)),
        Command::AfterGroup => goes_on(after_group(gullet, site)),
        Command::IgnoreSpaces => goes_on(ignore_spaces(gullet, site, library)),
        Command::Uppercase => goes_on(change_case(alloc, gullet, site, library, LetterCase::Upper)),
        Command::Lowercase => goes_on(change_case(alloc, gullet, site, library, LetterCase::Lower)),
        Command::Message => goes_on(message(alloc, gullet, site, library)),
        Command::ErrorMessage => goes_on(error_message(alloc, gullet, site, library)),
        Command::Show => goes_on(show(alloc, gullet, site)),
        Command::ShowThe => goes_on(show_the(alloc, gullet, site, library)),
        Command::EndName => cant_use_name(alloc, token, gullet, site),
        Command::End => Ok(Next::Ended),
        Command::LeftOut => left_out(alloc, token, gullet, site),
        Command::Character => left_out_character(alloc, gullet, site),
        Command::Undefined => goes_on(gullet.pass_undefined(site, token)),
    }
}

/// The run goes on where the command is done.
fn goes_on(done: Result<(), Stop>) -> Result<Next, Stop>
    ensures { GoesOn done result }
{
    match done {
        Ok(()) => Ok(Next::GoesOn),
        Err(stop) => Err(stop),
    }
}

/// The end of the run at a name that this program leaves out.
fn left_out(alloc: Global, token: Token, gullet: &Gullet, site: &Site) -> Result<Next, Stop>
    ensures does { Does result (state_of gullet.now site.now) (left_out token (state_of gullet.now site.now)) }
{
    match token_shown(alloc, token, &site.names, escape(&site.env)) {
        Ok(name) => Err(Stop::Trouble(Kind::LeftOut(Text::new(name)))),
        Err(_) => Err(Stop::OutOfMemory),
    }
}

/// The end of the run at a character that would be set.
fn left_out_character(alloc: Global, gullet: &Gullet, site: &Site) -> Result<Next, Stop>
    ensures does { Does result (state_of gullet.now site.now) (left_out_character (state_of gullet.now site.now)) }
{
    match b"character".to_vec(alloc) {
        Ok(word) => Err(Stop::Trouble(Kind::LeftOut(Text::new(word)))),
        Err(_) => Err(Stop::OutOfMemory),
    }
}

/// The end of the run at an `\endcsname` that ends no name.
fn cant_use_name(alloc: Global, token: Token, gullet: &Gullet, site: &Site) -> Result<Next, Stop>
    ensures does { Does result (state_of gullet.now site.now) (cant_use_name token (state_of gullet.now site.now)) }
{
    match token_shown(alloc, token, &site.names, escape(&site.env)) {
        Ok(text) => Err(Stop::Trouble(Kind::CantUse(Text::new(text)))),
        Err(_) => Err(Stop::OutOfMemory),
    }
}
