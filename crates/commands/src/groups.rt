//! Groups (The TeXbook, chapters 5 and 24; `tex.web` 274, 280 to 284, 326, 1063 to 1069).
#![tactic(auto, using(asking::specs::Asked::asking), unfolding(crate::specs::Groups::begin_group, crate::specs::Groups::end_group, crate::specs::Groups::after_group))]

ghost use Rattle.std.specs.Prelude.{◌≡◌, ◌<◌, OnOk, IsSome, option_map};
ghost use Rattle.asking.specs.Did.{Does};
ghost use Rattle.save_groups.specs.Environments.{innermost, left, told_of};
ghost use Rattle.save_groups.specs.Standing.{copies_of};
ghost use Rattle.gullet.specs.State.{state_of};
ghost use Rattle.pending.specs.Pending.{with_list};
ghost use Rattle.commands.specs.Groups.{group_kind, begin_group, end_group, after_group, group_ended, no_group};

use crate::command::Brace;
use gullet::{Gullet, Site};
use save_groups::{Env, Left};
use std::alloc::AllocError;
use std::marker::Brand;
use std::sync::ledger::{Blank, Ledger};
use steps::Steps;
use tokens::{Kind, Stop, Token};

/// The number of `\currentgrouptype`.
fn group_kind(brace: Brace) -> u8
    ensures { result ≡ group_kind brace }
{
    match brace {
        Brace::Brace => 1,
        Brace::Word => 14,
    }
}

/// Begins a group at the line that is read.
pub(crate) fn begin_group(gullet: &mut Gullet, site: &mut Site, brace: Brace) -> Result<(), Stop>
    ensures does { Does result (state_of gullet.new site.new) (begin_group brace (state_of gullet.old site.old)) }
{
    let line = gullet.line();
    match site.env.enter(group_kind(brace), line) {
        Ok(()) => Ok(()),
        Err(stop) => Err(stop),
    }
}

/// Ends the innermost group, where it is ended as it began.
pub(crate) fn end_group(gullet: &mut Gullet, site: &mut Site, brace: Brace) -> Result<(), Stop>
    ensures does { Does result (state_of gullet.new site.new) (end_group brace (state_of gullet.old site.old)) }
{
    if site.env.level() == 1 {
        return no_group(gullet, site, brace);
    }
    if site.env.group_kind() != group_kind(brace) {
        return Err(Stop::Trouble(Kind::GroupMismatch));
    }
    match leave_group(gullet, site) {
        Ok(()) => Ok(()),
        Err(_) => Err(Stop::OutOfMemory),
    }
}

/// No group is open.
fn no_group(gullet: &mut Gullet, site: &mut Site, brace: Brace) -> Result<(), Stop>
    ensures does { Does result (state_of gullet.new site.new) (no_group brace (state_of gullet.old site.old)) }
{
    match brace {
        Brace::Brace => gullet.pass(site, Kind::TooManyRightBraces),
        Brace::Word => Err(Stop::Trouble(Kind::GroupMismatch)),
    }
}

/// The innermost group ends, and the tokens that wait for that stand in front.
fn leave_group(gullet: &mut Gullet, site: &mut Site) -> Result<(), AllocError>
    requires { IsSome (innermost (copies_of site.old.env)) }
    ensures ok { OnOk result (state_of gullet.new site.new ≡ group_ended (state_of gullet.old site.old)) }
{
    let left = leave(&mut site.env);
    put_in_front(gullet, left.after.as_slice())
}

/// The innermost group ends.
#[tactic(auto)]
fn leave(env: &mut Env) -> Left
    requires { IsSome (innermost (copies_of env.old)) }
    ensures left { copies_of env.new ≡ left (copies_of env.old) }
    ensures told { option_map told_of (innermost (copies_of env.old)) ≡ Some result }
{
    leave_counted::<Brand>(env, Blank::new(1))
}

/// The same, with a count of its own.
fn leave_counted<L: Ledger>(env: &mut Env, blank: Blank) -> Left
    requires name { blank.name ≡ L.name }
    requires parts { blank.parts ≡ L.parts }
    requires some { 0 < L.parts }
    requires group { IsSome (innermost (copies_of env.old)) }
    ensures left { copies_of env.new ≡ left (copies_of env.old) }
    ensures told { option_map told_of (innermost (copies_of env.old)) ≡ Some result }
{
    let mut steps: Steps<L> = Steps::new(blank);
    env.leave(&mut steps)
}

/// Puts tokens in front, as new ones.
fn put_in_front(gullet: &mut Gullet, tokens: &[Token]) -> Result<(), AllocError>
    ensures ok { OnOk result (gullet.new ≡ record gullet.old { pending = with_list tokens.now gullet.old.pending }) }
{
    let mut left = tokens.len();
    'tokens: while left > 0 {
        left -= 1;
        gullet.back(tokens[left], false)?;
    }
    Ok(())
}

/// `\aftergroup`, behind its token: the next token waits for the end of the innermost group.
pub(crate) fn after_group(gullet: &mut Gullet, site: &mut Site) -> Result<(), Stop>
    ensures does { Does result (state_of gullet.new site.new) (after_group (state_of gullet.old site.old)) }
{
    let (token, _) = gullet.one_token(site)?;
    if site.env.level() == 1 {
        return Ok(());
    }
    match site.env.after_group(token) {
        Ok(()) => Ok(()),
        Err(_) => Err(Stop::OutOfMemory),
    }
}
