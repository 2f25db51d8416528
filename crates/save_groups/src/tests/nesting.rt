//! The tokens of `\aftergroup`, and how many groups can be open (The TeXbook, chapters 20 and 24).
ghost use Rattle.std.specs.Prelude.{◌≡◌, ◌<◌};

use super::content::Content::Number;
use super::content::NumberAt::Count;
use super::script::Step::{Begin, BeginMany, End, EndMany, Full, Holds, Kind, Level, Local, Saves};
use super::script::play;
use super::{Groups, SEMI_SIMPLE};
use crate::Left;
use std::alloc::Global;
use std::marker::Brand;
use std::process::Abort;
use std::sync::ledger::{Blank, Ledger};
use std::test::Fail;
use tokens::{NameId, Token};

/// Lets tokens wait, each in turn.
fn wait_all<L: Ledger>(groups: &mut Groups<L>, tokens: &[Token]) -> Result<(), Fail> {
    for token in tokens {
        groups.wait(*token)?;
    }
    Ok(())
}

fn tells(left: &Left, kind: u8, line: u32, after: &[Token]) -> bool {
    left.kind == kind && left.line == line && left.after.as_slice() == after
}

/// Ends a group, and looks for what is told of it.
fn end_with<L: Ledger>(
    rt: &impl Abort,
    groups: &mut Groups<L>,
    kind: u8,
    line: u32,
    after: &[Token],
) -> Result<(), Fail> {
    let left = groups.leave().ok_or("no group")?;
    assert!(rt; tells(&left, kind, line, after));
    Ok(())
}

const LETTER: Token = Token::Char {
    cat: 11,
    byte: b'a',
};

const RELAX: Token = Token::Name(NameId(210));

const TILDE: Token = Token::Active(b'~');

/// A group with a token of its own.
fn group_inside<L: Ledger>(rt: &impl Abort, groups: &mut Groups<L>) -> Result<(), Fail> {
    groups.env.enter(SEMI_SIMPLE, 19)?;
    wait_all(groups, &[TILDE])?;
    end_with(rt, groups, SEMI_SIMPLE, 19, &[TILDE])
}

/// What happens in a group with tokens before and behind one inside.
fn inside_a_group<L: Ledger>(rt: &impl Abort, groups: &mut Groups<L>) -> Result<(), Fail> {
    wait_all(groups, &[RELAX, LETTER])?;
    group_inside(rt, groups)?;
    wait_all(groups, &[TILDE, RELAX])
}

fn group_outside<L: Ledger>(rt: &impl Abort, groups: &mut Groups<L>) -> Result<(), Fail> {
    groups.env.enter(1, 17)?;
    inside_a_group(rt, groups)?;
    end_with(rt, groups, 1, 17, &[RELAX, LETTER, TILDE, RELAX])
}

fn waiting<L: Ledger>(rt: &impl Abort, alloc: Global, blank: Blank) -> Result<(), Fail>
    requires name { blank.name ≡ L.name }
    requires parts { blank.parts ≡ L.parts }
    requires some { 0 < L.parts }
{
    let mut groups = Groups::<L>::new(alloc, true, blank)?;
    group_outside(rt, &mut groups)
}

#[test]
fn tokens_come_back_in_their_order(rt: HostRuntime) -> Result<(), Fail> {
    waiting::<Brand>(&rt, rt.alloc(), Blank::new(1))
}

/// One group too many is refused, which changes nothing, also where one ended and another began in its place.
#[test]
fn only_255_groups_can_be_open(rt: HostRuntime) -> Result<(), Fail> {
    let script = [
        Kind(0),
        BeginMany(255),
        Local(Number(Count, 7)),
        Full,
        Level(256),
        Kind(14),
        Holds(Number(Count, 7)),
        Saves(1),
        End,
        Level(255),
        Holds(Number(Count, 0)),
        Begin,
        Full,
        Level(256),
        Saves(0),
        EndMany(255),
        Level(1),
        Kind(0),
    ];
    play(&rt, rt.alloc(), true, &script)
}
