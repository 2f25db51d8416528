//! Boxes in registers, changes in place, and tables of numbers (The TeXbook, chapters 14 and 15).
ghost use Rattle.std.specs.Prelude.{◌≡◌};
ghost use Rattle.tokens.specs.declared.meaning.RegKind.TheVariants as RegKind;
ghost use Rattle.save_groups.specs.declared.key.Key.{Key};

use super::Groups;
use super::script::Step::{Begin, Boxes, End, Level, Saves};
use super::script::{Step, play};
use crate::{Env, HeapBox, Key, Scope, Value};
use nodes::{BoxNode, GlueSet};
use scaled::Order;
use sqlite_items::Items;
use std::alloc::Global;
use std::sync::ledger::Ledger;
use std::test::Fail;
use tokens::RegKind;

/// A register that both modes have, and one that extended mode has.
const NEAR: u16 = 7;

const FAR: u16 = 300;

/// What is done to a box, or a table, or what is then so. Boxes are told by their widths in sp.
#[derive(Clone, Copy)]
pub enum BoxStep {
    Local(Option<i32>),
    Global(Option<i32>),
    /// `\box`: the box is taken out.
    Take,
    /// A box is put where one was taken.
    Put(i32),
    /// `\wd`
    Resize(i32),
    Is(Option<i32>),
    LocalFar(i32),
    ResizeFar(i32),
    IsFar(Option<i32>),
    /// Two lines of a paragraph get this width.
    Shape(i32),
    IsShape(Option<i32>),
    /// `\widowpenalties`
    Penalties(i32),
    ArePenalties(Option<i32>),
}

use BoxStep::{
    ArePenalties, Global as GlobalBox, Is, IsFar, IsShape, Local as LocalBox, LocalFar, Penalties,
    Put, Resize, ResizeFar, Shape, Take,
};

/// An empty hbox of a width.
fn wide(alloc: Global, width: i32) -> Result<HeapBox, Fail> {
    let node = BoxNode {
        vertical: false,
        width,
        height: 0,
        depth: 0,
        shift: 0,
        list: Items::new(alloc),
        set: GlueSet {
            sign: 0,
            order: Order::Normal,
            excess: 0,
            total: 0,
        },
        nesting: 1,
        count: 0,
    };
    Ok(HeapBox::new(alloc, node)?)
}

fn boxed(alloc: Global, width: Option<i32>) -> Result<Option<HeapBox>, Fail> {
    match width {
        Some(width) => Ok(Some(wide(alloc, width)?)),
        None => Ok(None),
    }
}

fn box_key(number: u16) -> Key
    ensures { result ≡ Key.Register RegKind.Box number }
{
    Key::Register {
        kind: RegKind::Box,
        number,
    }
}

fn set_near<L: Ledger>(
    alloc: Global,
    groups: &mut Groups<L>,
    width: Option<i32>,
    scope: Scope,
) -> Result<bool, Fail> {
    let content = boxed(alloc, width)?;
    groups.set(box_key(NEAR), Value::Boxed(content), scope)?;
    Ok(true)
}

fn take(env: &mut Env) -> bool {
    env.swap_box(NEAR, None).is_some()
}

fn put(alloc: Global, env: &mut Env, width: i32) -> Result<bool, Fail> {
    let content = wide(alloc, width)?;
    Ok(env.swap_box(NEAR, Some(content)).is_none())
}

fn width_of(content: Option<&BoxNode>) -> Option<i32> {
    match content {
        Some(node) => Some(node.width),
        None => None,
    }
}

fn set_far<L: Ledger>(alloc: Global, groups: &mut Groups<L>, width: i32) -> Result<bool, Fail> {
    if !groups.env.is_extended() {
        return Ok(false);
    }
    let value = Value::Boxed(Some(wide(alloc, width)?));
    groups
        .env
        .assign(box_key(FAR), value, Scope::Local, &mut groups.steps)?;
    Ok(true)
}

fn resize_far(env: &mut Env, width: i32) -> bool {
    env.is_extended() && env.set_box_size(FAR, 0, width)
}

fn is_far(env: &Env, width: Option<i32>) -> bool {
    env.is_extended() && width_of(env.box_ref(FAR)) == width
}

/// A table of the indents and widths of two lines.
fn lines(alloc: Global, width: i32) -> Result<Items<i32>, Fail> {
    Ok(Items::from_slice(alloc, &[0, width, 1, width])?)
}

fn are_lines(table: &[i32], width: Option<i32>) -> bool {
    match width {
        Some(width) => table.len() == 4 && table[0] == 0 && table[1] == width && table[3] == width,
        None => table.is_empty(),
    }
}

fn set_shape<L: Ledger>(alloc: Global, groups: &mut Groups<L>, width: i32) -> Result<bool, Fail> {
    let value = Value::Table(lines(alloc, width)?);
    groups.set(Key::Shape, value, Scope::Local)?;
    Ok(true)
}

fn set_penalties<L: Ledger>(
    alloc: Global,
    groups: &mut Groups<L>,
    width: i32,
) -> Result<bool, Fail> {
    if !groups.env.is_extended() {
        return Ok(false);
    }
    let value = Value::Table(lines(alloc, width)?);
    groups
        .env
        .assign(Key::Penalties(2), value, Scope::Local, &mut groups.steps)?;
    Ok(true)
}

fn are_penalties(env: &Env, width: Option<i32>) -> bool {
    env.is_extended() && are_lines(env.table(Key::Penalties(2)), width)
}

/// Takes one step, and tells whether all is as it says.
pub fn is_box_taken<L: Ledger>(
    alloc: Global,
    groups: &mut Groups<L>,
    step: BoxStep,
) -> Result<bool, Fail> {
    match step {
        LocalBox(width) => set_near(alloc, groups, width, Scope::Local),
        GlobalBox(width) => set_near(alloc, groups, width, Scope::Global),
        Take => Ok(take(&mut groups.env)),
        Put(width) => put(alloc, &mut groups.env, width),
        Resize(width) => Ok(groups.env.set_box_size(NEAR, 0, width)),
        Is(width) => Ok(width_of(groups.env.box_ref(NEAR)) == width),
        LocalFar(width) => set_far(alloc, groups, width),
        ResizeFar(width) => Ok(resize_far(&mut groups.env, width)),
        IsFar(width) => Ok(is_far(&groups.env, width)),
        Shape(width) => set_shape(alloc, groups, width),
        IsShape(width) => Ok(are_lines(groups.env.table(Key::Shape), width)),
        Penalties(width) => set_penalties(alloc, groups, width),
        ArePenalties(width) => Ok(are_penalties(&groups.env, width)),
    }
}

/// A box of the group around is taken: it is gone in that group too, and the one outside stays.
const TAKEN: &[Step] = &[
    Boxes(LocalBox(Some(1))),
    Begin,
    Boxes(LocalBox(Some(2))),
    Begin,
    Begin,
    Boxes(Take),
    Boxes(Is(None)),
    Saves(1),
    End,
    Boxes(Is(None)),
    End,
    Boxes(Is(None)),
    End,
    Boxes(Is(Some(1))),
];

#[test]
fn a_box_that_is_taken_is_gone_from_its_group_inwards(rt: HostRuntime) -> Result<(), Fail> {
    play(&rt, rt.alloc(), false, TAKEN)
}

#[test]
fn a_global_box_is_taken_from_all_groups(rt: HostRuntime) -> Result<(), Fail> {
    let script = [
        Begin,
        Boxes(LocalBox(Some(2))),
        Boxes(GlobalBox(Some(3))),
        Boxes(Take),
        Boxes(Put(4)),
        End,
        Boxes(Is(Some(4))),
    ];
    play(&rt, rt.alloc(), true, &script)
}

#[test]
fn a_size_stays_behind_the_group(rt: HostRuntime) -> Result<(), Fail> {
    let script = [
        Boxes(LocalBox(Some(1))),
        Begin,
        Boxes(Resize(5)),
        Saves(0),
        End,
        Boxes(Is(Some(5))),
    ];
    play(&rt, rt.alloc(), true, &script)
}

#[test]
fn a_box_behind_255_is_saved_and_sized(rt: HostRuntime) -> Result<(), Fail> {
    let script = [
        Boxes(IsFar(None)),
        Boxes(LocalFar(1)),
        Begin,
        Boxes(ResizeFar(2)),
        Boxes(LocalFar(3)),
        Boxes(ResizeFar(4)),
        Boxes(IsFar(Some(4))),
        End,
        Boxes(IsFar(Some(2))),
    ];
    play(&rt, rt.alloc(), true, &script)
}

/// Void is assigned to void, and then a box to an equal box, in a group: so many saves are made by the first.
fn void_again(saves: u64) -> [Step; 9] {
    [
        Begin,
        Boxes(LocalBox(None)),
        Saves(saves),
        End,
        Boxes(LocalBox(Some(1))),
        Begin,
        Boxes(LocalBox(Some(1))),
        Saves(1),
        Level(2),
    ]
}

#[test]
fn void_is_the_same_as_void_in_extended_mode(rt: HostRuntime) -> Result<(), Fail> {
    play(&rt, rt.alloc(), true, &void_again(0))
}

#[test]
fn void_is_saved_in_compatibility_mode(rt: HostRuntime) -> Result<(), Fail> {
    play(&rt, rt.alloc(), false, &void_again(1))
}

#[test]
fn tables_end_with_their_group(rt: HostRuntime) -> Result<(), Fail> {
    let script = [
        Boxes(IsShape(None)),
        Boxes(ArePenalties(None)),
        Boxes(Penalties(1)),
        Begin,
        Boxes(Shape(9)),
        Boxes(Penalties(1)),
        Saves(1),
        Boxes(Penalties(2)),
        Boxes(IsShape(Some(9))),
        Boxes(ArePenalties(Some(2))),
        End,
        Boxes(IsShape(None)),
        Boxes(ArePenalties(Some(1))),
    ];
    play(&rt, rt.alloc(), true, &script)
}
