//! Lists with every kind of node are copied, measured, taken apart and dropped.

use crate::boxes::{BoxNode, GlueSet};
use crate::copying::copy_list;
use crate::discretionary::DiscNode;
use crate::ligature::LigNode;
use crate::measuring::measure;
use crate::node::{KernKind, Node};
use crate::page_material::{InsertNode, MarkNode};
use crate::spacing::{Leaders, SkipNode};
use crate::taking::into_vec;
use crate::whatsit::Whatsit;
use scaled::{Glue, Order};
use sqlite_items::{Boxed, Items};
use std::alloc::{AllocError, Global};
use std::test::Fail;
use tokens::{Stop, Token, TokenList};

/// Nesting and count of each kind of node that `kind` makes.
const MEASURES: [(u16, u32); 17] = [
    (0, 1),
    (0, 1),
    (3, 8),
    (0, 1),
    (0, 1),
    (2, 7),
    (0, 2),
    (0, 1),
    (0, 1),
    (4, 14),
    (0, 1),
    (2, 3),
    (5, 3),
    (0, 1),
    (0, 1),
    (0, 1),
    (0, 1),
];

const GLUE: Glue = Glue {
    width: 65536,
    stretch: 2,
    stretch_order: Order::Fill,
    shrink: -3,
    shrink_order: Order::Normal,
};

fn letter(byte: u8) -> Node {
    Node::Char {
        font: 1,
        byte,
        width: 327680,
        height: 491520,
        depth: -5,
        italic: 7,
    }
}

fn rule() -> Node {
    Node::Rule {
        width: None,
        height: Some(65536),
        depth: Some(-1),
    }
}

fn kern() -> Node {
    Node::Kern {
        width: -81920,
        how: KernKind::Accent,
    }
}

fn ligature(alloc: Global) -> Result<Node, AllocError> {
    let source = Items::from_slice(alloc, b"ffi")?;
    Ok(Node::Lig(Boxed::new(
        alloc,
        LigNode {
            font: 2,
            byte: 14,
            width: 1,
            height: 2,
            depth: 3,
            italic: 4,
            source,
            left: true,
            right: false,
        },
    )?))
}

/// A box over a list, with the nesting and the count that it is to tell.
fn boxed(alloc: Global, list: Vec<Node>, nesting: u16, count: u32) -> Result<Node, AllocError> {
    Ok(Node::Boxed(Boxed::new(
        alloc,
        BoxNode {
            vertical: true,
            width: 655360,
            height: 491520,
            depth: 65536,
            shift: -65536,
            list: Items::from_vec(list),
            set: GlueSet {
                sign: -1,
                order: Order::Filll,
                excess: 8,
                total: 9,
            },
            nesting,
            count,
        },
    )?))
}

fn glue(alloc: Global, leaders: Option<Leaders>) -> Result<Node, AllocError> {
    Ok(Node::Skip(Boxed::new(
        alloc,
        SkipNode {
            glue: GLUE,
            name: 12,
            leaders,
        },
    )?))
}

fn leaders(alloc: Global, item: Node) -> Result<Node, AllocError> {
    let item = Boxed::new(alloc, item)?;
    glue(alloc, Some(Leaders { how: 1, item }))
}

fn discretionary(alloc: Global) -> Result<Node, AllocError> {
    let pre = two(alloc, letter(b'-'), boxed(alloc, Vec::new(alloc), 1, 0)?)?;
    let post = one(alloc, boxed(alloc, Vec::new(alloc), 4, 10)?)?;
    Ok(Node::Disc(Boxed::new(
        alloc,
        DiscNode {
            pre: Items::from_vec(pre),
            post: Items::from_vec(post),
            replace: 3,
        },
    )?))
}

fn insertion(alloc: Global, list: Vec<Node>) -> Result<Node, AllocError> {
    Ok(Node::Insert(Boxed::new(
        alloc,
        InsertNode {
            class: 254,
            size: 100,
            max_depth: 20,
            top: GLUE,
            cost: -50,
            list: Items::from_vec(list),
        },
    )?))
}

fn text(alloc: Global) -> Result<TokenList, Stop> {
    TokenList::from_slice(
        alloc,
        &[
            Token::Char {
                cat: 11,
                byte: b'x',
            },
            Token::Active(126),
        ],
    )
}

fn mark(alloc: Global) -> Result<Node, Stop> {
    let text = text(alloc)?;
    Ok(Node::Mark(Boxed::new(alloc, MarkNode { class: 300, text })?))
}

fn whatsit(alloc: Global, whatsit: Whatsit) -> Result<Node, AllocError> {
    Ok(Node::Whatsit(Boxed::new(alloc, whatsit)?))
}

fn one(alloc: Global, node: Node) -> Result<Vec<Node>, AllocError> {
    let mut list = Vec::new(alloc);
    list.push(node)?;
    Ok(list)
}

fn two(alloc: Global, first: Node, second: Node) -> Result<Vec<Node>, AllocError> {
    let mut list = one(alloc, first)?;
    list.push(second)?;
    Ok(list)
}

fn kind_without_text(alloc: Global, number: usize) -> Result<Node, AllocError> {
    let empty = Vec::new(alloc);
    match number {
        0 => Ok(letter(b'A')),
        1 => ligature(alloc),
        2 => boxed(alloc, two(alloc, letter(b'B'), rule())?, 3, 7),
        3 => Ok(rule()),
        4 => glue(alloc, None),
        5 => leaders(alloc, boxed(alloc, empty, 2, 5)?),
        6 => leaders(alloc, rule()),
        7 => Ok(kern()),
        8 => Ok(Node::Penalty(-10000)),
        9 => discretionary(alloc),
        11 => insertion(alloc, one(alloc, boxed(alloc, empty, 2, 1)?)?),
        _ => Ok(Node::Adjust(Items::from_vec(two(alloc, boxed(alloc, empty, 5, 0)?, kern())?))),
    }
}

fn kind(alloc: Global, number: usize) -> Result<Node, Stop> {
    match number {
        10 => mark(alloc),
        13 => Ok(whatsit(
            alloc,
            Whatsit::Open {
                stream: 15,
                name: Items::from_slice(alloc, b"q.aux")?,
            },
        )?),
        14 => Ok(whatsit(
            alloc,
            Whatsit::Write {
                stream: -1,
                text: text(alloc)?,
            },
        )?),
        15 => Ok(whatsit(alloc, Whatsit::Close { stream: 16 })?),
        16 => Ok(whatsit(
            alloc,
            Whatsit::Special(Items::from_slice(alloc, b"ps: \xff")?),
        )?),
        _ => Ok(kind_without_text(alloc, number)?),
    }
}

fn every_kind(alloc: Global) -> Result<Vec<Node>, Stop> {
    let mut list = Vec::new(alloc);
    for number in 0..MEASURES.len() {
        list.push(kind(alloc, number)?)?;
    }
    Ok(list)
}

#[test]
fn a_copy_has_every_kind_of_node_as_it_was(rt: HostRuntime) -> Result<(), Fail> {
    let alloc = rt.alloc();
    let list = every_kind(alloc)?;
    let copy = copy_list(alloc, list.as_slice())?;
    assert_eq!(rt; copy.len(), 17);
    assert_eq!(rt;
        format!(in alloc; "{copy:?}")?,
        format!(in alloc; "{list:?}")?
    );
    Ok(())
}

#[test]
fn a_list_taken_apart_has_its_nodes_in_order(rt: HostRuntime) -> Result<(), Fail> {
    let alloc = rt.alloc();
    let nodes = into_vec(alloc, Items::from_vec(every_kind(alloc)?))?;
    let again = every_kind(alloc)?;
    assert_eq!(rt;
        format!(in alloc; "{nodes:?}")?,
        format!(in alloc; "{again:?}")?
    );
    Ok(())
}

fn measure_of_kind(alloc: Global, number: usize) -> Result<(u16, u32), Stop> {
    let list = one(alloc, kind(alloc, number)?)?;
    Ok(measure(list.as_slice()))
}

#[test]
fn each_kind_of_node_has_its_nesting_and_count(rt: HostRuntime) -> Result<(), Fail> {
    for number in 0..MEASURES.len() {
        assert_eq!(rt; measure_of_kind(rt.alloc(), number)?, MEASURES[number]);
    }
    Ok(())
}

#[test]
fn a_list_of_every_kind_has_the_deepest_nesting_and_all_counts(
    rt: HostRuntime,
) -> Result<(), Fail> {
    let all = every_kind(rt.alloc())?;
    assert_eq!(rt; measure(all.as_slice()), (5, 48));
    Ok(())
}

#[test]
fn nesting_and_count_stop_at_their_last_values(rt: HostRuntime) -> Result<(), Fail> {
    let alloc = rt.alloc();
    let full = boxed(alloc, Vec::new(alloc), 65535, 4294967295)?;
    let list = two(alloc, full, letter(b'A'))?;
    assert_eq!(rt; measure(list.as_slice()), (65535, 4294967295));
    let held = one(alloc, insertion(alloc, list)?)?;
    assert_eq!(rt; measure(held.as_slice()), (65535, 4294967295));
    Ok(())
}

fn nested_boxes(alloc: Global, levels: u16) -> Result<Vec<Node>, AllocError> {
    let mut list = Vec::new(alloc);
    for level in 0..levels {
        list = one(alloc, boxed(alloc, list, level + 1, u32::from(level))?)?;
    }
    Ok(list)
}

fn nested_adjustments(alloc: Global, levels: u16) -> Result<Vec<Node>, AllocError> {
    let mut list = Vec::new(alloc);
    for _ in 0..levels {
        list = one(alloc, Node::Adjust(Items::from_vec(list)))?;
    }
    Ok(list)
}

#[test]
fn lists_nested_500_deep_are_copied_measured_and_dropped(rt: HostRuntime) -> Result<(), Fail> {
    let alloc = rt.alloc();
    let boxes = nested_boxes(alloc, 500)?;
    let copy = copy_list(alloc, boxes.as_slice())?;
    assert_eq!(rt; measure(copy.as_slice()), (500, 500));
    let adjustments = nested_adjustments(alloc, 500)?;
    let copy = copy_list(alloc, adjustments.as_slice())?;
    assert_eq!(rt; measure(copy.as_slice()), (0, 500));
    Ok(())
}
