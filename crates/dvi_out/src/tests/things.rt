//! Glue, rules, boxes and specials on a page.

use crate::tests::material::{
    NO_SIZES, Sizes, body, box_of, glue, hbox, kern, letter, nested, part, special,
};
use nodes::{BoxNode, GlueSet, Node};
use scaled::{Glue, Order};
use std::alloc::{AllocError, Global};
use std::test::Fail;

/// Three glues of a width that stretch and shrink by 1, each with a special behind it.
fn three_glues(alloc: Global, width: i32, set: GlueSet) -> Result<BoxNode, AllocError> {
    let one = Glue {
        width,
        stretch: 1,
        stretch_order: Order::Normal,
        shrink: 1,
        shrink_order: Order::Normal,
    };
    let mut list = Vec::new(alloc);
    for _ in 0..3 {
        list.push(glue(alloc, one)?)?;
        list.push(special(alloc, b"")?)?;
    }
    let mut shipped = hbox(list);
    shipped.set = set;
    Ok(shipped)
}

fn set_by(sign: i8, order: Order, excess: i64, total: i64) -> GlueSet {
    GlueSet {
        sign,
        order,
        excess,
        total,
    }
}

/// Stretched by 2 the glues lead to 1, 1 and 2; shrunk by 2 from 5 each, to 4, 9 and 13; by no set of theirs, to 5, 10 and
/// 15.
#[test]
fn glue_is_rounded_once_for_all_of_it(rt: HostRuntime) -> Result<(), Fail> {
    let alloc = rt.alloc();
    let stretched = three_glues(alloc, 0, set_by(1, Order::Normal, 2, 3))?;
    assert_eq!(rt;
        body(alloc, &stretched)?.as_slice(),
        b"\x94\x01\xef\x00\xef\x00\x93\xef\x00".as_slice()
    );
    let shrunk = three_glues(alloc, 5, set_by(-1, Order::Normal, -2, 3))?;
    assert_eq!(rt;
        body(alloc, &shrunk)?.as_slice(),
        b"\x94\x04\xef\x00\x8f\x05\xef\x00\x93\xef\x00".as_slice()
    );
    let kept = three_glues(alloc, 5, set_by(1, Order::Fil, 2, 3))?;
    assert_eq!(rt;
        body(alloc, &kept)?.as_slice(),
        b"\x94\x05\xef\x00\x93\xef\x00\x93\xef\x00".as_slice()
    );
    Ok(())
}

/// One half is rounded to 1 and one half below 0 to -1; far more is held within 1,000,000,000.
#[test]
fn halves_are_rounded_away_from_0_and_growth_is_held(rt: HostRuntime) -> Result<(), Fail> {
    let alloc = rt.alloc();
    let half = three_glues(alloc, 0, set_by(1, Order::Normal, 1, 2))?;
    assert_eq!(rt;
        body(alloc, &half)?.as_slice(),
        b"\x94\x01\xef\x00\xef\x00\x93\xef\x00".as_slice()
    );
    let minus_half = three_glues(alloc, 0, set_by(-1, Order::Normal, -1, 2))?;
    assert_eq!(rt;
        body(alloc, &minus_half)?.as_slice(),
        b"\x94\xff\xef\x00\xef\x00\x93\xef\x00".as_slice()
    );
    let far = three_glues(alloc, 0, set_by(1, Order::Normal, 3000000000, 1))?;
    assert_eq!(rt;
        body(alloc, &far)?.as_slice(),
        b"\x92\x3b\x9a\xca\x00\xef\x00\xef\x00\xef\x00".as_slice()
    );
    Ok(())
}

fn rule(width: Option<i32>, height: Option<i32>, depth: Option<i32>) -> Node {
    Node::Rule {
        width,
        height,
        depth,
    }
}

/// The sizes of a box around rules.
const AROUND: Sizes = Sizes {
    width: 9,
    height: 7,
    depth: 5,
    shift: 0,
};

#[test]
fn rules_take_what_they_lack_from_their_box_and_are_left_out_where_empty(
    rt: HostRuntime,
) -> Result<(), Fail> {
    let alloc = rt.alloc();
    let across = [
        rule(Some(3), None, None),
        rule(Some(4), Some(5), Some(-5)),
        rule(Some(0), Some(1), Some(1)),
        rule(Some(2), Some(6), Some(1)),
        letter(b'A'),
    ];
    let shipped = box_of(false, AROUND, Vec::from_array(alloc, across)?);
    assert_eq!(rt;
        body(alloc, &shipped)?.as_slice(),
        b"\x9d\x0c\x84\x00\x00\x00\x0c\x00\x00\x00\x03\x8f\x04\x9d\xfc\x84\x00\x00\x00\x07\x00\x00\x00\x02\x9d\xff\xab\x41".as_slice()
    );
    let down = [
        rule(None, Some(3), Some(1)),
        rule(Some(6), Some(2), Some(-2)),
        rule(Some(0), Some(1), Some(1)),
        rule(Some(2), Some(6), Some(1)),
        special(alloc, b"")?,
    ];
    let shipped = box_of(true, AROUND, Vec::from_array(alloc, down)?);
    assert_eq!(rt;
        body(alloc, &shipped)?.as_slice(),
        b"\x9d\x04\x89\x00\x00\x00\x04\x00\x00\x00\x09\x9d\x09\x89\x00\x00\x00\x07\x00\x00\x00\x02\xef\x00".as_slice()
    );
    Ok(())
}

/// A box 7 wide, 1 high and 2 deep.
fn small(alloc: Global, list: Vec<Node>) -> Result<Node, AllocError> {
    let sizes = Sizes {
        width: 7,
        height: 1,
        depth: 2,
        shift: 0,
    };
    nested(alloc, box_of(false, sizes, list))
}

#[test]
fn a_box_without_items_only_moves(rt: HostRuntime) -> Result<(), Fail> {
    let alloc = rt.alloc();
    let across = [small(alloc, Vec::new(alloc))?, letter(b'A')];
    let shipped = hbox(Vec::from_array(alloc, across)?);
    assert_eq!(rt;
        body(alloc, &shipped)?.as_slice(),
        b"\x8f\x07\xab\x41".as_slice()
    );
    let down = [small(alloc, Vec::new(alloc))?, special(alloc, b"")?];
    let shipped = box_of(true, NO_SIZES, Vec::from_array(alloc, down)?);
    assert_eq!(rt;
        body(alloc, &shipped)?.as_slice(),
        b"\x9d\x03\xef\x00".as_slice()
    );
    assert_eq!(rt;
        body(alloc, &hbox(Vec::new(alloc)))?.as_slice(),
        b"".as_slice()
    );
    Ok(())
}

#[test]
fn a_push_with_nothing_behind_it_is_dropped(rt: HostRuntime) -> Result<(), Fail> {
    let alloc = rt.alloc();
    let inner = Vec::from_array(alloc, [kern(5)])?;
    let shipped = hbox(Vec::from_array(alloc, [small(alloc, inner)?, letter(b'A')])?);
    assert_eq!(rt;
        body(alloc, &shipped)?.as_slice(),
        b"\x8f\x07\xab\x41".as_slice()
    );
    Ok(())
}

#[test]
fn boxes_of_a_vertical_list_stand_at_their_baselines_and_shifts(
    rt: HostRuntime,
) -> Result<(), Fail> {
    let alloc = rt.alloc();
    let sizes = Sizes {
        width: 9,
        height: 4,
        depth: 1,
        shift: 2,
    };
    let mut list = Vec::new(alloc);
    for _ in 0..2 {
        let inner = Vec::from_array(alloc, [letter(b'A')])?;
        list.push(nested(alloc, box_of(false, sizes, inner))?)?;
    }
    let shipped = box_of(true, NO_SIZES, list);
    assert_eq!(rt;
        body(alloc, &shipped)?.as_slice(),
        b"\x9d\x04\x8d\x8f\x02\xab\x41\x8e\x9d\x05\x8d\x8f\x02\x41\x8e".as_slice()
    );
    Ok(())
}

/// A page of one special of so many bytes: the bytes in front of it, and how many stand there in all.
fn special_page(alloc: Global, length: usize) -> Result<(Vec<u8>, usize), Fail> {
    let bytes = Vec::from_array(alloc, [b'x'; 256])?;
    let text = part(alloc, bytes.as_slice(), 0, length)?;
    let shipped = hbox(Vec::from_array(alloc, [special(alloc, text.as_slice())?])?);
    let page = body(alloc, &shipped)?;
    let head = part(alloc, page.as_slice(), 0, page.len().saturating_sub(length))?;
    Ok((head, page.len()))
}

#[test]
fn a_special_of_256_bytes_has_four_bytes_for_its_length(rt: HostRuntime) -> Result<(), Fail> {
    let (head, length) = special_page(rt.alloc(), 255)?;
    assert_eq!(rt; head.as_slice(), b"\xef\xff".as_slice());
    assert_eq!(rt; length, 257);
    let (head, length) = special_page(rt.alloc(), 256)?;
    assert_eq!(rt; head.as_slice(), b"\xf2\x00\x00\x01\x00".as_slice());
    assert_eq!(rt; length, 261);
    Ok(())
}
