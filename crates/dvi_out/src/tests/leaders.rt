//! Leaders: a space of 34 that begins 3 from the edge of its box, and a special behind it.

use crate::tests::material::{
    NO_SIZES, Sizes, body, box_of, kern, leaders, letter, nested, special,
};
use nodes::{BoxNode, Node};
use std::alloc::{AllocError, Global};
use std::test::Fail;
use tokens::Stop;

/// The box that is copied, 10 wide, 6 high, 4 deep and moved by 2.
const COPIED: Sizes = Sizes {
    width: 10,
    height: 6,
    depth: 4,
    shift: 2,
};

fn copied(alloc: Global, list: Vec<Node>) -> Result<Node, AllocError> {
    nested(alloc, box_of(false, COPIED, list))
}

/// A box that holds one letter.
fn letters(alloc: Global) -> Result<Node, AllocError> {
    copied(alloc, Vec::from_array(alloc, [letter(b'A')])?)
}

/// A box around leaders, 9 wide, 7 high and 5 deep where its sizes are asked for.
fn around(alloc: Global, vertical: bool, from: i32, space: Node) -> Result<BoxNode, AllocError> {
    let sizes = Sizes {
        width: 9,
        height: if vertical { 0 } else { 7 },
        depth: 5,
        shift: 0,
    };
    let list = [kern(from), space, special(alloc, b"")?];
    Ok(box_of(vertical, sizes, Vec::from_array(alloc, list)?))
}

/// The bytes of a page with leaders from a place.
fn page(alloc: Global, vertical: bool, from: i32, space: Node) -> Result<Vec<u8>, Stop> {
    body(alloc, &around(alloc, vertical, from, space)?)
}

/// Two copies at 10 and 20; three at 5, 15 and 25; three at 4, 15 and 26.
const ACROSS: [&[u8]; 3] = [
    b"\x9d\x09\x94\x0a\x8d\xab\x41\x8e\x93\x8d\x41\x8e\x8f\x11\x9d\xfe\xef\x00",
    b"\x9d\x09\x8f\x05\x8d\xab\x41\x8e\x94\x0a\x8d\x41\x8e\x93\x8d\x41\x8e\x8f\x0c\x9d\xfe\xef\x00",
    b"\x9d\x09\x8f\x04\x8d\xab\x41\x8e\x94\x0b\x8d\x41\x8e\x93\x8d\x41\x8e\x93\x9d\xfe\xef\x00",
];

/// The same from the top of a vertical list.
const DOWN: [&[u8]; 3] = [
    b"\x8f\x02\x9d\x10\x8d\xab\x41\x8e\x9d\x0a\x8d\x41\x8e\x8f\xfe\x9d\x0b\xef\x00",
    b"\x8f\x02\x9d\x0b\x8d\xab\x41\x8e\xa2\x0a\x8d\x41\x8e\xa1\x8d\x41\x8e\x8f\xfe\x9d\x06\xef\x00",
    b"\x8f\x02\x9d\x0a\x8d\xab\x41\x8e\xa2\x0b\x8d\x41\x8e\xa1\x8d\x41\x8e\x8f\xfe\x9d\x05\xef\x00",
];

#[test]
fn copies_stand_by_multiples_in_the_middle_or_spread_out(rt: HostRuntime) -> Result<(), Fail> {
    let alloc = rt.alloc();
    for how in 0..3u8 {
        let across = page(alloc, false, 3, leaders(alloc, 34, how, letters(alloc)?)?)?;
        assert_eq!(rt;
            across.as_slice(),
            ACROSS[usize::from(how)],
            "across, {how}"
        );
        let down = page(alloc, true, 3, leaders(alloc, 34, how, letters(alloc)?)?)?;
        assert_eq!(rt; down.as_slice(), DOWN[usize::from(how)], "down, {how}");
    }
    Ok(())
}

#[test]
fn copies_begin_in_front_of_the_edge_where_the_space_does(rt: HostRuntime) -> Result<(), Fail> {
    let alloc = rt.alloc();
    let aligned = page(alloc, false, -13, leaders(alloc, 34, 0, letters(alloc)?)?)?;
    assert_eq!(rt;
        aligned.as_slice(),
        b"\x9d\x09\x8f\xf6\x8d\xab\x41\x8e\x94\x0a\x8d\x41\x8e\x93\x8d\x41\x8e\x8f\x0b\x9d\xfe\xef\x00".as_slice()
    );
    Ok(())
}

#[test]
fn copies_of_nothing_leave_no_push_and_no_pop(rt: HostRuntime) -> Result<(), Fail> {
    let alloc = rt.alloc();
    let nothing = copied(alloc, Vec::new(alloc))?;
    let across = page(alloc, false, 3, leaders(alloc, 34, 0, nothing)?)?;
    assert_eq!(rt;
        across.as_slice(),
        b"\x9d\x09\x94\x0a\x93\x8f\x11\x9d\xfe\xef\x00".as_slice()
    );
    let nothing = copied(alloc, Vec::new(alloc))?;
    let down = page(alloc, true, 3, leaders(alloc, 34, 0, nothing)?)?;
    assert_eq!(rt;
        down.as_slice(),
        b"\x8f\x02\x9d\x10\x9d\x0a\x8f\xfe\x9d\x0b\xef\x00".as_slice()
    );
    Ok(())
}

/// A box without sizes, and a letter that can't be an item: both leave the space empty.
#[test]
fn leaders_without_a_size_are_an_empty_space(rt: HostRuntime) -> Result<(), Fail> {
    let alloc = rt.alloc();
    let list = Vec::from_array(alloc, [letter(b'A')])?;
    let sizeless = nested(alloc, box_of(false, NO_SIZES, list))?;
    let space = page(alloc, false, 3, leaders(alloc, 34, 1, sizeless)?)?;
    assert_eq!(rt; space.as_slice(), b"\x8f\x25\x9d\x07\xef\x00".as_slice());
    let space = page(alloc, true, 3, leaders(alloc, 34, 1, letter(b'A'))?)?;
    assert_eq!(rt; space.as_slice(), b"\x9d\x25\xef\x00".as_slice());
    Ok(())
}

fn running_rule() -> Node {
    Node::Rule {
        width: None,
        height: None,
        depth: None,
    }
}

#[test]
fn a_rule_fills_the_whole_space(rt: HostRuntime) -> Result<(), Fail> {
    let alloc = rt.alloc();
    let across = page(alloc, false, 3, leaders(alloc, 34, 0, running_rule())?)?;
    assert_eq!(rt;
        across.as_slice(),
        b"\x8f\x03\x9d\x0c\x84\x00\x00\x00\x0c\x00\x00\x00\x22\x9d\xfb\xef\x00".as_slice()
    );
    let down = page(alloc, true, 3, leaders(alloc, 34, 0, running_rule())?)?;
    assert_eq!(rt;
        down.as_slice(),
        b"\x9d\x25\x89\x00\x00\x00\x22\x00\x00\x00\x09\xef\x00".as_slice()
    );
    Ok(())
}
