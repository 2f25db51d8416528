//! What is refused, what is taken modulo 2^32, and boxes deep inside one another.

use crate::Dvi;
use crate::tests::material::{Sizes, body, box_of, hbox, kern, letter, nested, part, special};
use nodes::{BoxNode, Node, into_vec};
use std::alloc::{AllocError, Global};
use std::test::Fail;
use tokens::{Cap, Kind, Stop};

/// Width, height and depth of a page, and its offset.
type Reach = ((i32, i32, i32), (i32, i32));

/// The largest pages.
const LARGEST: [Reach; 5] = [
    ((1073741823, 1073741823, 0), (0, 0)),
    ((0, 0, 1073741823), (0, 0)),
    ((0, 1073741823, 1073741823), (0, -1073741823)),
    ((2147483647, 0, 0), (-1073741824, 0)),
    ((0, -2147483648, -2147483648), (-2147483648, -2147483648)),
];

/// Pages that are larger by one.
const TOO_LARGE: [Reach; 6] = [
    ((0, 1073741824, -1), (0, -1)),
    ((0, -1, 1073741824), (0, -1)),
    ((0, 1073741823, 1), (0, 0)),
    ((0, 1073741823, 0), (0, 1)),
    ((1073741824, 0, 0), (0, 0)),
    ((1073741823, 0, 0), (1, 0)),
];

fn empty_page(alloc: Global, sizes: (i32, i32, i32)) -> BoxNode {
    let sizes = Sizes {
        width: sizes.0,
        height: sizes.1,
        depth: sizes.2,
        shift: 0,
    };
    box_of(false, sizes, Vec::new(alloc))
}

fn is_huge(answer: &Result<(), Stop>) -> bool {
    match answer {
        Err(Stop::Trouble(kind)) => matches!(kind, Kind::HugePage),
        _ => false,
    }
}

fn passes(answer: &Result<(), Stop>, limit: Cap) -> bool {
    match answer {
        Err(Stop::Capacity(cap)) => *cap == limit,
        _ => false,
    }
}

#[test]
fn a_page_that_passes_the_largest_size_is_huge(rt: HostRuntime) -> Result<(), Fail> {
    let alloc = rt.alloc();
    let mut dvi = Dvi::new(alloc);
    for (sizes, offset) in TOO_LARGE {
        let shipped = empty_page(alloc, sizes);
        assert!(rt; is_huge(&dvi.check(&shipped, offset)));
        assert!(rt; is_huge(&dvi.page(&shipped, [0; 10], offset, &[])));
        assert_eq!(rt; (dvi.length(), dvi.pages()), (0, 0));
    }
    for (sizes, offset) in LARGEST {
        let shipped = empty_page(alloc, sizes);
        assert!(rt; dvi.check(&shipped, offset).is_ok());
        dvi.page(&shipped, [0; 10], offset, &[])?;
    }
    assert_eq!(rt; dvi.pages(), 5);
    Ok(())
}

/// A file of so many empty pages.
fn empty_pages(alloc: Global, count: u32) -> Result<Dvi, Stop> {
    let shipped = hbox(Vec::new(alloc));
    let mut dvi = Dvi::new(alloc);
    for _ in 0..count {
        dvi.page(&shipped, [0; 10], (0, 0), &[])?;
    }
    Ok(dvi)
}

#[test]
fn there_are_65535_pages_at_most(rt: HostRuntime) -> Result<(), Fail> {
    let alloc = rt.alloc();
    let mut dvi = empty_pages(alloc, 65534)?;
    let shipped = hbox(Vec::new(alloc));
    assert!(rt; dvi.check(&shipped, (0, 0)).is_ok());
    dvi.page(&shipped, [0; 10], (0, 0), &[])?;
    assert!(rt; passes(&dvi.check(&shipped, (0, 0)), Cap::Pages));
    assert!(rt; passes(&dvi.page(&shipped, [0; 10], (0, 0), &[]), Cap::Pages));
    assert!(rt; is_huge(&dvi.check(&empty_page(alloc, (0, 0, 1073741824)), (0, 0))));
    assert_eq!(rt; (dvi.pages(), dvi.length()), (65535, 65535 * 46));
    Ok(())
}

/// Two specials, of so many bytes. Five bytes stand in front of those of a long one, and two in front of those of a short one.
fn two_specials(alloc: Global, long: usize, short: usize) -> Result<Vec<Node>, AllocError> {
    let mut bytes = Vec::new(alloc);
    for _ in 0..long / 4096 + 1 {
        bytes.extend_from_slice(&[b'x'; 4096])?;
    }
    bytes.truncate(long);
    let first = special(alloc, bytes.as_slice())?;
    bytes.truncate(short);
    let list = [first, special(alloc, bytes.as_slice())?];
    Ok(Vec::from_array(alloc, list)?)
}

/// A bop of 45 bytes and an eop of one stand around both.
#[test]
fn a_page_has_16777215_bytes_at_most(rt: HostRuntime) -> Result<(), Fail> {
    let alloc = rt.alloc();
    let mut dvi = Dvi::new(alloc);
    let longest = hbox(two_specials(alloc, 16777215 - 46 - 5 - 2, 0)?);
    dvi.page(&longest, [0; 10], (0, 0), &[])?;
    let mut list = into_vec(alloc, longest.list)?;
    list.pop();
    list.push(special(alloc, b"x")?)?;
    let longer = hbox(list);
    assert!(rt; passes(&dvi.page(&longer, [0; 10], (0, 0), &[]), Cap::PageBytes));
    assert_eq!(rt; (dvi.length(), dvi.pages()), (16777215, 1));
    Ok(())
}

/// Twice 2^31-1 to the right is 2 to the left.
#[test]
fn positions_are_taken_modulo_2_to_the_32nd(rt: HostRuntime) -> Result<(), Fail> {
    let alloc = rt.alloc();
    let list = [kern(2147483647), kern(2147483647), letter(b'A')];
    let page = body(alloc, &hbox(Vec::from_array(alloc, list)?))?;
    assert_eq!(rt; page.as_slice(), b"\x8f\xfe\xab\x41".as_slice());
    let mut dvi = Dvi::new(alloc);
    let list = [kern(1073741824), letter(b'A')];
    let shipped = hbox(Vec::from_array(alloc, list)?);
    dvi.page(&shipped, [0; 10], (1073741823, -2147483648), &[])?;
    let pages = dvi.take_bytes();
    assert_eq!(rt;
        part(alloc, pages.as_slice(), 45, 12)?.as_slice(),
        b"\x92\x7f\xff\xff\xff\xa0\x80\x00\x00\x00\xab\x41".as_slice()
    );
    Ok(())
}

/// A letter in so many boxes.
fn boxes(alloc: Global, count: u32) -> Result<BoxNode, AllocError> {
    let mut shipped = hbox(Vec::from_array(alloc, [letter(b'A')])?);
    for _ in 1..count {
        let inner = nested(alloc, shipped)?;
        shipped = hbox(Vec::from_array(alloc, [inner])?);
    }
    Ok(shipped)
}

#[test]
fn a_letter_in_500_boxes_stands_behind_499_pushes(rt: HostRuntime) -> Result<(), Fail> {
    let alloc = rt.alloc();
    let mut wanted = Vec::new(alloc);
    for _ in 0..499 {
        wanted.push(141)?;
    }
    wanted.extend_from_slice(b"\xab\x41")?;
    for _ in 0..499 {
        wanted.push(142)?;
    }
    assert_eq!(rt;
        body(alloc, &boxes(alloc, 500)?)?.as_slice(),
        wanted.as_slice()
    );
    Ok(())
}
