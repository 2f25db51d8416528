//! Whole files: what stands in front of the pages, the fonts, and what stands behind.

use crate::tests::material::{
    NO_SIZES, Sizes, body, box_of, font, hbox, kern, letter, letter_of, nested, part,
};
use crate::{Dvi, FontDef};
use nodes::{BoxNode, Node};
use std::alloc::{AllocError, Global};
use std::test::Fail;
use tokens::Stop;

/// A letter of a font in which A is 5pt wide and B 10pt, and both are 7.5pt high.
fn wide(byte: u8) -> Node {
    Node::Char {
        font: 1,
        byte,
        width: if byte == b'A' { 327680 } else { 655360 },
        height: 491520,
        depth: 0,
        italic: 0,
    }
}

const LINE: Sizes = Sizes {
    width: 983040,
    height: 491520,
    depth: 0,
    shift: 0,
};

const LINE_AND_RULE: Sizes = Sizes {
    width: 983040,
    height: 557056,
    depth: 0,
    shift: 0,
};

/// `\vbox{\hbox{AB}\hrule height1pt}`
fn words_and_rule(alloc: Global) -> Result<BoxNode, AllocError> {
    let words = Vec::from_array(alloc, [wide(b'A'), wide(b'B')])?;
    let rule = Node::Rule {
        width: None,
        height: Some(65536),
        depth: Some(0),
    };
    let list = [nested(alloc, box_of(false, LINE, words))?, rule];
    Ok(box_of(true, LINE_AND_RULE, Vec::from_array(alloc, list)?))
}

/// The file of one page.
fn file_of(alloc: Global, shipped: &BoxNode, fonts: &[FontDef]) -> Result<Dvi, Stop> {
    let mut dvi = Dvi::new(alloc);
    dvi.begin(1000, b" TeX output 1776.07.04:1200")?;
    dvi.page(shipped, [0; 10], (0, 0), fonts)?;
    dvi.finish()?;
    Ok(dvi)
}

pub(crate) const WORDS_AND_RULE: [u8; 192] = [
    0xf7, 0x02, 0x01, 0x83, 0x92, 0xc0, 0x1c, 0x3b, 0x00, 0x00, 0x00, 0x00, 0x03, 0xe8, 0x1b, 0x20,
    0x54, 0x65, 0x58, 0x20, 0x6f, 0x75, 0x74, 0x70, 0x75, 0x74, 0x20, 0x31, 0x37, 0x37, 0x36, 0x2e,
    0x30, 0x37, 0x2e, 0x30, 0x34, 0x3a, 0x31, 0x32, 0x30, 0x30, 0x8b, 0x00, 0x00, 0x00, 0x00, 0x00,
    0x00, 0x00, 0x00, 0x00, 0x00, 0x00, 0x00, 0x00, 0x00, 0x00, 0x00, 0x00, 0x00, 0x00, 0x00, 0x00,
    0x00, 0x00, 0x00, 0x00, 0x00, 0x00, 0x00, 0x00, 0x00, 0x00, 0x00, 0x00, 0x00, 0x00, 0x00, 0x00,
    0x00, 0x00, 0x00, 0xff, 0xff, 0xff, 0xff, 0x9f, 0x07, 0x80, 0x00, 0x8d, 0xf3, 0x00, 0x01, 0x02,
    0x03, 0x04, 0x00, 0x0a, 0x00, 0x00, 0x00, 0x0a, 0x00, 0x00, 0x00, 0x04, 0x74, 0x66, 0x31, 0x30,
    0xab, 0x41, 0x42, 0x8e, 0x9f, 0x01, 0x00, 0x00, 0x89, 0x00, 0x01, 0x00, 0x00, 0x00, 0x0f, 0x00,
    0x00, 0x8c, 0xf8, 0x00, 0x00, 0x00, 0x2a, 0x01, 0x83, 0x92, 0xc0, 0x1c, 0x3b, 0x00, 0x00, 0x00,
    0x00, 0x03, 0xe8, 0x00, 0x08, 0x80, 0x00, 0x00, 0x0f, 0x00, 0x00, 0x00, 0x01, 0x00, 0x01, 0xf3,
    0x00, 0x01, 0x02, 0x03, 0x04, 0x00, 0x0a, 0x00, 0x00, 0x00, 0x0a, 0x00, 0x00, 0x00, 0x04, 0x74,
    0x66, 0x31, 0x30, 0xf9, 0x00, 0x00, 0x00, 0x82, 0x02, 0xdf, 0xdf, 0xdf, 0xdf, 0xdf, 0xdf, 0xdf,
];

#[test]
fn a_line_and_a_rule_give_the_file_that_tex_writes(rt: HostRuntime) -> Result<(), Fail> {
    let alloc = rt.alloc();
    let mut dvi = file_of(alloc, &words_and_rule(alloc)?, &[font(alloc, 1)?])?;
    assert_eq!(rt; dvi.length(), 192);
    assert_eq!(rt; dvi.take_bytes().as_slice(), WORDS_AND_RULE.as_slice());
    Ok(())
}

/// What the page of letters with two equal kerns has behind the head of its bop.
const EQUAL_KERNS: [u8; 33] = [
    0x9f, 0x07, 0x80, 0x00, 0xf3, 0x00, 0x01, 0x02, 0x03, 0x04, 0x00, 0x0a, 0x00, 0x00, 0x00, 0x0a,
    0x00, 0x00, 0x00, 0x04, 0x74, 0x66, 0x31, 0x30, 0xab, 0x41, 0x96, 0x01, 0x00, 0x00, 0x41, 0x93,
    0x41,
];

#[test]
fn an_equal_kern_is_repeated_by_one_byte(rt: HostRuntime) -> Result<(), Fail> {
    let alloc = rt.alloc();
    let list = [wide(b'A'), kern(65536), wide(b'A'), kern(65536), wide(b'A')];
    let sizes = Sizes {
        width: 1114112,
        height: 491520,
        depth: 0,
        shift: 0,
    };
    let shipped = box_of(false, sizes, Vec::from_array(alloc, list)?);
    let mut dvi = file_of(alloc, &shipped, &[font(alloc, 1)?])?;
    assert_eq!(rt; dvi.length(), 180);
    let bytes = dvi.take_bytes();
    let page = part(alloc, bytes.as_slice(), 87, EQUAL_KERNS.len())?;
    assert_eq!(rt; page.as_slice(), EQUAL_KERNS.as_slice());
    Ok(())
}

#[test]
fn an_empty_page_makes_a_file_of_128_bytes(rt: HostRuntime) -> Result<(), Fail> {
    let alloc = rt.alloc();
    let dvi = file_of(alloc, &hbox(Vec::new(alloc)), &[])?;
    assert_eq!(rt; (dvi.length(), dvi.pages()), (128, 1));
    Ok(())
}

/// The font 64 of the nodes has the number 63 in the file, and a command of one byte chooses it; 65 has 64, and two.
#[test]
fn the_65th_font_is_chosen_by_two_bytes(rt: HostRuntime) -> Result<(), Fail> {
    let alloc = rt.alloc();
    let list = [
        letter_of(64, b'A'),
        letter_of(65, b'A'),
        letter_of(65, 200),
        letter_of(64, 127),
        letter_of(64, 128),
    ];
    let page = body(alloc, &hbox(Vec::from_array(alloc, list)?))?;
    assert_eq!(rt;
        page.as_slice(),
        b"\xea\x41\xeb\x40\x41\x80\xc8\xea\x7f\x80\x80".as_slice()
    );
    Ok(())
}

/// Two pages in the fonts 2 and 1: the lengths of the file behind each, and what follows them.
fn two_pages(alloc: Global) -> Result<(u64, u64, Vec<u8>), Stop> {
    let fonts = [font(alloc, 1)?, font(alloc, 2)?];
    let list = Vec::from_array(alloc, [letter_of(2, b'A'), letter_of(1, b'A')])?;
    let shipped = hbox(list);
    let mut dvi = Dvi::new(alloc);
    dvi.page(&shipped, [0; 10], (0, 0), &fonts)?;
    let first = dvi.length();
    dvi.page(&shipped, [0; 10], (0, 0), &fonts)?;
    let second = dvi.length();
    let _pages = dvi.take_bytes();
    dvi.finish()?;
    Ok((first, second, dvi.take_bytes()))
}

/// Two definitions of 19 bytes and their beginning stand on the first page, and again behind the pages, where the first
/// number comes last.
#[test]
fn fonts_are_defined_once_and_again_at_the_end(rt: HostRuntime) -> Result<(), Fail> {
    let (first, second, end) = two_pages(rt.alloc())?;
    assert_eq!(rt; (first, second), (46 + 4 + 40, 46 + 4 + 40 + 46 + 4));
    assert_eq!(rt;
        part(rt.alloc(), end.as_slice(), 29, 2)?.as_slice(),
        b"\xf3\x01".as_slice()
    );
    assert_eq!(rt;
        part(rt.alloc(), end.as_slice(), 49, 2)?.as_slice(),
        b"\xf3\x00".as_slice()
    );
    assert_eq!(rt;
        part(rt.alloc(), end.as_slice(), 69, 6)?.as_slice(),
        b"\xf9\x00\x00\x00\x8c\x02".as_slice()
    );
    Ok(())
}

const COUNTS: [i32; 10] = [-1, -2147483648, 2147483647, 0, 1, 2, 3, 4, 5, -6];

#[test]
fn counts_below_0_are_written_with_their_sign(rt: HostRuntime) -> Result<(), Fail> {
    let alloc = rt.alloc();
    let mut dvi = Dvi::new(alloc);
    dvi.page(&hbox(Vec::new(alloc)), COUNTS, (0, 0), &[])?;
    let page = dvi.take_bytes();
    assert_eq!(rt;
        part(alloc, page.as_slice(), 1, 12)?.as_slice(),
        b"\xff\xff\xff\xff\x80\x00\x00\x00\x7f\xff\xff\xff".as_slice()
    );
    assert_eq!(rt;
        part(alloc, page.as_slice(), 37, 4)?.as_slice(),
        b"\xff\xff\xff\xfa".as_slice()
    );
    Ok(())
}

/// The portions of one file: behind its beginning, behind its page, and behind its end.
fn in_portions(alloc: Global) -> Result<Vec<u8>, Stop> {
    let shipped = words_and_rule(alloc)?;
    let mut whole = Vec::new(alloc);
    let mut dvi = Dvi::new(alloc);
    dvi.begin(1000, b" TeX output 1776.07.04:1200")?;
    whole.extend_from_slice(dvi.take_bytes().as_slice())?;
    dvi.page(&shipped, [0; 10], (0, 0), &[font(alloc, 1)?])?;
    whole.extend_from_slice(dvi.take_bytes().as_slice())?;
    dvi.finish()?;
    whole.extend_from_slice(dvi.take_bytes().as_slice())?;
    whole.extend_from_slice(dvi.take_bytes().as_slice())?;
    Ok(whole)
}

#[test]
fn portions_of_two_files_are_the_whole_files(rt: HostRuntime) -> Result<(), Fail> {
    for _ in 0..2 {
        assert_eq!(rt;
            in_portions(rt.alloc())?.as_slice(),
            WORDS_AND_RULE.as_slice()
        );
    }
    Ok(())
}

/// Where the greatest sizes and the greatest depth of push stand in the end of a file.
fn greatest(alloc: Global, pages: &[(BoxNode, (i32, i32))]) -> Result<Vec<u8>, Stop> {
    let mut dvi = Dvi::new(alloc);
    for (shipped, offset) in pages {
        dvi.page(shipped, [0; 10], *offset, &[])?;
    }
    let _pages = dvi.take_bytes();
    dvi.finish()?;
    Ok(part(alloc, dvi.take_bytes().as_slice(), 17, 12)?)
}

fn sized(alloc: Global, width: i32, height: i32, depth: i32) -> BoxNode {
    let sizes = Sizes {
        width,
        height,
        depth,
        shift: 0,
    };
    box_of(false, sizes, Vec::new(alloc))
}

#[test]
fn the_end_tells_the_greatest_sizes_that_are_at_least_0(rt: HostRuntime) -> Result<(), Fail> {
    let alloc = rt.alloc();
    let pages = [
        (sized(alloc, 300, 20, 3), (-50, 7)),
        (sized(alloc, 290, 29, 2), (0, -1)),
    ];
    assert_eq!(rt;
        greatest(alloc, &pages)?.as_slice(),
        b"\x00\x00\x00\x1e\x00\x00\x01\x22\x00\x00\x00\x02".as_slice()
    );
    let below = [(sized(alloc, -5, -3, 1), (0, 0))];
    assert_eq!(rt;
        greatest(alloc, &below)?.as_slice(),
        b"\x00\x00\x00\x00\x00\x00\x00\x00\x00\x00\x00\x01".as_slice()
    );
    Ok(())
}

/// A box in a box that holds a kern alone: no push stays on the page, and two count.
#[test]
fn pushes_that_are_dropped_count_for_the_greatest_depth(rt: HostRuntime) -> Result<(), Fail> {
    let alloc = rt.alloc();
    let innermost = nested(alloc, hbox(Vec::from_array(alloc, [kern(5)])?))?;
    let inner = nested(alloc, hbox(Vec::from_array(alloc, [innermost])?))?;
    let shipped = box_of(
        false,
        NO_SIZES,
        Vec::from_array(alloc, [inner, letter(b'A')])?,
    );
    assert_eq!(rt; body(alloc, &shipped)?.as_slice(), b"\xab\x41".as_slice());
    let pages = [(shipped, (0, 0))];
    assert_eq!(rt;
        greatest(alloc, &pages)?.as_slice(),
        b"\x00\x00\x00\x00\x00\x00\x00\x00\x00\x02\x00\x01".as_slice()
    );
    Ok(())
}
