//! Boxes and what stands in them, and the bytes of their pages.

use crate::{Dvi, FontDef};
use nodes::{BoxNode, GlueSet, KernKind, Leaders, Node, SkipNode, Whatsit};
use scaled::{Glue, Order};
use sqlite_items::{Boxed, Items};
use std::alloc::{AllocError, Global};
use tokens::Stop;

pub(crate) const UNSET: GlueSet = GlueSet {
    sign: 0,
    order: Order::Normal,
    excess: 0,
    total: 0,
};

/// The sizes of a box, and by how much it is moved.
#[derive(Clone, Copy)]
pub(crate) struct Sizes {
    pub(crate) width: i32,
    pub(crate) height: i32,
    pub(crate) depth: i32,
    pub(crate) shift: i32,
}

pub(crate) const NO_SIZES: Sizes = Sizes {
    width: 0,
    height: 0,
    depth: 0,
    shift: 0,
};

pub(crate) fn box_of(vertical: bool, sizes: Sizes, list: Vec<Node>) -> BoxNode {
    BoxNode {
        vertical,
        width: sizes.width,
        height: sizes.height,
        depth: sizes.depth,
        shift: sizes.shift,
        list: Items::from_vec(list),
        set: UNSET,
        nesting: 1,
        count: 0,
    }
}

/// An hbox without sizes.
pub(crate) fn hbox(list: Vec<Node>) -> BoxNode {
    box_of(false, NO_SIZES, list)
}

/// A letter of the first font, without a width.
pub(crate) fn letter(byte: u8) -> Node {
    letter_of(1, byte)
}

pub(crate) fn letter_of(font: u8, byte: u8) -> Node {
    Node::Char {
        font,
        byte,
        width: 0,
        height: 0,
        depth: 0,
        italic: 0,
    }
}

pub(crate) fn kern(width: i32) -> Node {
    Node::Kern {
        width,
        how: KernKind::Explicit,
    }
}

pub(crate) fn nested(alloc: Global, boxed: BoxNode) -> Result<Node, AllocError> {
    Ok(Node::Boxed(Boxed::new(alloc, boxed)?))
}

pub(crate) fn special(alloc: Global, bytes: &[u8]) -> Result<Node, AllocError> {
    let bytes = Items::from_slice(alloc, bytes)?;
    Ok(Node::Whatsit(Boxed::new(alloc, Whatsit::Special(bytes))?))
}

pub(crate) fn glue(alloc: Global, glue: Glue) -> Result<Node, AllocError> {
    let skip = SkipNode {
        glue,
        name: 0,
        leaders: None,
    };
    Ok(Node::Skip(Boxed::new(alloc, skip)?))
}

/// A space of a width that an item fills, in one of the three ways.
pub(crate) fn leaders(alloc: Global, width: i32, how: u8, item: Node) -> Result<Node, AllocError> {
    let item = Boxed::new(alloc, item)?;
    let skip = SkipNode {
        glue: rigid(width),
        name: 0,
        leaders: Some(Leaders { how, item }),
    };
    Ok(Node::Skip(Boxed::new(alloc, skip)?))
}

pub(crate) fn rigid(width: i32) -> Glue {
    Glue {
        width,
        stretch: 0,
        stretch_order: Order::Normal,
        shrink: 0,
        shrink_order: Order::Normal,
    }
}

/// A font of 10pt.
pub(crate) fn font(alloc: Global, number: u8) -> Result<FontDef, AllocError> {
    Ok(FontDef {
        number,
        checksum: 0x01020304,
        size: 655360,
        design: 655360,
        name: Items::from_slice(alloc, b"tf10")?,
    })
}

/// The bytes of a page between its bop and its eop. No font is there, so that none is defined.
pub(crate) fn body(alloc: Global, shipped: &BoxNode) -> Result<Vec<u8>, Stop> {
    let mut dvi = Dvi::new(alloc);
    dvi.page(shipped, [0; 10], (0, 0), &[])?;
    let page = dvi.take_bytes();
    Ok(part(alloc, page.as_slice(), 45, page.len().saturating_sub(46))?)
}

/// So many bytes behind the first ones.
pub(crate) fn part(
    alloc: Global,
    bytes: &[u8],
    first: usize,
    count: usize,
) -> Result<Vec<u8>, AllocError> {
    let mut part = Vec::new(alloc);
    for byte in bytes.iter().skip(first).take(count) {
        part.push(*byte)?;
    }
    Ok(part)
}
