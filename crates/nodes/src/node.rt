//! A node, of twelve kinds (`tex.web`, sections 133 to 160).

use crate::boxes::BoxNode;
use crate::discretionary::DiscNode;
use crate::ligature::LigNode;
use crate::page_material::{InsertNode, MarkNode};
use crate::spacing::SkipNode;
use crate::whatsit::Whatsit;
use sqlite_items::{Boxed, Items};

/// One item of a list. Large kinds stand behind a box, so that a node is four words and a character costs no heap.
#[derive(Debug, Drop)]
pub enum Node {
    /// A character of a font, with its metrics in sp (`tex.web`, section 134).
    Char {
        font: u8,
        byte: u8,
        width: i32,
        height: i32,
        depth: i32,
        italic: i32,
    },
    /// A character that stands for others of its font.
    Lig(Boxed<LigNode>),
    /// An hbox or a vbox.
    Boxed(Boxed<BoxNode>),
    /// A rule. A dimension that is missing is that of the box around it (`tex.web`, section 138).
    Rule {
        width: Option<i32>,
        height: Option<i32>,
        depth: Option<i32>,
    },
    /// Glue, or leaders.
    Skip(Boxed<SkipNode>),
    /// A kern, in sp (`tex.web`, section 155).
    Kern {
        width: i32,
        how: KernKind,
    },
    /// A penalty (`tex.web`, section 157).
    Penalty(i32),
    /// A discretionary break.
    Disc(Boxed<DiscNode>),
    /// A mark.
    Mark(Boxed<MarkNode>),
    /// An insertion.
    Insert(Boxed<InsertNode>),
    /// Vertical material that goes behind the line in which it stands (`tex.web`, section 142).
    Adjust(Items<Node>),
    /// What is done when the box is shipped.
    Whatsit(Boxed<Whatsit>),
}

/// Where a kern comes from: a line can break at one that was asked for, and not at the others (`tex.web`,
/// section 155).
#[derive(Clone, Copy, Debug, PartialEq, Eq)]
pub enum KernKind {
    /// From the font, or the italic correction.
    Font,
    /// From `\kern`.
    Explicit,
    /// Around the accent of `\accent`.
    Accent,
}

const _: () = prove!(size_of::<Node>() == 32);
