//! What stands in a word while it is set (`tex.web`, sections 143 and 1032 to 1037).
ghost use Rattle.std.specs.Prelude.{◌≡◌, ◌++◌, if◌then◌else◌, IfOk, OnOk};
ghost use Rattle.lig_kern.specs.Elements.{is_boundary, is_left, is_right, source_of, taken_source, ligature_of, yields_left, yields_right, nodes_of};
ghost use Rattle.lig_kern.specs.declared.element.Element.TheVariants.{Start};

use nodes::{LigNode, Node};
use sqlite_items::{Boxed, Items};
use std::alloc::{AllocError, Global};
use std::mem::replace;
use tfm::Metrics;

/// What stands in a word, left or right of the cursor.
#[derive(Drop)]
pub(crate) enum Element {
    /// The beginning of a word where no boundary stands.
    Start,
    /// A boundary of the word.
    Boundary,
    /// A character that was fed.
    Character(u8),
    /// A character that the font's program put in.
    Ligature {
        byte: u8,
        /// The characters that it stands for, in order.
        source: Items<u8>,
        /// Whether it also stands for the boundary at its left.
        left: bool,
        /// Whether it also stands for the boundary at its right.
        right: bool,
    },
}

impl Element {
    pub(crate) fn is_boundary(&self) -> bool
        ensures { result ≡ is_boundary self.now }
    {
        match self {
            Element::Start => false,
            Element::Boundary => true,
            Element::Character(_) => false,
            Element::Ligature { .. } => false,
        }
    }

    fn is_left(&self) -> bool
        ensures { result ≡ is_left self.now }
    {
        match self {
            Element::Start => false,
            Element::Boundary => false,
            Element::Character(_) => false,
            Element::Ligature { left, .. } => *left,
        }
    }

    fn is_right(&self) -> bool
        ensures { result ≡ is_right self.now }
    {
        match self {
            Element::Start => false,
            Element::Boundary => false,
            Element::Character(_) => false,
            Element::Ligature { right, .. } => *right,
        }
    }

    /// The characters that it stands for.
    fn into_source(self, alloc: Global) -> Result<Items<u8>, AllocError>
        ensures { IfOk result (λ source. source ≡ source_of self) }
    {
        match self {
            Element::Start => Ok(Items::new(alloc)),
            Element::Boundary => Ok(Items::new(alloc)),
            Element::Character(byte) => Items::from_slice(alloc, &[byte]),
            Element::Ligature { source, .. } => Ok(source),
        }
    }

    /// The same element, which no longer stands for the boundary at its left where another now does.
    pub(crate) fn yield_left(self, yields: bool) -> Element
        ensures { result ≡ yields_left yields self }
    {
        match self {
            Element::Start => Element::Start,
            Element::Boundary => Element::Boundary,
            Element::Character(byte) => Element::Character(byte),
            Element::Ligature {
                byte,
                source,
                left,
                right,
            } => Element::Ligature {
                byte,
                source,
                left: left && !yields,
                right,
            },
        }
    }

    /// The same element, which no longer stands for the boundary at its right where another now does.
    pub(crate) fn yield_right(self, yields: bool) -> Element
        ensures { result ≡ yields_right yields self }
    {
        match self {
            Element::Start => Element::Start,
            Element::Boundary => Element::Boundary,
            Element::Character(byte) => Element::Character(byte),
            Element::Ligature {
                byte,
                source,
                left,
                right,
            } => Element::Ligature {
                byte,
                source,
                left,
                right: right && !yields,
            },
        }
    }
}

/// The characters that a ligature takes over from its neighbour: none where that is kept. What isn't kept is gone.
fn take_source(alloc: Global, kept: bool, element: &mut Element) -> Result<Items<u8>, AllocError>
    ensures source { IfOk result (λ source. source ≡ taken_source kept element.old) }
    ensures rest { OnOk result (element.new ≡ (if kept then element.old else Start)) }
{
    if kept {
        return Ok(Items::new(alloc));
    }
    replace(element, Element::Start).into_source(alloc)
}

/// The ligature that comes between two neighbours, or in place of those that aren't kept, which are then gone.
pub(crate) fn make_ligature(
    alloc: Global,
    byte: u8,
    keep_left: bool,
    keep_right: bool,
    here: &mut Element,
    next: &mut Element,
) -> Result<Element, AllocError>
    ensures ligature { IfOk result (λ made. made ≡ ligature_of byte keep_left keep_right here.old next.old) }
    ensures left_rest { OnOk result (here.new ≡ (if keep_left then here.old else Start)) }
    ensures right_rest { OnOk result (next.new ≡ (if keep_right then next.old else Start)) }
{
    let left = here.is_boundary() || (!keep_left && here.is_left());
    let right = next.is_boundary() || (!keep_right && next.is_right());
    let mut source = take_source(alloc, keep_left, here)?;
    let further = take_source(alloc, keep_right, next)?;
    source.append(further)?;
    Ok(Element::Ligature {
        byte,
        source,
        left,
        right,
    })
}

/// Adds an element's node, if it has one, to a list.
pub(crate) fn put_node(
    alloc: Global,
    metrics: &Metrics,
    font: u8,
    element: Element,
    list: &mut Vec<Node>,
) -> Result<(), AllocError>
    ensures { OnOk result (list.new.items ≡ list.old.items ++ nodes_of metrics.now font element) }
{
    match element {
        Element::Start => Ok(()),
        Element::Boundary => Ok(()),
        Element::Character(byte) => {
            list.push(Node::Char {
                font,
                byte,
                width: metrics.width(byte),
                height: metrics.height(byte),
                depth: metrics.depth(byte),
                italic: metrics.italic(byte),
            })?;
            Ok(())
        }
        Element::Ligature {
            byte,
            source,
            left,
            right,
        } => {
            let ligature = LigNode {
                font,
                byte,
                width: metrics.width(byte),
                height: metrics.height(byte),
                depth: metrics.depth(byte),
                italic: metrics.italic(byte),
                source,
                left,
                right,
            };
            list.push(Node::Lig(Boxed::new(alloc, ligature)?))?;
            Ok(())
        }
    }
}
