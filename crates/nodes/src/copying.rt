//! Copies of lists (`tex.web`, sections 203 to 206).

ghost use Rattle.std.specs.Prelude.{◌≡◌, IfOk};

use crate::discretionary::DiscNode;
use crate::ligature::LigNode;
use crate::node::Node;
use crate::page_material::MarkNode;
use crate::spacing::{Leaders, SkipNode};
use crate::whatsit::Whatsit;
use sqlite_items::{Boxed, Items};
use std::alloc::{AllocError, Global};

/// An equal list, with all that stands inside its nodes. Token lists are shared.
#[cycle(copying)]
pub fn copy_list(alloc: Global, list: &[Node]) -> Result<Vec<Node>, AllocError>
    ensures { IfOk result (λ copy. copy.items ≡ list.now) }
{
    let mut copy = Vec::with_capacity(alloc, list.len())?;
    for i in 0..list.len() {
        copy.push(copy_node(alloc, &list[i])?)?;
    }
    Ok(copy)
}

#[cycle(copying)]
fn copy_items(alloc: Global, list: &Items<Node>) -> Result<Items<Node>, AllocError>
    ensures { IfOk result (λ copy. copy ≡ list.now) }
{
    Ok(Items::from_vec(copy_list(alloc, list.as_slice())?))
}

#[cycle(copying)]
fn copy_node(alloc: Global, node: &Node) -> Result<Node, AllocError>
    ensures { IfOk result (λ copy. copy ≡ node.now) }
{
    match node {
        Node::Char {
            font,
            byte,
            width,
            height,
            depth,
            italic,
        } => Ok(Node::Char {
            font: *font,
            byte: *byte,
            width: *width,
            height: *height,
            depth: *depth,
            italic: *italic,
        }),
        Node::Lig(lig) => Ok(Node::Lig(Boxed::new(alloc, copy_ligature(alloc, lig.get())?)?)),
        Node::Boxed(boxed) => {
            let list = copy_items(alloc, &boxed.get().list)?;
            Ok(Node::Boxed(Boxed::new(alloc, boxed.get().with_list(list))?))
        }
        Node::Rule {
            width,
            height,
            depth,
        } => Ok(Node::Rule {
            width: *width,
            height: *height,
            depth: *depth,
        }),
        Node::Skip(skip) => {
            let skip = skip.get();
            let leaders = copy_leaders(alloc, &skip.leaders)?;
            Ok(Node::Skip(Boxed::new(
                alloc,
                SkipNode {
                    glue: skip.glue,
                    name: skip.name,
                    leaders,
                },
            )?))
        }
        Node::Kern { width, how } => Ok(Node::Kern {
            width: *width,
            how: *how,
        }),
        Node::Penalty(penalty) => Ok(Node::Penalty(*penalty)),
        Node::Disc(disc) => {
            let disc = disc.get();
            let pre = copy_items(alloc, &disc.pre)?;
            let post = copy_items(alloc, &disc.post)?;
            Ok(Node::Disc(Boxed::new(
                alloc,
                DiscNode {
                    pre,
                    post,
                    replace: disc.replace,
                },
            )?))
        }
        Node::Mark(mark) => Ok(Node::Mark(Boxed::new(alloc, copy_mark(mark.get())?)?)),
        Node::Insert(insert) => {
            let list = copy_items(alloc, &insert.get().list)?;
            Ok(Node::Insert(Boxed::new(alloc, insert.get().with_list(list))?))
        }
        Node::Adjust(list) => Ok(Node::Adjust(copy_items(alloc, list)?)),
        Node::Whatsit(whatsit) => Ok(Node::Whatsit(Boxed::new(
            alloc,
            copy_whatsit(alloc, whatsit.get())?,
        )?)),
    }
}

#[cycle(copying)]
fn copy_leaders(alloc: Global, leaders: &Option<Leaders>) -> Result<Option<Leaders>, AllocError>
    ensures { IfOk result (λ copy. copy ≡ leaders.now) }
{
    match leaders {
        None => Ok(None),
        Some(leaders) => Ok(Some(Leaders {
            how: leaders.how,
            item: Boxed::new(alloc, copy_node(alloc, leaders.item.get())?)?,
        })),
    }
}

fn copy_ligature(alloc: Global, lig: &LigNode) -> Result<LigNode, AllocError>
    ensures { IfOk result (λ copy. copy ≡ lig.now) }
{
    Ok(LigNode {
        font: lig.font,
        byte: lig.byte,
        width: lig.width,
        height: lig.height,
        depth: lig.depth,
        italic: lig.italic,
        source: Items::from_slice(alloc, lig.source.as_slice())?,
        left: lig.left,
        right: lig.right,
    })
}

fn copy_mark(mark: &MarkNode) -> Result<MarkNode, AllocError>
    ensures { IfOk result (λ copy. copy ≡ mark.now) }
{
    Ok(MarkNode {
        class: mark.class,
        text: mark.text.share()?,
    })
}

fn copy_whatsit(alloc: Global, whatsit: &Whatsit) -> Result<Whatsit, AllocError>
    ensures { IfOk result (λ copy. copy ≡ whatsit.now) }
{
    match whatsit {
        Whatsit::Open { stream, name } => Ok(Whatsit::Open {
            stream: *stream,
            name: Items::from_slice(alloc, name.as_slice())?,
        }),
        Whatsit::Write { stream, text } => Ok(Whatsit::Write {
            stream: *stream,
            text: text.share()?,
        }),
        Whatsit::Close { stream } => Ok(Whatsit::Close { stream: *stream }),
        Whatsit::Special(bytes) => Ok(Whatsit::Special(Items::from_slice(
            alloc,
            bytes.as_slice(),
        )?)),
    }
}
