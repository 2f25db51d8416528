//! The walk through a box (`tex.web`, sections 619 to 637).
ghost use Rattle.std.specs.Prelude.{◌≡◌, map, OnOk};
ghost use Rattle.dvi_out.specs.SpellingWalk.{list_printed, box_printed, with_box, each_printed, printed_node, with_leader, with_leaders, with_whatsit, is_empty};
ghost use Rattle.dvi_out.specs.WalkOf.{walk_of, leaders_printed};
ghost use Rattle.dvi_out.specs.FrameOf.{frame};
ghost use Rattle.nodes.specs.Inside.{box_map};

use crate::walker::{Surroundings, Walker};
use nodes::{BoxNode, Leaders, Node, Whatsit};
use std::alloc::AllocError;

/// Walks through the list of a box whose left edge and baseline are where the walk is.
#[tactic(auto, unfolding(crate::specs::SpellingWalk::list_printed))]
pub(crate) fn walk_list(walker: &mut Walker, boxed: &BoxNode) -> Result<(), AllocError>
    ensures { OnOk result (walk_of walker.new ≡ list_printed (box_map printed_node boxed.now) (walk_of walker.old)) }
{
    let around = walker.begin_list(boxed);
    walk_nodes(walker, &around, boxed.list.as_slice(), u64::MAX)
}

/// Walks through the nodes of a list, in which lists stand in one another so many levels deep. No memory holds more levels
/// than can be counted.
#[cycle(walking)]
fn walk_nodes(
    walker: &mut Walker,
    around: &Surroundings,
    list: &[Node],
    levels: u64,
) -> Result<(), AllocError>
    ensures { OnOk result
        (walk_of walker.new ≡ each_printed (frame around.now) (walk_of walker.old) (map printed_node list.now)) }
{
    let Some(inside) = levels.checked_sub(1) else {
        return Err(AllocError);
    };
    'nodes: for i in 0..list.len() {
        walk_node(walker, around, &list[i], inside)?;
    }
    Ok(())
}

#[cycle(walking)]
fn walk_node(
    walker: &mut Walker,
    around: &Surroundings,
    node: &Node,
    levels: u64,
) -> Result<(), AllocError>
    ensures { OnOk result
        (walk_of walker.new ≡ (printed_node node.now).in_list (frame around.now) (walk_of walker.old)) }
{
    match node {
        Node::Char {
            font,
            byte,
            width,
            ..
        } => walker.set_character(around, *font, *byte, *width),
        Node::Lig(lig) => {
            let lig = lig.get();
            walker.set_character(around, lig.font, lig.byte, lig.width)
        }
        Node::Boxed(boxed) => walk_box(walker, around, boxed.get(), levels),
        Node::Rule {
            width,
            height,
            depth,
        } => walker.set_rule(around, *width, *height, *depth),
        Node::Skip(skip) => {
            let skip = skip.get();
            let space = walker.set_glue(&around.set, &skip.glue)?;
            walk_leaders(walker, around, space, &skip.leaders, levels)
        }
        Node::Kern { width, .. } => {
            walker.advance(around, *width);
            Ok(())
        }
        Node::Penalty(_) => Ok(()),
        Node::Disc(_) => Ok(()),
        Node::Mark(_) => Ok(()),
        Node::Insert(_) => Ok(()),
        Node::Adjust(_) => Ok(()),
        Node::Whatsit(whatsit) => walk_whatsit(walker, whatsit.get()),
    }
}

/// Walks through a box in a list.
#[cycle(walking)]
#[inline(never)]
fn walk_box(
    walker: &mut Walker,
    around: &Surroundings,
    boxed: &BoxNode,
    levels: u64,
) -> Result<(), AllocError>
    ensures { OnOk result
        (walk_of walker.new ≡ with_box (frame around.now) (box_map printed_node boxed.now) (walk_of walker.old)) }
{
    if is_empty(boxed) {
        walker.pass_box(around, boxed);
        return Ok(());
    }
    let (h, v) = (walker.h, walker.v);
    walker.go_to_box(around, boxed)?;
    let inside = walker.enter_box(boxed)?;
    walk_nodes(walker, &inside.around, boxed.list.as_slice(), levels)?;
    walker.leave_box(&inside)?;
    walker.go_behind_box(around, boxed, h, v);
    Ok(())
}

#[tactic(auto, unfolding(crate::specs::SpellingWalk::with_whatsit))]
fn walk_whatsit(walker: &mut Walker, whatsit: &Whatsit) -> Result<(), AllocError>
    ensures { OnOk result (walk_of walker.new ≡ with_whatsit whatsit.now (walk_of walker.old)) }
{
    match whatsit {
        Whatsit::Open { .. } => Ok(()),
        Whatsit::Write { .. } => Ok(()),
        Whatsit::Close { .. } => Ok(()),
        Whatsit::Special(bytes) => walker.put_special(bytes.as_slice()),
    }
}

/// Whether the list of a box is empty.
fn is_empty(boxed: &BoxNode) -> bool
    ensures { result ≡ is_empty boxed.now.list }
{
    boxed.list.is_empty()
}

/// The space of a glue with what fills it.
#[cycle(walking)]
fn walk_leaders(
    walker: &mut Walker,
    around: &Surroundings,
    space: i32,
    leaders: &Option<Leaders>,
    levels: u64,
) -> Result<(), AllocError>
    ensures { OnOk result
        (walk_of walker.new ≡ with_leaders (frame around.now) space (leaders_printed leaders.now) (walk_of walker.old)) }
{
    match leaders {
        None => {
            walker.advance(around, space);
            Ok(())
        }
        Some(leaders) => walk_leader(
            walker,
            around,
            space,
            leaders.how,
            leaders.item.get(),
            levels,
        ),
    }
}

/// A space that is filled by an item. An item that is neither a box nor a rule leaves it empty.
#[cycle(walking)]
#[inline(never)]
fn walk_leader(
    walker: &mut Walker,
    around: &Surroundings,
    space: i32,
    how: u8,
    item: &Node,
    levels: u64,
) -> Result<(), AllocError>
    ensures { OnOk result
        (walk_of walker.new ≡ with_leader (frame around.now) space how (printed_node item.now).leader (walk_of walker.old)) }
{
    match item {
        Node::Boxed(boxed) => {
            let boxed = boxed.get();
            let (h, v) = (walker.h, walker.v);
            let spread = walker.spread(around, space, how, boxed);
            walker.advance_to_copy(around, spread.first);
            let list = boxed.list.as_slice();
            'copies: for _copy in 0..spread.count {
                let (copy_h, copy_v) = (walker.h, walker.v);
                walker.go_to_copy(around, boxed)?;
                let inside = walker.enter_box(boxed)?;
                walk_nodes(walker, &inside.around, list, levels)?;
                walker.leave_box(&inside)?;
                walker.go_behind_copy(around, boxed, spread.between, copy_h, copy_v);
            }
            walker.go_along(around, space, h, v);
            Ok(())
        }
        Node::Rule {
            width,
            height,
            depth,
        } => walker.fill_with_rule(around, space, *width, *height, *depth),
        Node::Char { .. } => {
            walker.advance(around, space);
            Ok(())
        }
        Node::Lig(_) => {
            walker.advance(around, space);
            Ok(())
        }
        Node::Skip(_) => {
            walker.advance(around, space);
            Ok(())
        }
        Node::Kern { .. } => {
            walker.advance(around, space);
            Ok(())
        }
        Node::Penalty(_) => {
            walker.advance(around, space);
            Ok(())
        }
        Node::Disc(_) => {
            walker.advance(around, space);
            Ok(())
        }
        Node::Mark(_) => {
            walker.advance(around, space);
            Ok(())
        }
        Node::Insert(_) => {
            walker.advance(around, space);
            Ok(())
        }
        Node::Adjust(_) => {
            walker.advance(around, space);
            Ok(())
        }
        Node::Whatsit(_) => {
            walker.advance(around, space);
            Ok(())
        }
    }
}
