//! Boxes are packed from small lists, whose sizes are added up by hand.

use crate::goal::Goal;
use crate::horizontal::hpack;
use crate::packed::Packed;
use crate::report::Report;
use crate::vertical::{vpack, vtop};
use nodes::{BoxNode, DiscNode, GlueSet, InsertNode, KernKind, Leaders, Node, SkipNode};
use scaled::{Glue, Order};
use sqlite_items::{Boxed, Items};
use std::alloc::{AllocError, Global};
use std::test::Fail;
use tokens::{Cap, Stop};

const UNSET: GlueSet = GlueSet {
    sign: 0,
    order: Order::Normal,
    excess: 0,
    total: 0,
};

const RIGID: Glue = Glue {
    width: 0,
    stretch: 0,
    stretch_order: Order::Normal,
    shrink: 0,
    shrink_order: Order::Normal,
};

/// A glue and the excess that it is to make up for, with the report, the badness and the glue set of the box.
struct Row {
    stretch: i32,
    shrink: i32,
    order: Order,
    excess: i32,
    report: Report,
    badness: u32,
    set: (i8, i64, i64),
}

const ROWS: [Row; 19] = [
    Row {
        stretch: 100,
        shrink: 0,
        order: Order::Normal,
        excess: 100,
        report: Report::Loose(100),
        badness: 100,
        set: (1, 100, 100),
    },
    Row {
        stretch: 297,
        shrink: 0,
        order: Order::Normal,
        excess: 298,
        report: Report::Under(101),
        badness: 101,
        set: (1, 298, 297),
    },
    Row {
        stretch: 1000000,
        shrink: 0,
        order: Order::Normal,
        excess: 1,
        report: Report::Loose(0),
        badness: 0,
        set: (1, 1, 1000000),
    },
    Row {
        stretch: 0,
        shrink: 0,
        order: Order::Normal,
        excess: 1,
        report: Report::Under(10000),
        badness: 10000,
        set: (0, 0, 0),
    },
    Row {
        stretch: -100,
        shrink: 0,
        order: Order::Normal,
        excess: 50,
        report: Report::Under(10000),
        badness: 10000,
        set: (1, 50, -100),
    },
    Row {
        stretch: 0,
        shrink: 100,
        order: Order::Normal,
        excess: -100,
        report: Report::Tight(100),
        badness: 100,
        set: (-1, -100, 100),
    },
    Row {
        stretch: 0,
        shrink: 100,
        order: Order::Normal,
        excess: -101,
        report: Report::Over(1),
        badness: 1000000,
        set: (-1, -100, 100),
    },
    Row {
        stretch: 0,
        shrink: 0,
        order: Order::Normal,
        excess: -5,
        report: Report::Over(5),
        badness: 1000000,
        set: (0, 0, 0),
    },
    Row {
        stretch: 0,
        shrink: -3,
        order: Order::Normal,
        excess: -5,
        report: Report::Over(8),
        badness: 1000000,
        set: (-1, 3, -3),
    },
    Row {
        stretch: 0,
        shrink: -2147483645,
        order: Order::Normal,
        excess: -1,
        report: Report::Over(2147483646),
        badness: 1000000,
        set: (-1, 2147483645, -2147483645),
    },
    Row {
        stretch: 0,
        shrink: -2147483646,
        order: Order::Normal,
        excess: -1,
        report: Report::Over(2147483647),
        badness: 1000000,
        set: (-1, 2147483646, -2147483646),
    },
    Row {
        stretch: 0,
        shrink: -2147483648,
        order: Order::Normal,
        excess: -1,
        report: Report::Over(2147483647),
        badness: 1000000,
        set: (-1, 2147483648, -2147483648),
    },
    Row {
        stretch: 131072,
        shrink: 0,
        order: Order::Normal,
        excess: 65536,
        report: Report::Loose(12),
        badness: 12,
        set: (1, 65536, 131072),
    },
    Row {
        stretch: 0,
        shrink: 131072,
        order: Order::Normal,
        excess: -65536,
        report: Report::Tight(12),
        badness: 12,
        set: (-1, -65536, 131072),
    },
    Row {
        stretch: 0,
        shrink: -1,
        order: Order::Fil,
        excess: -500,
        report: Report::None,
        badness: 0,
        set: (-1, -500, -1),
    },
    Row {
        stretch: 1,
        shrink: 0,
        order: Order::Fil,
        excess: 500,
        report: Report::None,
        badness: 0,
        set: (1, 500, 1),
    },
    Row {
        stretch: -1,
        shrink: 0,
        order: Order::Fill,
        excess: 500,
        report: Report::None,
        badness: 0,
        set: (1, 500, -1),
    },
    Row {
        stretch: 0,
        shrink: 1,
        order: Order::Filll,
        excess: -500,
        report: Report::None,
        badness: 0,
        set: (-1, -500, 1),
    },
    Row {
        stretch: 7,
        shrink: 7,
        order: Order::Normal,
        excess: 0,
        report: Report::None,
        badness: 0,
        set: (0, 0, 0),
    },
];

/// What two glues stretch, or shrink, and the order and the total by which 10 sp are made up for.
const TWO_GLUES: [((i32, Order), (i32, Order), (Order, i64)); 5] = [
    ((3, Order::Fil), (-3, Order::Fil), (Order::Normal, 0)),
    ((3, Order::Filll), (5, Order::Normal), (Order::Filll, 3)),
    ((3, Order::Fil), (5, Order::Fill), (Order::Fill, 5)),
    ((0, Order::Fill), (5, Order::Fil), (Order::Fil, 5)),
    ((2, Order::Normal), (5, Order::Normal), (Order::Normal, 7)),
];

fn kern(width: i32) -> Node {
    Node::Kern {
        width,
        how: KernKind::Explicit,
    }
}

fn letter() -> Node {
    Node::Char {
        font: 1,
        byte: b'A',
        width: 50,
        height: 70,
        depth: -4,
        italic: 9,
    }
}

fn rule(sizes: (Option<i32>, Option<i32>, Option<i32>)) -> Node {
    Node::Rule {
        width: sizes.0,
        height: sizes.1,
        depth: sizes.2,
    }
}

fn skip(alloc: Global, glue: Glue, leaders: Option<Leaders>) -> Result<Node, AllocError> {
    Ok(Node::Skip(Boxed::new(
        alloc,
        SkipNode {
            glue,
            name: 0,
            leaders,
        },
    )?))
}

/// Glue 5 wide, filled with a node.
fn led(alloc: Global, item: Node) -> Result<Node, AllocError> {
    let glue = Glue { width: 5, ..RIGID };
    let item = Boxed::new(alloc, item)?;
    skip(alloc, glue, Some(Leaders { how: 7, item }))
}

/// A box of these sizes, width, height and depth, which tells this nesting and count.
fn boxed(
    alloc: Global,
    sizes: (i32, i32, i32),
    shift: i32,
    told: (u16, u32),
) -> Result<Node, AllocError> {
    Ok(Node::Boxed(Boxed::new(
        alloc,
        BoxNode {
            vertical: false,
            width: sizes.0,
            height: sizes.1,
            depth: sizes.2,
            shift,
            list: Items::new(alloc),
            set: UNSET,
            nesting: told.0,
            count: told.1,
        },
    )?))
}

fn one(alloc: Global, node: Node) -> Result<Vec<Node>, AllocError> {
    let mut list = Vec::new(alloc);
    list.push(node)?;
    Ok(list)
}

fn two(alloc: Global, first: Node, second: Node) -> Result<Vec<Node>, AllocError> {
    let mut list = one(alloc, first)?;
    list.push(second)?;
    Ok(list)
}

fn three(alloc: Global, first: Node, second: Node, third: Node) -> Result<Vec<Node>, AllocError> {
    let mut list = two(alloc, first, second)?;
    list.push(third)?;
    Ok(list)
}

/// Width, height and depth.
fn sizes(packed: &Packed) -> (i32, i32, i32) {
    (packed.boxed.width, packed.boxed.height, packed.boxed.depth)
}

fn row_list(alloc: Global, row: &Row) -> Result<Vec<Node>, AllocError> {
    let glue = Glue {
        width: 10,
        stretch: row.stretch,
        stretch_order: row.order,
        shrink: row.shrink,
        shrink_order: row.order,
    };
    two(alloc, kern(1000), skip(alloc, glue, None)?)
}

fn shows(packed: &Packed, row: &Row) -> bool {
    let set = packed.boxed.set;
    packed.report == row.report
        && packed.badness == row.badness
        && (set.sign, set.excess, set.total) == row.set
}

#[test]
fn each_report_comes_at_its_bound_in_both_kinds_of_box(rt: HostRuntime) -> Result<(), Fail> {
    let alloc = rt.alloc();
    for row in &ROWS {
        let wide = hpack(row_list(alloc, row)?, Goal::Spread(row.excess))?;
        assert!(rt; shows(&wide, row));
        let high = vpack(row_list(alloc, row)?, Goal::Spread(row.excess), 0)?;
        assert!(rt; shows(&high, row));
    }
    Ok(())
}

/// Glue that stretches and shrinks alike.
fn flexible(alloc: Global, amount: (i32, Order)) -> Result<Node, AllocError> {
    let glue = Glue {
        width: 0,
        stretch: amount.0,
        stretch_order: amount.1,
        shrink: amount.0,
        shrink_order: amount.1,
    };
    skip(alloc, glue, None)
}

#[test]
fn the_highest_order_that_does_not_cancel_out_stretches_and_shrinks(
    rt: HostRuntime,
) -> Result<(), Fail> {
    let alloc = rt.alloc();
    for row in &TWO_GLUES {
        for size in [10, -10] {
            let list = two(alloc, flexible(alloc, row.0)?, flexible(alloc, row.1)?)?;
            let set = hpack(list, Goal::To(size))?.boxed.set;
            assert_eq!(rt; (set.order, set.total), row.2);
        }
    }
    Ok(())
}

#[test]
fn an_hbox_has_the_width_of_its_characters_and_the_reach_of_the_highest(
    rt: HostRuntime,
) -> Result<(), Fail> {
    let alloc = rt.alloc();
    let list = three(
        alloc,
        letter(),
        boxed(alloc, (20, 60, 6), -15, (1, 0))?,
        kern(-7),
    )?;
    let packed = hpack(list, Goal::Natural)?;
    assert_eq!(rt; sizes(&packed), (63, 75, 0));
    assert_eq!(rt; (packed.boxed.nesting, packed.boxed.count), (2, 3));
    Ok(())
}

#[test]
fn a_rule_without_sizes_counts_for_nothing_in_both_kinds_of_box(
    rt: HostRuntime,
) -> Result<(), Fail> {
    let alloc = rt.alloc();
    let running = (None, None, None);
    let wide = hpack(
        two(alloc, rule(running), rule((Some(4), None, Some(3))))?,
        Goal::Natural,
    )?;
    assert_eq!(rt; sizes(&wide), (4, 0, 3));
    let high = vpack(
        two(alloc, rule((None, Some(4), Some(3))), rule(running))?,
        Goal::Natural,
        9,
    )?;
    assert_eq!(rt; sizes(&high), (0, 7, 0));
    Ok(())
}

#[test]
fn leaders_make_room_for_a_box_and_are_glue_otherwise(rt: HostRuntime) -> Result<(), Fail> {
    let alloc = rt.alloc();
    let list = one(alloc, led(alloc, boxed(alloc, (20, 60, 6), -15, (1, 0))?)?)?;
    assert_eq!(rt; sizes(&hpack(list, Goal::Natural)?), (5, 60, 6));
    let list = one(alloc, led(alloc, rule((Some(8), None, None)))?)?;
    assert_eq!(rt; sizes(&vpack(list, Goal::Natural, 9)?), (8, 5, 0));
    let list = one(alloc, led(alloc, letter())?)?;
    assert_eq!(rt; sizes(&hpack(list, Goal::Natural)?), (5, 0, 0));
    Ok(())
}

/// A box 10 high and 8 deep.
fn deep(alloc: Global) -> Result<Node, AllocError> {
    boxed(alloc, (30, 10, 8), 2, (1, 0))
}

#[test]
fn depth_above_its_bound_becomes_height(rt: HostRuntime) -> Result<(), Fail> {
    let alloc = rt.alloc();
    for (bound, height, depth) in [(8, 10, 8), (7, 11, 7), (-5, 23, -5)] {
        let list = two(alloc, deep(alloc)?, Node::Penalty(0))?;
        let packed = vpack(list, Goal::Natural, bound)?;
        assert_eq!(rt; sizes(&packed), (32, height, depth));
    }
    let list = two(alloc, deep(alloc)?, kern(1))?;
    assert_eq!(rt; sizes(&vpack(list, Goal::Natural, 7)?), (32, 19, 0));
    Ok(())
}

#[test]
fn a_vtop_has_the_height_of_a_first_box_and_none_with_glue_in_front(
    rt: HostRuntime,
) -> Result<(), Fail> {
    let alloc = rt.alloc();
    let packed = vtop(two(alloc, deep(alloc)?, deep(alloc)?)?, Goal::Spread(4), 7)?;
    assert_eq!(rt; sizes(&packed), (32, 10, 30));
    let list = two(alloc, led(alloc, letter())?, deep(alloc)?)?;
    assert_eq!(rt; sizes(&vtop(list, Goal::Natural, 7)?), (32, 0, 23));
    assert_eq!(rt; sizes(&vtop(Vec::new(alloc), Goal::To(6), 7)?), (0, 0, 6));
    Ok(())
}

/// Nothing is told of a box, its glue isn't set, and nothing is in it.
fn is_bare(packed: &Packed) -> bool {
    packed.report == Report::None
        && packed.badness == 0
        && packed.boxed.set == UNSET
        && (packed.boxed.nesting, packed.boxed.count) == (1, 0)
}

#[test]
fn an_empty_box_is_never_bad(rt: HostRuntime) -> Result<(), Fail> {
    let alloc = rt.alloc();
    for size in [-100, 0, 100] {
        let wide = hpack(Vec::new(alloc), Goal::To(size))?;
        assert!(rt; is_bare(&wide));
        assert_eq!(rt; sizes(&wide), (size, 0, 0));
        let high = vpack(Vec::new(alloc), Goal::To(size), 7)?;
        assert!(rt; is_bare(&high));
        assert_eq!(rt; sizes(&high), (0, size, 0));
        let hung = vtop(Vec::new(alloc), Goal::To(size), 7)?;
        assert!(rt; is_bare(&hung));
        assert_eq!(rt; sizes(&hung), (0, 0, size));
    }
    Ok(())
}

/// The limit that was passed.
fn limit(packed: Result<Packed, Stop>) -> Option<Cap> {
    match packed {
        Err(Stop::Capacity(cap)) => Some(cap),
        _ => None,
    }
}

/// A width, or a height, and nesting and count of the only box in a list, with the limit that the list passes.
const LIMITS: [(i32, (u16, u32), Option<Cap>); 9] = [
    (1073741823, (499, 16777214), None),
    (-1073741823, (499, 16777214), None),
    (1073741824, (499, 16777214), Some(Cap::BoxSize)),
    (-1073741824, (499, 16777214), Some(Cap::BoxSize)),
    (0, (499, 16777215), Some(Cap::Items)),
    (-1073741824, (499, 4294967295), Some(Cap::Items)),
    (0, (500, 0), Some(Cap::BoxNesting)),
    (0, (65535, 16777214), Some(Cap::BoxNesting)),
    (-1073741824, (500, 16777215), Some(Cap::BoxNesting)),
];

#[test]
fn each_limit_of_an_hbox_is_passed_by_one_more(rt: HostRuntime) -> Result<(), Fail> {
    let alloc = rt.alloc();
    for (size, told, passed) in &LIMITS {
        let list = one(alloc, boxed(alloc, (*size, 0, 0), 0, *told)?)?;
        assert_eq!(rt; limit(hpack(list, Goal::Natural)), *passed);
    }
    Ok(())
}

#[test]
fn each_limit_of_a_vbox_is_passed_by_one_more(rt: HostRuntime) -> Result<(), Fail> {
    let alloc = rt.alloc();
    for (size, told, passed) in &LIMITS {
        let list = one(alloc, boxed(alloc, (0, *size, 0), 0, *told)?)?;
        assert_eq!(rt; limit(vpack(list, Goal::Natural, 0)), *passed);
    }
    Ok(())
}

#[test]
fn a_final_size_has_the_limit_of_a_natural_one(rt: HostRuntime) -> Result<(), Fail> {
    let alloc = rt.alloc();
    for (goal, passed) in [
        (Goal::To(1073741823), None),
        (Goal::To(1073741824), Some(Cap::BoxSize)),
        (Goal::Spread(1073741822), None),
        (Goal::Spread(1073741823), Some(Cap::BoxSize)),
        (Goal::Spread(-1073741824), None),
        (Goal::Spread(-1073741825), Some(Cap::BoxSize)),
    ] {
        assert_eq!(rt; limit(hpack(one(alloc, kern(1))?, goal)), passed);
        assert_eq!(rt; limit(vpack(one(alloc, kern(1))?, goal, 0)), passed);
    }
    Ok(())
}

#[test]
fn the_depth_of_a_vtop_has_the_limit_too(rt: HostRuntime) -> Result<(), Fail> {
    let alloc = rt.alloc();
    for (length, passed) in [(1073741823, None), (1073741824, Some(Cap::BoxSize))] {
        let list = two(alloc, rule((None, Some(-1), None)), kern(length))?;
        assert_eq!(rt; limit(vpack(list, Goal::Natural, 0)), None);
        let list = two(alloc, rule((None, Some(-1), None)), kern(length))?;
        assert_eq!(rt; limit(vtop(list, Goal::Natural, 0)), passed);
    }
    Ok(())
}

fn insertion(alloc: Global, list: Vec<Node>) -> Result<Node, AllocError> {
    Ok(Node::Insert(Boxed::new(
        alloc,
        InsertNode {
            class: 100,
            size: 1000,
            max_depth: 1000,
            top: RIGID,
            cost: 0,
            list: Items::from_vec(list),
        },
    )?))
}

/// A node with two boxes inside, which tell the nestings 3 and 7 and the counts 10 and 20.
fn holding(alloc: Global, kind: usize) -> Result<Node, AllocError> {
    let first = boxed(alloc, (0, 0, 0), 0, (3, 10))?;
    let second = boxed(alloc, (0, 0, 0), 0, (7, 20))?;
    if kind == 0 {
        return Ok(Node::Adjust(Items::from_vec(two(alloc, first, second)?)));
    }
    if kind == 1 {
        return insertion(alloc, two(alloc, first, second)?);
    }
    Ok(Node::Disc(Boxed::new(
        alloc,
        DiscNode {
            pre: Items::from_vec(one(alloc, first)?),
            post: Items::from_vec(one(alloc, second)?),
            replace: 9,
        },
    )?))
}

#[test]
fn what_stands_in_a_node_counts_for_nesting_and_count_and_for_no_size(
    rt: HostRuntime,
) -> Result<(), Fail> {
    let alloc = rt.alloc();
    for kind in 0..3 {
        let list = two(alloc, holding(alloc, kind)?, letter())?;
        let wide = hpack(list, Goal::Natural)?;
        assert_eq!(rt; sizes(&wide), (50, 70, 0));
        assert_eq!(rt; (wide.boxed.nesting, wide.boxed.count), (8, 34));
        let list = two(alloc, kern(6), holding(alloc, kind)?)?;
        let high = vpack(list, Goal::Natural, 0)?;
        assert_eq!(rt; sizes(&high), (0, 6, 0));
        assert_eq!(rt; (high.boxed.nesting, high.boxed.count), (8, 34));
    }
    Ok(())
}

/// The character of a font of ten points that is five points wide.
fn five_points_wide() -> Node {
    Node::Char {
        font: 1,
        byte: b'A',
        width: 327680,
        height: 491520,
        depth: 0,
        italic: 0,
    }
}

#[test]
fn two_characters_and_their_kern_are_eight_and_three_quarters_points_wide(
    rt: HostRuntime,
) -> Result<(), Fail> {
    let alloc = rt.alloc();
    let kern = Node::Kern {
        width: -81920,
        how: KernKind::Font,
    };
    let list = three(alloc, five_points_wide(), kern, five_points_wide())?;
    let packed = hpack(list, Goal::Natural)?;
    assert_eq!(rt; sizes(&packed), (573440, 491520, 0));
    Ok(())
}

#[test]
fn three_glues_share_two_scaled_points(rt: HostRuntime) -> Result<(), Fail> {
    let alloc = rt.alloc();
    let unit = (1, Order::Normal);
    let list = three(
        alloc,
        flexible(alloc, unit)?,
        flexible(alloc, unit)?,
        flexible(alloc, unit)?,
    )?;
    let set = hpack(list, Goal::To(2))?.boxed.set;
    assert_eq!(rt; (set.sign, set.excess, set.total), (1, 2, 3));
    Ok(())
}

#[test]
fn a_long_list_is_packed_in_both_kinds_of_box(rt: HostRuntime) -> Result<(), Fail> {
    let alloc = rt.alloc();
    let mut letters = Vec::new(alloc);
    let mut kerns = Vec::new(alloc);
    for _ in 0..70_000 {
        letters.push(letter())?;
        kerns.push(kern(50))?;
    }
    let wide = hpack(letters, Goal::Natural)?;
    assert_eq!(rt; sizes(&wide), (3_500_000, 70, 0));
    assert_eq!(rt; (wide.boxed.nesting, wide.boxed.count), (1, 70_000));
    let high = vpack(kerns, Goal::Natural, 0)?;
    assert_eq!(rt; sizes(&high), (0, 3_500_000, 0));
    assert_eq!(rt; (high.boxed.nesting, high.boxed.count), (1, 70_000));
    Ok(())
}
