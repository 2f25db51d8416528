//! Trees by hand: the registers 7257 (1c59 by hexadecimal digits) and 7258 (1c5a) share three digits, and 32767 (7fff)
//! shares none with them.
ghost use Rattle.std.specs.Prelude.{◌≡◌, ◌<◌};

use crate::{Slot, Tree};
use std::alloc::Global;
use std::marker::Brand;
use std::sync::ledger::{Blank, Ledger};
use std::test::Fail;
use steps::Steps;

/// A number that is 0 at the start.
#[derive(Debug, Drop)]
struct Number(u32);

impl Slot for Number {
    ghost use Rattle.std.specs.Prelude.{◌==◌, refl, ℕ};
    ghost use Rattle.std.proofs.Common.{ap};
    ghost use Rattle.sparse_regs.specs.declared.tests.Number.{Number as TheNumber};
    ghost use Rattle.std.proofs.lemmas.Bool.{eqb-true};
    ghost use Rattle.std.proofs.lemmas.Cmp.{nat_eq_equiv};

    ghost start = { record { 0 = 0 } };

    ghost is_initial = { λ x. x.0 == 0 };

    ghost same = { λ x y. x.0 == y.0 };

    ghost resized = { λ part value x. x };

    fn initial() -> Number {
        Number(0)
    }

    fn is_initial(&self) -> bool {
        self.0 == 0
    }

    fn same(&self, other: &Number) -> bool {
        self.0 == other.0
    }

    fn resize(&mut self, _part: u8, _value: i32) {}

    ghost start_is_initial = { refl };

    ghost same_is_symmetric = { λ x y. nat_eq_equiv.symm x.0 y.0 };

    ghost same_is_equal = { λ x y h. ap (λ (n : ℕ). let number : TheNumber = record { 0 = n } in number) (eqb-true x.0 y.0 h) };

    ghost initial_is_same = { λ x. refl };

    ghost resized_is_initial = { λ part value x. refl };
}

/// The node that some digits lead to, None where one of them leads nowhere or is none.
fn way(tree: &Tree<Number>, digits: &[u8]) -> Option<u32> {
    let mut node = None;
    for digit in digits {
        if *digit >= 16 {
            return None;
        }
        node = Some(tree.child(node, *digit)?);
    }
    node
}

fn hold<L: Ledger>(tree: &mut Tree<Number>, n: u16, steps: &mut Steps<L>) -> Result<(), Fail> {
    if tree.holders(n) > 1_000_000 {
        return Err("too often held".into());
    }
    tree.hold(n, steps)?;
    Ok(())
}

fn release<L: Ledger>(tree: &mut Tree<Number>, n: u16, steps: &mut Steps<L>) -> Result<(), Fail> {
    if tree.holders(n) == 0 {
        return Err("not held".into());
    }
    tree.release(n, steps);
    Ok(())
}

fn replace<L: Ledger>(
    tree: &mut Tree<Number>,
    n: u16,
    value: u32,
    steps: &mut Steps<L>,
) -> Result<u32, Fail> {
    if tree.holders(n) == 0 {
        return Err("not held".into());
    }
    Ok(tree.replace(n, Number(value), steps).0)
}

/// What a tree of the two neighbours tells.
#[derive(Debug, Drop)]
struct Seen {
    nodes: u32,
    slots: u32,
    /// The node of 1c5.
    both: Option<u32>,
    /// The node of 1c59.
    first: Option<u32>,
    /// The node of 1c5a.
    second: Option<u32>,
}

fn look(tree: &Tree<Number>) -> Seen {
    Seen {
        nodes: tree.nodes(),
        slots: tree.slots(),
        both: way(tree, &[1, 12, 5]),
        first: way(tree, &[1, 12, 5, 9]),
        second: way(tree, &[1, 12, 5, 10]),
    }
}

/// What the tree tells after each of some calls, which hold a register or release it.
fn play<L: Ledger>(alloc: Global, calls: &[(bool, u16)], blank: Blank) -> Result<Vec<Seen>, Fail>
    requires name { blank.name ≡ L.name }
    requires parts { blank.parts ≡ L.parts }
    requires some { 0 < L.parts }
{
    let mut steps = Steps::<L>::new(blank);
    let mut tree = Tree::new(alloc);
    let mut seen = Vec::new(alloc);
    for (holds, n) in calls {
        if *holds {
            hold(&mut tree, *n, &mut steps)?;
        } else {
            release(&mut tree, *n, &mut steps)?;
        }
        seen.push(look(&tree))?;
    }
    Ok(seen)
}

fn old_values<L: Ledger>(alloc: Global, blank: Blank) -> Result<bool, Fail>
    requires name { blank.name ≡ L.name }
    requires parts { blank.parts ≡ L.parts }
    requires some { 0 < L.parts }
{
    let mut steps = Steps::<L>::new(blank);
    let mut tree = Tree::new(alloc);
    hold(&mut tree, 300, &mut steps)?;
    let first = replace(&mut tree, 300, 7, &mut steps)?;
    let second = replace(&mut tree, 300, 9, &mut steps)?;
    release(&mut tree, 300, &mut steps)?;
    let kept = tree.get(300).map_or(0, |value| value.0);
    Ok(first == 0 && second == 7 && kept == 9 && tree.nodes() == 4 && tree.get(301).is_none())
}

fn many<L: Ledger>(alloc: Global, blank: Blank) -> Result<(u32, u32), Fail>
    requires name { blank.name ≡ L.name }
    requires parts { blank.parts ≡ L.parts }
    requires some { 0 < L.parts }
{
    let mut steps = Steps::<L>::new(blank);
    let mut tree = Tree::new(alloc);
    for n in 256..5256 {
        hold(&mut tree, n, &mut steps)?;
    }
    Ok((tree.nodes(), tree.slots()))
}

/// The two neighbours come, the first goes and then the second, and a register comes that shares no digit with them.
const CALLS: [(bool, u16); 5] = [
    (true, 7257),
    (true, 7258),
    (false, 7257),
    (false, 7258),
    (true, 32_767),
];

#[test]
fn neighbours_share_nodes(rt: HostRuntime) -> Result<(), Fail> {
    let seen = play::<Brand>(rt.alloc(), &CALLS, Blank::new(1))?;
    let counts: Vec<(u32, u32)> = seen
        .iter()
        .map(|tree| (tree.nodes, tree.slots))
        .collect(rt.alloc())?;
    let expected = [(4, 4), (5, 5), (4, 5), (0, 5), (4, 5)];
    assert_eq!(rt; counts.as_slice(), expected.as_slice());
    Ok(())
}

/// Whether two neighbours had indices of their own below the slots, and the second kept its index when the first went.
fn keeps_index(before: &Seen, after: &Seen) -> bool {
    let (Some(first), Some(second)) = (before.first, before.second) else {
        return false;
    };
    first != second
        && first < before.slots
        && second < before.slots
        && before.both.is_some()
        && after.first.is_none()
        && after.second == before.second
        && after.both == before.both
}

#[test]
fn index_of_a_neighbour_stays(rt: HostRuntime) -> Result<(), Fail> {
    let seen = play::<Brand>(rt.alloc(), &CALLS, Blank::new(1))?;
    match seen.as_slice() {
        [_, before, after, ..] => assert!(rt; keeps_index(before, after)),
        _ => return Err("too few answers".into()),
    }
    Ok(())
}

#[test]
fn old_value_comes_back(rt: HostRuntime) -> Result<(), Fail> {
    assert!(rt; old_values::<Brand>(rt.alloc(), Blank::new(1))?);
    Ok(())
}

/// 5,000 leaves, 313 nodes of three digits (010 to 148), 20 of two (01 to 14) and 2 of one (0 and 1).
#[test]
fn five_thousand_registers(rt: HostRuntime) -> Result<(), Fail> {
    assert_eq!(rt; many::<Brand>(rt.alloc(), Blank::new(1))?, (5335, 5335));
    Ok(())
}
