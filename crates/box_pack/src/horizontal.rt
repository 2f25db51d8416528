//! Hboxes (`tex.web`, sections 649 to 657).

ghost use Rattle.std.specs.Prelude.{◌≡◌, ◌+◌, ◌+ℤ◌, ◌-ℤ◌, ◌^◌, ℕ, Some, IfOk};
ghost use Rattle.box_pack.specs.PackingHorizontal.{reaching, wide_as};
ghost use Rattle.box_pack.specs.PackingExtents.{leaders_extent};
ghost use Rattle.box_pack.specs.PackingBoxes.{hpacked};
ghost use Rattle.box_pack.specs.GlueSums.{IsWithin, BothWithin, glue_with};
ghost use Rattle.box_pack.specs.HorizontalSizes.{AreWithin, horizontal_sums, horizontal_plan, with_node, with_reach};

use crate::extent::Extent;
use crate::flexibility::GlueTotals;
use crate::goal::Goal;
use crate::limits::{Plan, excess, limited, limited_extent};
use crate::measuring::{Measure, first_passed};
use crate::packed::Packed;
use crate::sums::{greater, plus};
use nodes::{BoxNode, Node, SkipNode};
use tokens::Stop;

/// An hbox over a horizontal list, which goes into it; on a refusal it is dropped. Refused are, in this order, a list in
/// which boxes are nested 500 deep, one of more than 16777215 nodes, and natural or final sizes beyond 1073741823 sp either
/// way. A box in the list isn't looked into: it tells its nesting and its count.
pub fn hpack(list: Vec<Node>, goal: Goal) -> Result<Packed, Stop>
    ensures { result ≡ hpacked list.items goal }
{
    let sums = sums_of(list.as_slice())?;
    let plan = sums.sizes.plan(goal)?;
    Ok(Packed::new(list, false, plan, sums.measure, &sums.sizes.glue))
}

/// The natural sizes of an hbox, and what its glue can do.
#[derive(Clone, Copy)]
pub(crate) struct Sizes {
    width: i64,
    height: i64,
    depth: i64,
    glue: GlueTotals,
}

/// What is summed up over a list.
#[derive(Clone, Copy)]
pub(crate) struct Sums {
    /// That of a box over the list.
    measure: Measure,
    sizes: Sizes,
}

/// The sums of a list whose measure is within its limits, in one pass.
fn sums_of(list: &[Node]) -> Result<Sums, Stop>
    ensures value { result ≡ horizontal_sums list.now }
    ensures range { IfOk result (λ sums. BothWithin (2 ^ 61) sums.sizes.glue) }
{
    if list.len() > 16_777_215 {
        return Err(first_passed(list));
    }
    let mut measure = Measure::none();
    let mut sizes = Sizes {
        width: 0,
        height: 0,
        depth: 0,
        glue: GlueTotals::none(),
    };
    for node in list {
        measure.add(node);
        sizes.add(node);
    }
    let told = measure.of_box()?;
    Ok(Sums {
        measure: told,
        sizes,
    })
}

impl Sizes {
    /// What an hbox with these natural sizes is to be.
    fn plan(&self, goal: Goal) -> Result<Plan, Stop>
        ensures plan { result ≡ horizontal_plan goal self.now }
        ensures range { IfOk result (λ plan. IsWithin (2 ^ 32) plan.excess) }
    {
        let natural = limited(self.width)?;
        let extent = limited_extent(goal.size_for(natural), self.height, self.depth)?;
        let excess = excess(extent.width, natural);
        Ok(Plan { extent, excess })
    }

    fn add(&mut self, node: &Node)
        requires { AreWithin (2 ^ 61) self.old }
        ensures value { self.new ≡ with_node node.now self.old }
        ensures range { (n : ℕ) → AreWithin n self.old → AreWithin (n + 2 ^ 31) self.new }
    {
        match node {
            Node::Char {
                width,
                height,
                depth,
                ..
            } => self.reach(*width, i64::from(*height), i64::from(*depth)),
            Node::Lig(lig) => {
                let lig = lig.get();
                self.reach(lig.width, i64::from(lig.height), i64::from(lig.depth));
            }
            Node::Boxed(boxed) => {
                let boxed = boxed.get();
                self.reach(boxed.width, above(boxed), below(boxed));
            }
            Node::Rule {
                width,
                height,
                depth,
            } => {
                let rule = Extent::of_rule(*width, *height, *depth);
                self.reach(rule.width, i64::from(rule.height), i64::from(rule.depth));
            }
            Node::Skip(skip) => self.add_glue(skip.get()),
            Node::Kern { width, .. } => self.reach(*width, 0, 0),
            Node::Penalty(_) => {}
            Node::Disc(_) => {}
            Node::Mark(_) => {}
            Node::Insert(_) => {}
            Node::Adjust(_) => {}
            Node::Whatsit(_) => {}
        }
    }

    /// Something more that reaches so far.
    fn reach(&mut self, width: i32, height: i64, depth: i64)
        requires { AreWithin (2 ^ 61) self.old }
        ensures value { self.new ≡ with_reach (reaching width height depth) self.old }
        ensures range { (n : ℕ) → AreWithin n self.old → AreWithin (n + 2 ^ 31) self.new }
    {
        self.width = plus(self.width, width);
        self.height = greater(self.height, height);
        self.depth = greater(self.depth, depth);
    }

    /// Glue, perhaps with leaders.
    fn add_glue(&mut self, skip: &SkipNode)
        requires { AreWithin (2 ^ 61) self.old }
        ensures value { self.new ≡ record (with_reach (wide_as skip.now.glue.width (leaders_extent skip.now.leaders)) self.old) { glue = glue_with (Some skip.now.glue) self.old.glue } }
        ensures range { (n : ℕ) → AreWithin n self.old → AreWithin (n + 2 ^ 31) self.new }
    {
        let item = Extent::of_leaders(&skip.leaders);
        self.reach(
            skip.glue.width,
            i64::from(item.height),
            i64::from(item.depth),
        );
        self.glue.add(skip.glue);
    }
}

/// How far a shifted box reaches above the baseline.
fn above(boxed: &BoxNode) -> i64
    ensures { result ≡ boxed.now.height -ℤ boxed.now.shift }
{
    i64::from(boxed.height) - i64::from(boxed.shift)
}

/// How far it reaches below it.
fn below(boxed: &BoxNode) -> i64
    ensures { result ≡ boxed.now.depth +ℤ boxed.now.shift }
{
    i64::from(boxed.depth) + i64::from(boxed.shift)
}
