//! Vboxes (`tex.web`, sections 668 to 672 and 1087).

ghost use Rattle.std.specs.Prelude.{◌≡◌, ◌+◌, ◌+ℤ◌, ◌-ℤ◌, ◌^◌, ℕ, Some, IfOk};
ghost use Rattle.std.specs.Int.{int_min};
ghost use Rattle.box_pack.specs.PackingVertical.{standing, spaced, top_height};
ghost use Rattle.box_pack.specs.PackingExtents.{leaders_extent};
ghost use Rattle.box_pack.specs.PackingBoxes.{vpacked, vtopped, moved_to};
ghost use Rattle.box_pack.specs.GlueSums.{IsWithin, glue_with};
ghost use Rattle.box_pack.specs.VerticalSizes.{AreWithin, vertical_sums, vertical_plan, with_node, with_drop};

use crate::extent::Extent;
use crate::flexibility::GlueTotals;
use crate::goal::Goal;
use crate::limits::{Plan, excess, limited, limited_extent};
use crate::measuring::{Measure, first_passed};
use crate::packed::Packed;
use crate::sums::{greater, plus};
use nodes::{BoxNode, Node, SkipNode};
use tokens::Stop;

/// A vbox over a vertical list, which goes into it; on a refusal it is dropped. The depth is at most `max_depth`, in sp:
/// what is above that belongs to the height. Refusals come as from `hpack`.
pub fn vpack(list: Vec<Node>, goal: Goal, max_depth: i32) -> Result<Packed, Stop>
    ensures { result ≡ vpacked list.items goal max_depth }
{
    let sums = sums_of(list.as_slice())?;
    let plan = sums.sizes.plan(goal, max_depth)?;
    Ok(Packed::new(list, true, plan, sums.measure, &sums.sizes.glue))
}

/// The vbox of `vpack` with its reference point at its first item: its height is that of this item, where it is a box or a
/// rule, else 0, and the depth is the rest. Both sizes have the limit too.
pub fn vtop(list: Vec<Node>, goal: Goal, max_depth: i32) -> Result<Packed, Stop>
    ensures { result ≡ vtopped list.items goal max_depth }
{
    let top = top_height(list.as_slice());
    let packed = vpack(list, goal, max_depth)?;
    moved_to(top, packed)
}

fn top_height(list: &[Node]) -> i32
    ensures { result ≡ top_height list.now }
{
    match list.first() {
        None => 0,
        Some(node) => Extent::of_node(node).height,
    }
}

/// The box with its reference point so far below its top.
fn moved_to(top: i32, packed: Packed) -> Result<Packed, Stop>
    ensures { result ≡ moved_to top packed }
{
    let width = i64::from(packed.boxed.width);
    let extent = limited_extent(width, i64::from(top), below(top, &packed.boxed))?;
    Ok(packed.with_extent(extent))
}

/// How much of a box is more than so far below its top.
fn below(top: i32, boxed: &BoxNode) -> i64
    ensures { result ≡ (boxed.now.height +ℤ boxed.now.depth) -ℤ top }
{
    i64::from(boxed.height) + i64::from(boxed.depth) - i64::from(top)
}

/// The natural sizes of a vbox, and what its glue can do.
#[derive(Clone, Copy)]
pub(crate) struct Sizes {
    /// From the top to the bottom.
    length: i64,
    width: i64,
    /// What hangs below the baseline of the last item.
    hanging: i64,
    glue: GlueTotals,
}

/// What is summed up over a list.
#[derive(Clone, Copy)]
pub(crate) struct Sums {
    /// That of a box over the list.
    measure: Measure,
    sizes: Sizes,
}

/// The sums of a list whose measure is within its limits, in one pass.
fn sums_of(list: &[Node]) -> Result<Sums, Stop>
    ensures value { result ≡ vertical_sums list.now }
    ensures range { IfOk result (λ sums. AreWithin (2 ^ 61) sums.sizes) }
{
    if list.len() > 16_777_215 {
        return Err(first_passed(list));
    }
    let mut measure = Measure::none();
    let mut sizes = Sizes {
        length: 0,
        width: 0,
        hanging: 0,
        glue: GlueTotals::none(),
    };
    for node in list {
        measure.add(node);
        sizes.add(node);
    }
    let told = measure.of_box()?;
    Ok(Sums {
        measure: told,
        sizes,
    })
}

impl Sizes {
    /// What a vbox with these natural sizes is to be.
    fn plan(&self, goal: Goal, max_depth: i32) -> Result<Plan, Stop>
        requires { AreWithin (2 ^ 61) self.now }
        ensures plan { result ≡ vertical_plan goal max_depth self.now }
        ensures range { IfOk result (λ plan. IsWithin (2 ^ 32) plan.excess) }
    {
        let depth = self.depth_within(max_depth);
        let natural = limited(self.height_above(depth))?;
        let extent = limited_extent(self.width, goal.size_for(natural), depth)?;
        let excess = excess(extent.height, natural);
        Ok(Plan { extent, excess })
    }

    /// What hangs, as far as a bound lets it.
    fn depth_within(&self, max_depth: i32) -> i64
        requires { AreWithin (2 ^ 61) self.now }
        ensures value { result ≡ int_min self.now.hanging max_depth }
        ensures range { IsWithin (2 ^ 32) result }
    {
        self.hanging.min(i64::from(max_depth))
    }

    /// The height over this depth.
    fn height_above(&self, depth: i64) -> i64
        requires sizes { AreWithin (2 ^ 61) self.now }
        requires depth { IsWithin (2 ^ 32) depth }
        ensures { result ≡ self.now.length -ℤ depth }
    {
        self.length - depth
    }

    fn add(&mut self, node: &Node)
        requires { AreWithin (2 ^ 61) self.old }
        ensures value { self.new ≡ with_node node.now self.old }
        ensures range { (n : ℕ) → AreWithin n self.old → AreWithin (n + 2 ^ 32) self.new }
    {
        match node {
            Node::Char { .. } => {}
            Node::Lig(_) => {}
            Node::Boxed(boxed) => {
                let boxed = boxed.get();
                self.stand(boxed.height, boxed.depth, right_edge(boxed));
            }
            Node::Rule {
                width,
                height,
                depth,
            } => {
                let rule = Extent::of_rule(*width, *height, *depth);
                self.stand(rule.height, rule.depth, i64::from(rule.width));
            }
            Node::Skip(skip) => self.add_glue(skip.get()),
            Node::Kern { width, .. } => self.space(*width, 0),
            Node::Penalty(_) => {}
            Node::Disc(_) => {}
            Node::Mark(_) => {}
            Node::Insert(_) => {}
            Node::Adjust(_) => {}
            Node::Whatsit(_) => {}
        }
    }

    /// A box or a rule more.
    fn stand(&mut self, height: i32, depth: i32, width: i64)
        requires { AreWithin (2 ^ 61) self.old }
        ensures value { self.new ≡ with_drop (standing height depth width) self.old }
        ensures range { (n : ℕ) → AreWithin n self.old → AreWithin (n + 2 ^ 32) self.new }
    {
        self.length = plus(plus(self.length, height), depth);
        self.width = greater(self.width, width);
        self.hanging = i64::from(depth);
    }

    /// Glue or a kern more, with something of this width in it.
    fn space(&mut self, length: i32, width: i32)
        requires { AreWithin (2 ^ 61) self.old }
        ensures value { self.new ≡ with_drop (spaced length width) self.old }
        ensures range { (n : ℕ) → AreWithin n self.old → AreWithin (n + 2 ^ 32) self.new }
    {
        self.length = plus(self.length, length);
        self.width = greater(self.width, i64::from(width));
        self.hanging = 0;
    }

    /// Glue, perhaps with leaders.
    fn add_glue(&mut self, skip: &SkipNode)
        requires { AreWithin (2 ^ 61) self.old }
        ensures value { self.new ≡ record (with_drop (spaced skip.now.glue.width (leaders_extent skip.now.leaders).width) self.old) { glue = glue_with (Some skip.now.glue) self.old.glue } }
        ensures range { (n : ℕ) → AreWithin n self.old → AreWithin (n + 2 ^ 32) self.new }
    {
        let item = Extent::of_leaders(&skip.leaders);
        self.space(skip.glue.width, item.width);
        self.glue.add(skip.glue);
    }
}

/// How far a shifted box reaches to the right.
fn right_edge(boxed: &BoxNode) -> i64
    ensures { result ≡ boxed.now.width +ℤ boxed.now.shift }
{
    i64::from(boxed.width) + i64::from(boxed.shift)
}
