//! A box with what is to be told of it.

ghost use Rattle.std.specs.Prelude.{◌≡◌, ◌+◌, ◌^◌};
ghost use Rattle.nodes.specs.PackingMeasure.{nesting_of, count_of};
ghost use Rattle.box_pack.specs.GlueSums.{IsWithin, BothWithin, glue_totals};

use crate::extent::Extent;
use crate::fit::Fit;
use crate::flexibility::GlueTotals;
use crate::limits::Plan;
use crate::measuring::Measure;
use crate::report::Report;
use nodes::{BoxNode, Node};
use sqlite_items::Items;

/// A packed box.
#[derive(Debug, Drop)]
pub struct Packed {
    pub boxed: BoxNode,
    pub report: Report,
    /// 0 to 10000, or 1000000 for an overfull box: what `\badness` shows.
    pub badness: u32,
}

impl Packed {
    ghost use Rattle.box_pack.specs.PackingBoxes.{packed_over, with_extent};

    /// A box over a list with this measure and this glue.
    pub(crate) fn new(
        list: Vec<Node>,
        vertical: bool,
        plan: Plan,
        measure: Measure,
        glue: &GlueTotals,
    ) -> Packed
        requires excess { IsWithin (2 ^ 32) plan.excess }
        requires range { BothWithin (2 ^ 61) glue.now }
        requires nesting { measure.nesting ≡ 1 + nesting_of list.items }
        requires count { measure.count ≡ count_of list.items }
        requires glue { glue.now ≡ glue_totals list.items }
        ensures { result ≡ packed_over list.items vertical plan.extent plan.excess }
    {
        let fit = Fit::new(list.as_slice().is_empty(), plan.excess, glue);
        Packed {
            boxed: BoxNode {
                vertical,
                width: plan.extent.width,
                height: plan.extent.height,
                depth: plan.extent.depth,
                shift: 0,
                list: Items::from_vec(list),
                set: fit.set,
                nesting: measure.nesting,
                count: measure.count,
            },
            report: fit.report,
            badness: fit.badness,
        }
    }

    /// The same box with other sizes.
    pub(crate) fn with_extent(mut self, extent: Extent) -> Packed
        ensures { result ≡ with_extent extent self }
    {
        self.boxed.width = extent.width;
        self.boxed.height = extent.height;
        self.boxed.depth = extent.depth;
        self
    }
}
