//! How the glue of a box is set, how bad that is, and what is to be reported of it (`tex.web`, sections 657 to 667 and 672
//! to 678).

ghost use Rattle.std.specs.Prelude.{◌≡◌, ◌<ℤ◌, ◌^◌, pos, neg_ℤ};
ghost use Rattle.box_pack.specs.PackingSetting.{setting_of, stretched_setting, shrunk_setting, finite_setting, set_by, unset, Shrunk, Overfull};
ghost use Rattle.box_pack.specs.PackingReports.{stretched_report, too_large};
ghost use Rattle.box_pack.specs.GlueSums.{IsWithin, EachWithin, BothWithin};
ghost use Rattle.box_pack.specs.Fits.{fit_of};

use crate::flexibility::{Flexibility, GlueTotals};
use crate::report::Report;
use crate::sums::negated;
use nodes::GlueSet;
use scaled::{Order, badness};

/// The greatest excess that a report shows, in sp.
const GREATEST_EXCESS: i32 = 2_147_483_647;

/// The glue set of a box, and what is told of it.
#[derive(Clone, Copy)]
pub(crate) struct Fit {
    pub(crate) set: GlueSet,
    pub(crate) report: Report,
    pub(crate) badness: u32,
}

impl Fit {
    /// What makes up for an excess, in sp, by glue with these totals.
    pub(crate) fn new(is_empty: bool, excess: i64, glue: &GlueTotals) -> Fit
        requires excess { IsWithin (2 ^ 32) excess }
        requires glue { BothWithin (2 ^ 61) glue.now }
        ensures { result ≡ fit_of excess (setting_of is_empty excess glue.now.stretch glue.now.shrink) }
    {
        if is_empty {
            Fit::unreported(unset())
        } else if excess > 0 {
            Fit::stretched(excess, &glue.stretch)
        } else if excess < 0 {
            Fit::shrunk(excess, &glue.shrink)
        } else {
            Fit::unreported(unset())
        }
    }

    fn stretched(excess: i64, stretch: &Flexibility) -> Fit
        requires { pos 0 <ℤ excess }
        ensures { result ≡ fit_of excess (stretched_setting stretch.now) }
    {
        let order = stretch.highest();
        let set = set_by(1, order, excess, stretch.at(order));
        match order {
            Order::Normal => {
                let badness = badness(i128::from(excess), i128::from(stretch.normal));
                Fit {
                    set,
                    report: stretched_report(badness),
                    badness: u32::from(badness),
                }
            }
            Order::Fil => Fit::unreported(set),
            Order::Fill => Fit::unreported(set),
            Order::Filll => Fit::unreported(set),
        }
    }

    fn shrunk(excess: i64, shrink: &Flexibility) -> Fit
        requires negative { excess <ℤ pos 0 }
        requires excess { IsWithin (2 ^ 32) excess }
        requires shrink { EachWithin (2 ^ 61) shrink.now }
        ensures { result ≡ fit_of excess (shrunk_setting excess shrink.now) }
    {
        let order = shrink.highest();
        match order {
            Order::Normal => Fit::shrunk_finitely(excess, shrink.normal),
            Order::Fil => Fit::unreported(set_by(-1, order, excess, shrink.fil)),
            Order::Fill => Fit::unreported(set_by(-1, order, excess, shrink.fill)),
            Order::Filll => Fit::unreported(set_by(-1, order, excess, shrink.filll)),
        }
    }

    fn shrunk_finitely(excess: i64, shrink: i64) -> Fit
        requires negative { excess <ℤ pos 0 }
        requires excess { IsWithin (2 ^ 32) excess }
        requires shrink { IsWithin (2 ^ 61) shrink }
        ensures { result ≡ fit_of excess (finite_setting excess shrink) }
    {
        if shrink < negated(excess) {
            Fit::overfull(excess, shrink)
        } else {
            Fit::tight(excess, shrink)
        }
    }

    /// Finite shrink that suffices.
    fn tight(excess: i64, shrink: i64) -> Fit
        requires negative { excess <ℤ pos 0 }
        requires excess { IsWithin (2 ^ 32) excess }
        ensures { result ≡ fit_of excess (Shrunk Order.Normal shrink) }
    {
        let badness = badness(i128::from(negated(excess)), i128::from(shrink));
        Fit {
            set: set_by(-1, Order::Normal, excess, shrink),
            report: Report::Tight(badness),
            badness: u32::from(badness),
        }
    }

    /// Finite shrink that doesn't suffice: all of it is used.
    fn overfull(excess: i64, shrink: i64) -> Fit
        requires less { shrink <ℤ neg_ℤ excess }
        requires excess { IsWithin (2 ^ 32) excess }
        requires shrink { IsWithin (2 ^ 61) shrink }
        ensures { result ≡ fit_of excess (Overfull shrink) }
    {
        Fit {
            set: set_by(-1, Order::Normal, negated(shrink), shrink),
            report: Report::Over(too_large(excess, shrink)),
            badness: 1_000_000,
        }
    }

    /// A glue set of which nothing is told.
    fn unreported(set: GlueSet) -> Fit
        ensures { result ≡ record { set = set; report = Report.None; badness = 0 } }
    {
        Fit {
            set,
            report: Report::None,
            badness: 0,
        }
    }
}

/// By how much an overfull box is too large, as far as a report shows it.
fn too_large(excess: i64, shrink: i64) -> i32
    requires less { shrink <ℤ neg_ℤ excess }
    requires excess { IsWithin (2 ^ 32) excess }
    requires shrink { IsWithin (2 ^ 61) shrink }
    ensures { result ≡ too_large excess shrink }
{
    let too_large = negated(excess) - shrink;
    if i64::from(GREATEST_EXCESS) < too_large {
        GREATEST_EXCESS
    } else {
        too_large as i32
    }
}

fn stretched_report(badness: u16) -> Report
    ensures { result ≡ stretched_report badness }
{
    if badness > 100 {
        Report::Under(badness)
    } else {
        Report::Loose(badness)
    }
}

/// All glue has its natural size.
fn unset() -> GlueSet
    ensures { result ≡ unset }
{
    GlueSet {
        sign: 0,
        order: Order::Normal,
        excess: 0,
        total: 0,
    }
}

/// The fraction `excess / total`, where the total isn't 0.
fn set_by(sign: i8, order: Order, excess: i64, total: i64) -> GlueSet
    ensures { result ≡ set_by sign order excess total }
{
    if total == 0 {
        return unset();
    }
    GlueSet {
        sign,
        order,
        excess,
        total,
    }
}
