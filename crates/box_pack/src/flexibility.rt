//! By how much the glue of a list can stretch and shrink (`tex.web`, section 646).

ghost use Rattle.std.specs.Prelude.{◌≡◌, ℕ, ◌+◌, ◌^◌, pos, [], Some};

use crate::sums::plus;
use scaled::{Glue, Order};

/// The stretch or the shrink of all glue of each order, in sp or in 65536ths of the order's unit.
#[derive(Clone, Copy)]
pub(crate) struct Flexibility {
    pub(crate) normal: i64,
    pub(crate) fil: i64,
    pub(crate) fill: i64,
    pub(crate) filll: i64,
}

/// What all glue of a list can do.
#[derive(Clone, Copy)]
pub(crate) struct GlueTotals {
    pub(crate) stretch: Flexibility,
    pub(crate) shrink: Flexibility,
}

impl Flexibility {
    ghost use Rattle.box_pack.specs.PackingFlexibility.{at_order, highest};
    ghost use Rattle.box_pack.specs.GlueSums.{EachWithin, with_more};

    fn none() -> Flexibility
        ensures { result ≡ record { normal = pos 0; fil = pos 0; fill = pos 0; filll = pos 0 } }
    {
        Flexibility {
            normal: 0,
            fil: 0,
            fill: 0,
            filll: 0,
        }
    }

    fn add(&mut self, amount: i32, order: Order)
        requires { EachWithin (2 ^ 61) self.old }
        ensures sum { self.new ≡ with_more amount order self.old }
        ensures range { (n : ℕ) → EachWithin n self.old → EachWithin (n + 2 ^ 31) self.new }
    {
        match order {
            Order::Normal => self.normal = plus(self.normal, amount),
            Order::Fil => self.fil = plus(self.fil, amount),
            Order::Fill => self.fill = plus(self.fill, amount),
            Order::Filll => self.filll = plus(self.filll, amount),
        }
    }

    pub(crate) fn at(&self, order: Order) -> i64
        ensures { result ≡ at_order self.now order }
    {
        match order {
            Order::Normal => self.normal,
            Order::Fil => self.fil,
            Order::Fill => self.fill,
            Order::Filll => self.filll,
        }
    }

    /// The highest order with a sum other than 0, or `Normal`.
    pub(crate) fn highest(&self) -> Order
        ensures { result ≡ highest self.now }
    {
        if self.filll != 0 {
            Order::Filll
        } else if self.fill != 0 {
            Order::Fill
        } else if self.fil != 0 {
            Order::Fil
        } else {
            Order::Normal
        }
    }
}

impl GlueTotals {
    ghost use Rattle.box_pack.specs.GlueSums.{BothWithin, glue_totals, glue_with};

    pub(crate) fn none() -> GlueTotals
        ensures value { result ≡ glue_totals [] }
        ensures range { BothWithin 0 result }
    {
        GlueTotals {
            stretch: Flexibility::none(),
            shrink: Flexibility::none(),
        }
    }

    pub(crate) fn add(&mut self, glue: Glue)
        requires { BothWithin (2 ^ 61) self.old }
        ensures sum { self.new ≡ glue_with (Some glue) self.old }
        ensures range { (n : ℕ) → BothWithin n self.old → BothWithin (n + 2 ^ 31) self.new }
    {
        self.stretch.add(glue.stretch, glue.stretch_order);
        self.shrink.add(glue.shrink, glue.shrink_order);
    }
}
