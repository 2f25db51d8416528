//! The steps that a run may take, and those that it took.
ghost use Rattle.std.specs.Prelude.{◌≡◌, ◌+◌, ◌<◌, ◌^◌, not, MatchBool, OnOk, OnErr, IfErr};
ghost use Rattle.tokens.specs.Budget.{unused, is_spent, after_step, step_of};
ghost use Rattle.tokens.specs.Ends.{Ends, Gives};

use crate::stop::Stop;
use std::marker::Model;

/// A number of steps with how many of them are used.
#[derive(Drop)]
pub struct Budget {
    left: u64,
    used: u64,
}

impl Model for Budget {
    ghost use Rattle.std.specs.Prelude.{◌+◌, ◌<◌, ◌^◌};
    ghost use Rattle.tokens.specs.Budget.{Allowance};

    ghost Value = { Allowance };

    ghost view = { λ budget. record { left = budget.left; used = budget.used } };

    ghost invariant = { λ budget. budget.left + budget.used < 2 ^ 64 };
}

impl Budget {
    /// A budget of so many steps, none of which is used.
    pub fn new(steps: u64) -> Budget
        ensures { result ≡ unused steps }
    {
        Budget {
            left: steps,
            used: 0,
        }
    }

    /// Takes one step, where one is left.
    pub fn spend(&mut self) -> bool
        ensures taken { result ≡ not (is_spent self.old) }
        ensures after { MatchBool result (self.new ≡ after_step self.old) (self.new ≡ self.old) }
    {
        if self.left == 0 {
            return false;
        }
        self.left -= 1;
        self.used += 1;
        true
    }

    /// The same step, for a caller that ends with a `Stop`.
    pub fn step(&mut self) -> Result<(), Stop>
        ensures gives { OnOk result (Gives (step_of self.old) self.new) }
        ensures ends { IfErr result (λ stop. Ends (step_of self.old) stop) }
        ensures spent { IfErr result (λ stop. stop ≡ Stop.Spent) }
        ensures unchanged { OnErr result (self.new ≡ self.old) }
    {
        if self.spend() {
            Ok(())
        } else {
            Err(Stop::Spent)
        }
    }

    /// Whether all steps are used.
    pub fn spent(&self) -> bool
        ensures { result ≡ is_spent self.now }
    {
        self.left == 0
    }

    pub fn used(&self) -> u64
        ensures value { result ≡ self.now.used }
        ensures within { self.now.left + result < 2 ^ 64 }
    {
        self.used
    }
}
