//! Setting characters in a font (`tex.web`, sections 1029 to 1040).
ghost use Rattle.std.specs.Prelude.{◌≡◌, [], IfOk, IfErr};
ghost use Rattle.tokens.specs.Ends.{EndsAs};
ghost use Rattle.tfm.specs.FontMetrics.{FontMetrics};
ghost use Rattle.lig_kern.specs.Rewriting.{first_word, with_fed, closed};
ghost use Rattle.lig_kern.specs.Settling.{settled, Settles, GivesList, IsSpentAt};
ghost use Rattle.lig_kern.specs.Histories.{StandsFor, KeepsHistories, SetsHistory};

use crate::rewriter::Rewriter;
use nodes::Node;
use std::alloc::Global;
use std::marker::Model;
use tfm::Metrics;
use tokens::{Budget, Stop};

/// A word that is being set in a font: the characters that were fed, as far as the font's program can go with them.
/// All calls on one word are to have equal metrics.
#[derive(Drop)]
pub struct Setter {
    alloc: Global,
    rewriter: Rewriter,
}

impl Model for Setter {
    ghost use Rattle.lig_kern.specs.Rewriting.{Word};
    ghost use Rattle.lig_kern.specs.WordOf.{word_code, word_of};

    ghost Value = { Word };

    ghost coded = { word_code };

    ghost view = { λ setter. word_of setter.rewriter };
}

impl Setter {
    /// A word of which nothing was fed; `left` says whether a boundary stands at its left.
    pub fn new(alloc: Global, font: u8, left: bool) -> Setter
        ensures word { result ≡ first_word font left }
        ensures history { (metrics : FontMetrics) → StandsFor metrics font left [] 0 result }
    {
        Setter {
            alloc,
            rewriter: Rewriter::new(alloc, font, left),
        }
    }

    /// Feeds a character. The program goes on until it needs a further one, with a step for each ligature. What was
    /// done before the steps were used up stays done, and the character stays fed.
    pub fn feed(&mut self, metrics: &Metrics, byte: u8, budget: &mut Budget) -> Result<(), Stop>
        ensures settles { Settles metrics.now (with_fed byte self.old) budget.old result self.new budget.new }
        ensures history { KeepsHistories metrics.now byte budget.old.left self.old result self.new }
    {
        self.rewriter.feed(self.alloc, metrics, byte, budget)
    }

    /// Ends the word; `right` says whether a boundary stands at its right. The list has its characters and kerns.
    pub fn close(
        self,
        metrics: &Metrics,
        right: bool,
        budget: &mut Budget,
    ) -> Result<Vec<Node>, Stop>
        ensures list { IfOk result
            (λ list. GivesList metrics.now (settled metrics.now (closed right self) budget.old) list.items budget.new) }
        ensures history { IfOk result (λ list. SetsHistory metrics.now self right budget.old.left list.items) }
        ensures spent { IfErr result
            (EndsAs (IsSpentAt metrics.now (settled metrics.now (closed right self) budget.old) budget.new)) }
    {
        let Setter {
            alloc,
            mut rewriter,
        } = self;
        rewriter.end(right)?;
        rewriter.settle(alloc, metrics, budget)?;
        let list = rewriter.into_list(alloc, metrics)?;
        Ok(list)
    }
}
