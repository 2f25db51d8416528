//! Passing over a text until a branch begins or the condition ends (`tex.web` 494, 500, 509 and 510).
ghost use Rattle.std.specs.Prelude.{ℕ, List, [], ◌∷◌, ◌++◌, ◌+◌, ◌<◌, ◌≤◌, ◌^◌, length};
ghost use Rattle.tokens.specs.declared.meaning.Meaning.{Meaning};
ghost use Rattle.conditionals.specs.Skipping.{StandsFor, Tells, TellsWord};

use crate::word::{Word, word_of};
use std::marker::Model;
use tokens::Meaning;

/// Whether a text is to be passed over further.
#[derive(Clone, Copy, Debug, PartialEq, Eq)]
pub enum Skip {
    Go,
    /// The last token ends the text: 0 for `\fi`, 1 for `\else`, 2 for the `\or` that was sought.
    Stopped { word: u8 },
}

/// A scan of the text behind a condition, or behind the branch that was read, for the place where reading
/// goes on.
#[derive(Drop)]
pub struct SkipScan {
    inner: u64,
    sought: u32,
}

impl Model for SkipScan {
    ghost use Rattle.conditionals.specs.Skipping.{Skipping};

    ghost Value = { Skipping };

    ghost view = { λ scan. record { inner = scan.inner; sought = scan.sought } };
}

impl SkipScan {
    /// A scan that stops at the `\or` of this number, counted from 1, or before it at `\else` or `\fi`.
    /// With 0 it passes each `\or`.
    pub fn new(to: u32) -> SkipScan
        ensures { StandsFor to [] result }
    {
        SkipScan {
            inner: 0,
            sought: to,
        }
    }

    /// Takes the next token, by its meaning. After `Stopped` no further call is made.
    pub fn take(&mut self, meaning: &Meaning) -> Skip
        ensures tells { (sought : ℕ) (taken : List Meaning) → length taken + 1 < 2 ^ 64
            → StandsFor sought taken self.old → Tells sought (taken ++ meaning.now ∷ []) result self.new }
    {
        self.take_word(word_of(meaning))
    }

    #[tactic(auto, using(crate::proofs::Scanning::word_tells, crate::proofs::Scanning::word_within))]
    fn take_word(&mut self, word: Word) -> Skip
        ensures tells { self.old.inner + 1 < 2 ^ 64 → TellsWord word self.old result self.new }
        ensures within { self.new.inner ≤ self.old.inner + 1 }
    {
        match word {
            Word::Opener => self.inner = self.inner.saturating_add(1),
            Word::Or => {
                if self.inner == 0 {
                    if self.sought == 1 {
                        return Skip::Stopped { word: 2 };
                    }
                    self.sought = self.sought.saturating_sub(1);
                }
            }
            Word::Else => {
                if self.inner == 0 {
                    return Skip::Stopped { word: 1 };
                }
            }
            Word::Fi => {
                if self.inner == 0 {
                    return Skip::Stopped { word: 0 };
                }
                self.inner -= 1;
            }
            Word::Other => {}
        }
        Skip::Go
    }
}
