//! A text that is passed over takes its tokens (`tex.web` 494).

ghost use Rattle.std.specs.Prelude.{◌≡◌, ◌+◌, ◌<◌, ◌^◌, ◌++◌, ◌∷◌, [], ℕ, List, Option, length, IfOk, OnOk};
ghost use Rattle.tokens.specs.declared.meaning.Meaning.{Meaning as MeaningValue};
ghost use Rattle.conditionals.specs.Skipping.{StandsFor, Tells};

use crate::task::{Told, Want};
use conditionals::{Skip, SkipScan};
use std::alloc::AllocError;
use tokens::Meaning;

/// How many tokens were taken with one more. More than 2^64-1 take longer than any run: where they came, memory would be
/// said to be short.
pub fn with_one_more(taken: u64) -> Result<u64, AllocError>
    ensures { IfOk result (λ more. more ≡ taken + 1) }
{
    if taken == u64::MAX {
        return Err(AllocError);
    }
    Ok(taken + 1)
}

/// The text takes a token, of which it looks at the meaning alone.
pub fn take(scan: &mut SkipScan, taken: &mut u64, meaning: &Meaning) -> Result<Skip, AllocError>
    ensures counted { OnOk result (taken.new ≡ taken.old + 1) }
    ensures few { OnOk result (taken.old + 1 < 2 ^ 64) }
    ensures tells { IfOk result (λ skip. (sought : ℕ) (before : List MeaningValue) → length before + 1 < 2 ^ 64
        → StandsFor sought before scan.old → Tells sought (before ++ meaning.now ∷ []) skip scan.new) }
{
    *taken = with_one_more(*taken)?;
    Ok(scan.take(meaning))
}

/// The text has ended with this word.
pub fn ended(word: u8) -> Want
    ensures { result ≡ Want.Gives (Told.Word word) Option.None }
{
    Want::Gives {
        told: Told::Word(word),
        back: None,
    }
}
