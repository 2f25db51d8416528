//! What a whole number wants next (The TeXbook, chapter 24; `tex.web` 440).
#![tactic(auto, using(asking::specs::Asked::asking))]

ghost use Rattle.std.specs.Prelude.{◌≡◌, IfOk, Option};
ghost use Rattle.scan_nums.specs.Awaited.{NextToken, Answer, Resumption};
ghost use Rattle.scan_nums.specs.IntScan.{awaits};
ghost use Rattle.scan_nums.specs.Number.{IsNegatable};
ghost use Rattle.tokens.specs.declared.token.Token.{Token};
ghost use Rattle.gullet.specs.Progress.{TakesUp};
ghost use Rattle.gullet.specs.Wants.{Tok, Got, Was, negatable, is_above_lowest, are_above_lowest, given_back, number_want};

use crate::progress::Progress;
use crate::step::number_told;
use crate::task::{Act, Task, Told, Want};
use scaled::Glue;
use scan_nums::{IntScan, Number, Verdict};
use std::alloc::{AllocError, Global};
use tokens::{Kind, Meaning, Text, Token};

fn is_above_lowest(number: i32) -> bool
    ensures { result ≡ is_above_lowest number }
{
    number >= -2147483647
}

fn are_above_lowest(glue: Glue) -> bool
    ensures { result ≡ are_above_lowest glue }
{
    is_above_lowest(glue.width) && is_above_lowest(glue.stretch) && is_above_lowest(glue.shrink)
}

/// The number, or 0 where it has no negative.
pub fn negatable(number: Number) -> Number
    ensures value { result ≡ negatable number }
    ensures fits { IsNegatable result }
{
    let is_negatable = match number {
        Number::Int(n) => is_above_lowest(n),
        Number::Dimen(n) => is_above_lowest(n),
        Number::Glue(glue) => are_above_lowest(glue),
        Number::MuGlue(glue) => are_above_lowest(glue),
    };
    if is_negatable { number } else { Number::Int(0) }
}

/// The token that is given back, if one is.
fn given_back(back: u8, last: Option<Token>) -> Option<Token>
    ensures { result ≡ given_back back last }
{
    if back == 0 { None } else { last }
}

/// What the number wants behind this verdict.
pub fn number_want(
    alloc: Global,
    verdict: Verdict,
    is_character: bool,
    last: Option<Token>,
) -> Result<Want, AllocError>
    ensures { IfOk result (λ want. want ≡ number_want verdict is_character last) }
{
    match verdict {
        Verdict::Need => Ok(if is_character {
            Want::Character
        } else {
            Want::Expanded
        }),
        Verdict::Ask(quantity) => Ok(Want::Inner(Task::QuantityValue(quantity))),
        Verdict::Sub(_) => Ok(Want::Wrong(Kind::LeftOut(Text::new(b"expression".to_vec(alloc)?)))),
        Verdict::Done(number) => Ok(Want::Gives {
            told: Told::Number(number),
            back: None,
        }),
        Verdict::DoneBefore { number, back } => Ok(Want::Gives {
            told: Told::Number(number),
            back: given_back(back, last),
        }),
        Verdict::Trouble(kind) => Ok(Want::Wrong(kind)),
        Verdict::Pass { kind, back } => Ok(Want::Act(Act::Pass {
            kind,
            back: given_back(back, last),
        })),
    }
}

/// The number takes a token, and says what it wants next.
pub fn take_token(
    alloc: Global,
    scan: &mut IntScan,
    token: Token,
    meaning: &Meaning,
) -> Result<Want, AllocError>
    requires { awaits scan.old ≡ NextToken }
    ensures { IfOk result (λ want. TakesUp (Progress.Number scan.old) (Tok token meaning.now) (Progress.Number scan.new) want) }
{
    let verdict = scan.take(token, meaning);
    let is_character = scan.wants_character();
    number_want(alloc, verdict, is_character, Some(token))
}

/// The number takes the value that it asked for.
pub fn take_value(alloc: Global, scan: &mut IntScan, told: Told) -> Result<Want, AllocError>
    requires { awaits scan.old ≡ Answer }
    ensures { IfOk result (λ want. TakesUp (Progress.Number scan.old) (Got told) (Progress.Number scan.new) want) }
{
    let verdict = scan.answer(negatable(number_told(&told)));
    let is_character = scan.wants_character();
    number_want(alloc, verdict, is_character, None)
}

/// The number goes on behind a trouble that was passed over.
pub fn resume(alloc: Global, scan: &mut IntScan) -> Result<Want, AllocError>
    requires { awaits scan.old ≡ Resumption }
    ensures { IfOk result (λ want. (told : Told) → TakesUp (Progress.Number scan.old) (Was told) (Progress.Number scan.new) want) }
{
    let verdict = scan.resume();
    let is_character = scan.wants_character();
    number_want(alloc, verdict, is_character, None)
}
