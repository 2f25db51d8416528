//! Expressions with the values that TeX gives, and the troubles that come in them. An operand is handed in with its
//! value, as its own phrase reads it.
ghost use Rattle.std.specs.Prelude.{◌≡◌, ◌||◌, IfSome, OnSome};
ghost use Rattle.scan_nums.specs.Number.{is_of_phrase};
ghost use Rattle.etex_exprs.specs.TermTreeParts.{is_mixed};
ghost use Rattle.etex_exprs.specs.Standing.{WantsToken, IsReady, IsSorted};

use crate::parts::is_mixed;
use crate::{ExprScan, Number, Phrase, Verdict};
use scaled::{Glue, Order};
use std::alloc::Global;
use tokens::codes::RELAX;
use tokens::{Macro, Meaning, NameId, Token, TokenList};

mod ends;
mod glues;
mod numbers;

/// What is handed in: a token, or an operand.
#[derive(Clone, Copy)]
pub enum Item {
    /// A character of category 12.
    Sign(u8),
    Space,
    /// An inserted `\relax`.
    Relax,
    /// An active character that means `\relax`.
    ActiveRelax,
    /// The name `\relax` where a macro has it.
    NamedRelax,
    Int(i32),
    Dimen(i32),
    Spread(Spread),
    MuSpread(Spread),
}

/// A width, a stretch and a shrink.
#[derive(Clone, Copy)]
pub struct Spread(pub i32, pub (i32, Order), pub (i32, Order));

/// No stretch, or no shrink.
pub const NONE: (i32, Order) = (0, Order::Normal);

fn glue_of(spread: Spread) -> Glue {
    let Spread(width, stretch, shrink) = spread;
    Glue {
        width,
        stretch: stretch.0,
        stretch_order: stretch.1,
        shrink: shrink.0,
        shrink_order: shrink.1,
    }
}

/// The value of an operand.
fn number_of(item: Item) -> Option<Number> {
    match item {
        Item::Int(value) => Some(Number::Int(value)),
        Item::Dimen(value) => Some(Number::Dimen(value)),
        Item::Spread(spread) => Some(Number::Glue(glue_of(spread))),
        Item::MuSpread(spread) => Some(Number::MuGlue(glue_of(spread))),
        Item::Sign(_) | Item::Space | Item::Relax | Item::ActiveRelax | Item::NamedRelax => None,
    }
}

fn take_token(scan: &mut ExprScan, token: Token, meaning: &Meaning) -> Option<Verdict>
    requires { WantsToken scan.old }
    ensures { IfSome result (λ verdict. IsReady verdict scan.new) }
{
    match scan.take(token, meaning) {
        Ok(verdict) => Some(verdict),
        Err(_) => None,
    }
}

fn take_character(scan: &mut ExprScan, cat: u8, byte: u8) -> Option<Verdict>
    requires { WantsToken scan.old }
    ensures { IfSome result (λ verdict. IsReady verdict scan.new) }
{
    take_token(
        scan,
        Token::Char { cat, byte },
        &Meaning::Char { cat, byte },
    )
}

fn take_macro(scan: &mut ExprScan) -> Option<Verdict>
    requires { WantsToken scan.old }
    ensures { IfSome result (λ verdict. IsReady verdict scan.new) }
{
    let meaning = Meaning::Macro(Macro {
        long: false,
        outer: false,
        guarded: false,
        params: TokenList::empty(),
        body: TokenList::empty(),
    });
    take_token(scan, Token::Name(NameId(u64::from(RELAX))), &meaning)
}

/// Whether a phrase reads such a number, or one with the other units of glue.
fn is_answer(phrase: Phrase, number: Number) -> bool
    ensures { result ≡ (is_of_phrase phrase number || is_mixed phrase number) }
{
    phrase.gives(number) || is_mixed(phrase, number)
}

/// Takes the value of the operand that a phrase reads.
fn take_value(scan: &mut ExprScan, wanted: Verdict, number: Number) -> Option<Verdict>
    requires { IsReady wanted scan.old }
    ensures { IfSome result (λ verdict. IsReady verdict scan.new) }
{
    match wanted {
        Verdict::Sub(phrase) => {
            if !is_answer(phrase, number) {
                return None;
            }
            match scan.answer(number) {
                Ok(verdict) => Some(verdict),
                Err(_) => None,
            }
        }
        _ => None,
    }
}

/// Takes an operand that begins with a digit.
fn take_operand(scan: &mut ExprScan, number: Number) -> Option<Verdict>
    requires { WantsToken scan.old }
    ensures { IfSome result (λ verdict. IsReady verdict scan.new) }
{
    let wanted = take_character(scan, 12, b'1')?;
    take_value(scan, wanted, number)
}

fn take_item(scan: &mut ExprScan, item: Item) -> Option<Verdict>
    requires { WantsToken scan.old }
    ensures { IfSome result (λ verdict. IsReady verdict scan.new) }
{
    match item {
        Item::Sign(byte) => take_character(scan, 12, byte),
        Item::Space => take_character(scan, 10, b' '),
        Item::Relax => take_token(scan, Token::Frozen(0), &Meaning::Primitive(RELAX)),
        Item::ActiveRelax => take_token(scan, Token::Active(b'~'), &Meaning::Primitive(RELAX)),
        Item::NamedRelax => take_macro(scan),
        Item::Int(_) | Item::Dimen(_) | Item::Spread(_) | Item::MuSpread(_) => take_operand(
            scan,
            number_of(item)?,
        ),
    }
}

/// Takes what more of the expression comes behind.
fn take_more(scan: &mut ExprScan, item: Item) -> Option<()>
    requires { WantsToken scan.old }
    ensures { OnSome result (WantsToken scan.new) }
{
    match take_item(scan, item)? {
        Verdict::Need => Some(()),
        _ => None,
    }
}

fn go_on(scan: &mut ExprScan, items: &[Item]) -> Option<()>
    requires { WantsToken scan.old }
    ensures { OnSome result (WantsToken scan.new) }
{
    'going: for item in items {
        take_more(scan, *item)?;
    }
    Some(())
}

/// What comes of the last of some items.
fn outcome(alloc: Global, kind: Phrase, items: &[Item], last: Item) -> Option<Verdict>
    requires { IsSorted kind }
{
    let mut scan = ExprScan::new(alloc, kind);
    go_on(&mut scan, items)?;
    take_item(&mut scan, last)
}

fn is_same(number: Number, wanted: Option<Number>) -> bool {
    match (number, wanted) {
        (Number::Int(x), Some(Number::Int(y))) => x == y,
        (Number::Dimen(x), Some(Number::Dimen(y))) => x == y,
        (Number::Glue(x), Some(Number::Glue(y))) => x.is_same(y),
        (Number::MuGlue(x), Some(Number::MuGlue(y))) => x.is_same(y),
        _ => false,
    }
}

/// Whether an expression ended with its `\relax`, and has this value.
fn gives(verdict: Option<Verdict>, value: Item) -> bool {
    match verdict {
        Some(Verdict::Done(number)) => is_same(number, number_of(value)),
        _ => false,
    }
}
