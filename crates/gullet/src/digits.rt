//! How numbers, dimensions and glue are written (`tex.web` 65, 69, 103, 177 and 178).
#![tactic(auto)]

ghost use Rattle.std.specs.Prelude.{◌≡◌, ◌++◌, IfOk, OnOk};
ghost use Rattle.scaled.specs.ArithmeticDecimals.{points_text};
ghost use Rattle.gullet.specs.Acts.{numeral, digits, unit_text, flexible_text, glue_text};

use crate::task::Numerals;
use scaled::{Glue, Order, points, roman};
use scan_nums::Number;
use std::alloc::{AllocError, Global};

/// A number in digits, with a sign where it is below 0, or in roman numerals.
fn numeral(alloc: Global, numerals: Numerals, number: i32) -> Result<Vec<u8>, AllocError>
    ensures { IfOk result (λ text. text.items ≡ numeral numerals number) }
{
    match numerals {
        Numerals::Decimal => {
            let text = format!(in alloc; "{number}")?;
            Ok(text.into_bytes())
        }
        Numerals::Roman => roman(alloc, number),
    }
}

/// A unit, or in its place an order of what is infinite.
fn push_unit(text: &mut Vec<u8>, unit: &[u8], order: Order) -> Result<(), AllocError>
    ensures { OnOk result (text.new.items ≡ text.old.items ++ unit_text unit.now order) }
{
    match order {
        Order::Normal => text.extend_from_slice(unit),
        Order::Fil => text.extend_from_slice(b"fil"),
        Order::Fill => text.extend_from_slice(b"fill"),
        Order::Filll => text.extend_from_slice(b"filll"),
    }
}

/// What a glue stretches or shrinks, behind its word, where that isn't 0.
fn push_flexible(
    text: &mut Vec<u8>,
    alloc: Global,
    word: &[u8],
    unit: &[u8],
    amount: i32,
    order: Order,
) -> Result<(), AllocError>
    ensures { OnOk result (text.new.items ≡ text.old.items ++ flexible_text word.now unit.now amount order) }
{
    if amount == 0 {
        Ok(())
    } else {
        push_amount(text, alloc, word, unit, amount, order)
    }
}

/// A word, a dimension and its unit.
fn push_amount(
    text: &mut Vec<u8>,
    alloc: Global,
    word: &[u8],
    unit: &[u8],
    amount: i32,
    order: Order,
) -> Result<(), AllocError>
    ensures { OnOk result (text.new.items ≡ text.old.items ++ (word.now ++ (points_text amount ++ unit_text unit.now order))) }
{
    let points = points(alloc, amount)?;
    text.extend_from_slice(word)?;
    text.extend_from_slice(&points)?;
    push_unit(text, unit, order)
}

/// A glue in this unit.
fn glue_text(alloc: Global, unit: &[u8], glue: Glue) -> Result<Vec<u8>, AllocError>
    ensures { IfOk result (λ text. text.items ≡ glue_text unit.now glue) }
{
    let mut text = points(alloc, glue.width)?;
    text.extend_from_slice(unit)?;
    push_flexible(
        &mut text,
        alloc,
        b" plus ",
        unit,
        glue.stretch,
        glue.stretch_order,
    )?;
    push_flexible(
        &mut text,
        alloc,
        b" minus ",
        unit,
        glue.shrink,
        glue.shrink_order,
    )?;
    Ok(text)
}

/// A number in these numerals, a dimension in points, a glue in points or in mu.
pub fn digits(alloc: Global, numerals: Numerals, number: Number) -> Result<Vec<u8>, AllocError>
    ensures { IfOk result (λ text. text.items ≡ digits numerals number) }
{
    match number {
        Number::Int(n) => numeral(alloc, numerals, n),
        Number::Dimen(n) => {
            let mut text = points(alloc, n)?;
            text.extend_from_slice(b"pt")?;
            Ok(text)
        }
        Number::Glue(glue) => glue_text(alloc, b"pt", glue),
        Number::MuGlue(glue) => glue_text(alloc, b"mu", glue),
    }
}
