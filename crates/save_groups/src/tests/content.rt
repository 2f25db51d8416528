//! Entries of each kind that both modes have, and what they can hold.
ghost use Rattle.std.specs.Prelude.{◌≡◌, ℤ, Bool, false, IfOk, IsTrue};
ghost use Rattle.save_groups.specs.Keys.{is_key, holds_number, holds_glue, holds_tokens, holds_meaning};
ghost use Rattle.save_groups.specs.Values.{fits, is_category, names_in_mode};
ghost use Rattle.save_groups.specs.declared.key.Key.{Key};
ghost use Rattle.save_groups.specs.declared.value.Value.TheVariants as kind;

use super::{COUNT, Groups, glue, list, means, name, number};
use crate::parameters::{FIRST_DIMENSION, FIRST_GLUE, FIRST_TOKENS, TOLERANCE};
use crate::{Env, Key, Scope, Value};
use scaled::{Glue, Order};
use std::alloc::Global;
use std::sync::ledger::Ledger;
use std::test::Fail;
use tokens::{Macro, Meaning, RegKind, Stop, Token, TokenList};

/// The tables of codes.
pub const CATEGORY: u8 = 0;

pub const LOWER_CASE: u8 = 1;

pub const UPPER_CASE: u8 = 2;

pub const SPACE_FACTOR: u8 = 3;

pub const MATH_CODE: u8 = 4;

pub const DELIMITER: u8 = 5;

/// The first name behind the primitives.
pub const FIRST_NAME: u64 = 391;

/// Entries that hold a number. The codes are those of a capital letter.
#[derive(Clone, Copy)]
pub enum NumberAt {
    Count,
    Dimen,
    Integer,
    Dimension,
    LowerCase,
    UpperCase,
    SpaceFactor,
    MathCode,
    Delimiter,
    Font,
    Family,
}

#[derive(Clone, Copy)]
pub enum GlueAt {
    Skip,
    Muskip,
    Parameter,
}

#[derive(Clone, Copy)]
pub enum ListAt {
    Register,
    Parameter,
}

#[derive(Clone, Copy)]
pub enum MeaningAt {
    Name,
    Active,
}

/// A few meanings.
#[derive(Clone, Copy)]
pub enum Sample {
    Undefined,
    Letter,
    Macro { long: bool },
}

/// What an entry holds.
#[derive(Clone, Copy)]
pub enum Content {
    Number(NumberAt, i32),
    /// Whether a capital letter is an active character. At the start it is a letter.
    Category { active: bool },
    /// A glue that stretches by nothing of this order, or the glue of the start.
    Glue(GlueAt, Option<Order>),
    /// A list with this argument in it, or the empty list.
    Tokens(ListAt, Option<u8>),
    Meaning(MeaningAt, Sample),
}

/// The code of a capital letter.
fn code_key(table: u8) -> Key
    ensures { result ≡ Key.Code table 65 }
{
    Key::Code { table, byte: b'A' }
}

pub fn number_key(place: NumberAt) -> Key
    ensures key { IsTrue (is_key false result) }
    ensures kind { IsTrue (holds_number result) }
    ensures fits { (value : ℤ) → IsTrue (fits result (kind.Number value)) }
{
    match place {
        NumberAt::Count => COUNT,
        NumberAt::Dimen => Key::Register {
            kind: RegKind::Dimen,
            number: 2,
        },
        NumberAt::Integer => Key::Parameter(TOLERANCE),
        NumberAt::Dimension => Key::Parameter(FIRST_DIMENSION),
        NumberAt::LowerCase => code_key(LOWER_CASE),
        NumberAt::UpperCase => code_key(UPPER_CASE),
        NumberAt::SpaceFactor => code_key(SPACE_FACTOR),
        NumberAt::MathCode => code_key(MATH_CODE),
        NumberAt::Delimiter => code_key(DELIMITER),
        NumberAt::Font => Key::CurrentFont,
        NumberAt::Family => Key::Family { size: 1, number: 2 },
    }
}

fn glue_key(place: GlueAt) -> Key
    ensures key { IsTrue (is_key false result) }
    ensures kind { IsTrue (holds_glue result) }
{
    match place {
        GlueAt::Skip => Key::Register {
            kind: RegKind::Skip,
            number: 3,
        },
        GlueAt::Muskip => Key::Register {
            kind: RegKind::Muskip,
            number: 4,
        },
        GlueAt::Parameter => Key::Parameter(FIRST_GLUE),
    }
}

fn list_key(place: ListAt) -> Key
    ensures key { IsTrue (is_key false result) }
    ensures kind { IsTrue (holds_tokens result) }
{
    match place {
        ListAt::Register => Key::Register {
            kind: RegKind::Toks,
            number: 5,
        },
        ListAt::Parameter => Key::Parameter(FIRST_TOKENS),
    }
}

fn meaning_key(place: MeaningAt) -> Key
    ensures key { IsTrue (is_key false result) }
    ensures kind { IsTrue (holds_meaning result) }
{
    match place {
        MeaningAt::Name => name(FIRST_NAME),
        MeaningAt::Active => Key::Active(b'~'),
    }
}

fn category_of(active: bool) -> i32
    ensures { IsTrue (is_category result) }
{
    if active { 13 } else { 11 }
}

fn glue_of(order: Option<Order>) -> Glue {
    match order {
        Some(stretch_order) => Glue {
            width: 65_536,
            stretch: 0,
            stretch_order,
            shrink: -1,
            shrink_order: Order::Normal,
        },
        None => Glue {
            width: 0,
            stretch: 0,
            stretch_order: Order::Normal,
            shrink: 0,
            shrink_order: Order::Normal,
        },
    }
}

fn tokens_of(alloc: Global, argument: Option<u8>) -> Result<TokenList, Stop> {
    match argument {
        Some(number) => TokenList::from_slice(alloc, &[Token::Active(b'~'), Token::Arg(number)]),
        None => Ok(TokenList::empty()),
    }
}

fn macro_of(alloc: Global, long: bool) -> Result<Meaning, Stop>
    ensures { IfOk result (λ meaning. (extended : Bool) → IsTrue (names_in_mode extended meaning)) }
{
    Ok(Meaning::Macro(Macro {
        long,
        outer: false,
        guarded: false,
        params: tokens_of(alloc, Some(1))?,
        body: tokens_of(alloc, Some(1))?,
    }))
}

fn meaning_of(alloc: Global, sample: Sample) -> Result<Meaning, Stop>
    ensures { IfOk result (λ meaning. (extended : Bool) → IsTrue (names_in_mode extended meaning)) }
{
    match sample {
        Sample::Undefined => Ok(Meaning::Undefined),
        Sample::Letter => Ok(Meaning::CharDef(65)),
        Sample::Macro { long } => macro_of(alloc, long),
    }
}

/// Gives an entry its content.
pub fn give<L: Ledger>(
    alloc: Global,
    groups: &mut Groups<L>,
    content: Content,
    scope: Scope,
) -> Result<(), Fail> {
    match content {
        Content::Number(place, value) => {
            groups.set(number_key(place), Value::Number(value), scope)?;
            Ok(())
        }
        Content::Category { active } => {
            groups.set(
                code_key(CATEGORY),
                Value::Number(category_of(active)),
                scope,
            )?;
            Ok(())
        }
        Content::Glue(place, order) => {
            groups.set(glue_key(place), Value::Glue(glue_of(order)), scope)?;
            Ok(())
        }
        Content::Tokens(place, argument) => {
            let value = Value::Tokens(tokens_of(alloc, argument)?);
            groups.set(list_key(place), value, scope)?;
            Ok(())
        }
        Content::Meaning(place, sample) => {
            let value = Value::Meaning(meaning_of(alloc, sample)?);
            groups.set(meaning_key(place), value, scope)?;
            Ok(())
        }
    }
}

/// Whether an entry has this content.
pub fn holds(alloc: Global, env: &Env, content: Content) -> Result<bool, Fail> {
    match content {
        Content::Number(place, value) => Ok(number(env, number_key(place)) == value),
        Content::Category { active } => Ok(number(env, code_key(CATEGORY)) == category_of(active)),
        Content::Glue(place, order) => Ok(glue(env, glue_key(place)).is_same(glue_of(order))),
        Content::Tokens(place, argument) => {
            let wanted = tokens_of(alloc, argument)?;
            Ok(list(env, list_key(place)).is_same(&wanted))
        }
        Content::Meaning(place, sample) => {
            let wanted = meaning_of(alloc, sample)?;
            Ok(means(env, meaning_key(place), &wanted))
        }
    }
}
