//! Hands a text to an automaton, byte after byte, and answers what it asks. Tokens that are given back with a trouble
//! that is passed over are handed in again.
//!
//! A letter has category 11, a space 10, any other byte 12. A byte behind `\` is a name of one character in a
//! character constant, and has category 12. Six bytes stand for names: `@` for `\count9`, `$` for `\dimen9`,
//! `&` for `\skip9`, `!` for `\muskip9`, `^` for `\mag` and `~` for `\relax`.

ghost use Rattle.std.specs.Prelude.{◌≡◌, OnOk};
ghost use Rattle.scan_nums.specs.Awaited.{awaited_after, Answer, NextToken, Resumption};
ghost use Rattle.scan_nums.specs.IntScan.{awaits};
ghost use Rattle.scan_nums.specs.DimenScan.{awaits as dimen_awaits};
ghost use Rattle.scan_nums.specs.GlueScan.{awaits as glue_awaits};

use crate::{DimenScan, GlueScan, IntScan, Number, Quantity, Verdict};
use scaled::{Glue, Order};
use tokens::{Meaning, NameId, RegKind, Token, codes};

/// A number with the count of tokens that are given back, and of troubles that were passed over.
#[derive(Clone, Copy, Debug, PartialEq, Eq)]
pub struct Reading {
    pub number: Number,
    pub back: u8,
    pub troubles: u8,
}

pub fn token_of(byte: u8, escaped: bool) -> Token {
    match byte {
        b'@' | b'$' | b'&' | b'!' | b'^' | b'~' => Token::Name(NameId(u64::from(byte))),
        b' ' => Token::Char { cat: 10, byte },
        b'A'..=b'Z' | b'a'..=b'z' => Token::Char {
            cat: if escaped { 12 } else { 11 },
            byte,
        },
        _ => Token::Char { cat: 12, byte },
    }
}

pub fn meaning_of(byte: u8) -> Meaning {
    match byte {
        b'@' => register(RegKind::Count),
        b'$' => register(RegKind::Dimen),
        b'&' => register(RegKind::Skip),
        b'!' => register(RegKind::Muskip),
        b'^' => Meaning::Primitive(codes::MAG),
        b'~' => Meaning::Primitive(codes::RELAX),
        b' ' => Meaning::Char { cat: 10, byte },
        b'A'..=b'Z' | b'a'..=b'z' => Meaning::Char { cat: 11, byte },
        _ => Meaning::Char { cat: 12, byte },
    }
}

fn register(kind: RegKind) -> Meaning {
    Meaning::Register { kind, number: 9 }
}

/// `\count9` is 1234, `\dimen9` 12.5pt, `\skip9` 3.25pt plus 1.5pt minus 2fil, `\muskip9` 4mu plus 1fil minus
/// 1mu. `\mag` is 2000, and each parameter of the font 655361 sp. All else is 0.
pub fn value_of(quantity: Quantity) -> Number {
    match quantity.code {
        codes::COUNT => Number::Int(1234),
        codes::DIMEN => Number::Dimen(819_200),
        codes::SKIP => Number::Glue(Glue {
            width: 212_992,
            stretch: 98_304,
            stretch_order: Order::Normal,
            shrink: 131_072,
            shrink_order: Order::Fil,
        }),
        codes::MUSKIP => Number::MuGlue(Glue {
            width: 262_144,
            stretch: 65_536,
            stretch_order: Order::Fil,
            shrink: 65_536,
            shrink_order: Order::Normal,
        }),
        codes::MAG => Number::Int(2000),
        codes::FONTDIMEN => Number::Dimen(655_361),
        _ => Number::Int(0),
    }
}

fn found(number: Number, back: u8, troubles: u8) -> Option<Reading> {
    Some(Reading {
        number,
        back,
        troubles,
    })
}

/// Reads a whole number. `None` where the text ends too early, and for a trouble that isn't passed over.
pub fn whole_number(text: &[u8]) -> Option<Reading> {
    let mut scan = IntScan::new();
    let mut troubles: u8 = 0;
    let mut escaped = false;
    for byte in text {
        if *byte == b'\\' {
            escaped = true;
        } else {
            match hand_in(&mut scan, *byte, escaped) {
                Ok(passed) => troubles = troubles.saturating_add(passed),
                Err(reading) => return with_troubles(reading, troubles),
            }
            escaped = false;
        }
    }
    None
}

fn with_troubles(reading: Option<Reading>, before: u8) -> Option<Reading> {
    match reading {
        Some(reading) => found(
            reading.number,
            reading.back,
            reading.troubles.saturating_add(before),
        ),
        None => None,
    }
}

/// Hands in one byte: the number of troubles that were passed over, or how the reading ends.
fn hand_in(scan: &mut IntScan, byte: u8, escaped: bool) -> Result<u8, Option<Reading>>
    requires { awaits scan.old ≡ NextToken }
    ensures { OnOk result (awaits scan.new ≡ NextToken) }
{
    let meaning = meaning_of(byte);
    match scan.take(token_of(byte, escaped), &meaning) {
        Verdict::Need => Ok(0),
        Verdict::Ask(quantity) => Err(answered(scan, value_of(quantity))),
        Verdict::Done(number) => Err(found(number, 0, 0)),
        Verdict::DoneBefore { number, back } => Err(found(number, back, 0)),
        Verdict::Pass { kind: _, back } => passed(scan, back),
        Verdict::Sub(_) | Verdict::Trouble(_) => Err(None),
    }
}

fn passed(scan: &mut IntScan, back: u8) -> Result<u8, Option<Reading>>
    requires { awaits scan.old ≡ Resumption }
    ensures { OnOk result (awaits scan.new ≡ NextToken) }
{
    match scan.resume() {
        Verdict::Need => Ok(1),
        Verdict::Done(number) => Err(found(number, back, 1)),
        _ => Err(None),
    }
}

fn answered(scan: &mut IntScan, value: Number) -> Option<Reading>
    requires { awaits scan.old ≡ Answer }
{
    if !value.is_negatable() {
        return None;
    }
    match scan.answer(value) {
        Verdict::Done(number) => found(number, 0, 0),
        _ => None,
    }
}

/// Reads a dimension by a reader that is new. `None` where the text ends too early, and for a trouble that isn't passed over.
pub fn dimension(scan: &mut DimenScan, text: &[u8]) -> Option<Reading>
    requires { dimen_awaits scan.old ≡ NextToken }
{
    let mut troubles: u8 = 0;
    let mut place: usize = 0;
    'tokens: for _ in 0..64u8 {
        if place >= text.len() {
            return None;
        }
        let byte = text[place];
        place += 1;
        let meaning = meaning_of(byte);
        let verdict = scan.take(token_of(byte, false), &meaning);
        match settled(scan, verdict) {
            Ok((back, passed)) => {
                place = place.saturating_sub(usize::from(back));
                troubles = troubles.saturating_add(passed);
            }
            Err(reading) => return with_troubles(reading, troubles),
        }
    }
    None
}

/// Answers and resumes until the next token is wanted, with the number of tokens that were given back and of troubles
/// that were passed over, or until the reading ends.
fn settled(scan: &mut DimenScan, first: Verdict) -> Result<(u8, u8), Option<Reading>>
    requires { dimen_awaits scan.old ≡ awaited_after first }
    ensures { OnOk result (dimen_awaits scan.new ≡ NextToken) }
{
    let mut verdict = first;
    let mut returned: u8 = 0;
    let mut troubles: u8 = 0;
    'verdicts: for _ in 0..4u8 {
        verdict = match verdict {
            Verdict::Need => return Ok((returned, troubles)),
            Verdict::Ask(quantity) => {
                let value = value_of(quantity);
                if !value.is_negatable() {
                    return Err(None);
                }
                scan.answer(value)
            }
            Verdict::Pass { kind: _, back } => {
                returned = returned.saturating_add(back);
                troubles = troubles.saturating_add(1);
                scan.resume()
            }
            Verdict::Done(number) => return Err(found(number, returned, troubles)),
            Verdict::DoneBefore { number, back } => return Err(found(number, back, troubles)),
            Verdict::Sub(_) | Verdict::Trouble(_) => return Err(None),
        };
    }
    Err(None)
}

/// Reads a glue by a reader that is new. `None` where the text ends too early, and for a trouble that isn't passed over.
pub fn glue(scan: &mut GlueScan, text: &[u8]) -> Option<Reading>
    requires { glue_awaits scan.old ≡ NextToken }
{
    let mut troubles: u8 = 0;
    let mut place: usize = 0;
    'tokens: for _ in 0..64u8 {
        if place >= text.len() {
            return None;
        }
        let byte = text[place];
        place += 1;
        let meaning = meaning_of(byte);
        let verdict = scan.take(token_of(byte, false), &meaning);
        match glue_settled(scan, verdict) {
            Ok((back, passed)) => {
                place = place.saturating_sub(usize::from(back));
                troubles = troubles.saturating_add(passed);
            }
            Err(reading) => return with_troubles(reading, troubles),
        }
    }
    None
}

/// The same as `settled` of a reader of glue.
fn glue_settled(scan: &mut GlueScan, first: Verdict) -> Result<(u8, u8), Option<Reading>>
    requires { glue_awaits scan.old ≡ awaited_after first }
    ensures { OnOk result (glue_awaits scan.new ≡ NextToken) }
{
    let mut verdict = first;
    let mut returned: u8 = 0;
    let mut troubles: u8 = 0;
    'verdicts: for _ in 0..4u8 {
        verdict = match verdict {
            Verdict::Need => return Ok((returned, troubles)),
            Verdict::Ask(quantity) => {
                let value = value_of(quantity);
                if !value.is_negatable() {
                    return Err(None);
                }
                scan.answer(value)
            }
            Verdict::Pass { kind: _, back } => {
                returned = returned.saturating_add(back);
                troubles = troubles.saturating_add(1);
                scan.resume()
            }
            Verdict::Done(number) => return Err(found(number, returned, troubles)),
            Verdict::DoneBefore { number, back } => return Err(found(number, back, troubles)),
            Verdict::Sub(_) | Verdict::Trouble(_) => return Err(None),
        };
    }
    Err(None)
}
