//! The values of INITEX (The TeXbook, appendix B; `tex.web` 232, 240, 250).
ghost use Rattle.std.specs.Prelude.{◌≡◌, pos, ◌<◌, IfOk};
ghost use Rattle.std.proofs.Common.{suc};
ghost use Rattle.save_groups.specs.StartValues.{is_capital, is_small, is_digit, start_lccode, start_uccode, start_sfcode, start_mathcode, start_delcode, start_code, start_number};
ghost use Rattle.save_groups.specs.StartTables.{number_at_start, code_at_start, meaning_at_start, void_at_start, table_at_start, start_boxes, start_penalties, start_numbers, start_codes, start_names, start_levels};

use crate::entry::Entry;
use crate::heap_box::HeapBox;
use crate::parameters::{
    DAY, END_LINE_CHAR, ESCAPE_CHAR, HANG_AFTER, MAG, MAX_DEAD_CYCLES, MONTH, PARAMETER_COUNT,
    TIME, TOLERANCE, YEAR,
};
use sqlite_items::Items;
use std::alloc::{AllocError, Global};
use tokens::{Meaning, NameId, PRIMITIVE_COUNT, start_meaning};

/// How many codes the five tables have that aren't categories.
const CODE_COUNT: u16 = 1280;

/// How many boxes each mode has.
const BOX_COUNT: u16 = 256;

/// How many arrays of penalties there are.
const ARRAY_COUNT: u8 = 4;

/// The parameters that are numbers, by their places.
#[tactic(auto, unfolding(crate::specs::StartTables::start_numbers))]
pub fn start_numbers(alloc: Global) -> Result<Vec<Entry<i32>>, AllocError>
    ensures { IfOk result (λ table. table.items ≡ start_numbers) }
{
    (0..PARAMETER_COUNT)
        .map(|place| number_entry(place))
        .collect(alloc)
}

fn number_entry(place: u8) -> Entry<i32>
    ensures { result ≡ number_at_start place }
{
    Entry {
        value: start_number(place),
        level: 1,
    }
}

fn start_number(place: u8) -> i32
    ensures { result ≡ pos (start_number place) }
{
    match place {
        TOLERANCE => 10_000,
        MAG => 1000,
        TIME => 720,
        DAY => 4,
        MONTH => 7,
        YEAR => 1776,
        MAX_DEAD_CYCLES => 25,
        HANG_AFTER => 1,
        ESCAPE_CHAR => 92,
        END_LINE_CHAR => 13,
        _ => 0,
    }
}

/// The codes but for the categories, table after table.
#[tactic(auto, unfolding(crate::specs::StartTables::start_codes))]
pub fn start_codes(alloc: Global) -> Result<Vec<Entry<i32>>, AllocError>
    ensures { IfOk result (λ table. table.items ≡ start_codes) }
{
    (0..CODE_COUNT)
        .map(|place| code_entry(place))
        .collect(alloc)
}

fn code_entry(place: u16) -> Entry<i32>
    ensures { result ≡ code_at_start place }
{
    Entry {
        value: start_code((place / 256) as u8, (place % 256) as u8),
        level: 1,
    }
}

/// A code in a table behind that of the categories.
fn start_code(row: u8, byte: u8) -> i32
    ensures { result ≡ start_code (suc row) byte }
{
    match row {
        0 => i32::from(lccode(byte)),
        1 => i32::from(uccode(byte)),
        2 => i32::from(sfcode(byte)),
        3 => i32::from(mathcode(byte)),
        _ => delcode(byte),
    }
}

fn is_capital(byte: u8) -> bool
    ensures { result ≡ is_capital byte }
{
    byte >= b'A' && byte <= b'Z'
}

fn is_small(byte: u8) -> bool
    ensures { result ≡ is_small byte }
{
    byte >= b'a' && byte <= b'z'
}

fn lccode(byte: u8) -> u8
    ensures { result ≡ start_lccode byte }
{
    if is_capital(byte) {
        byte + 32
    } else if is_small(byte) {
        byte
    } else {
        0
    }
}

fn uccode(byte: u8) -> u8
    ensures { result ≡ start_uccode byte }
{
    if is_capital(byte) {
        byte
    } else if is_small(byte) {
        byte - 32
    } else {
        0
    }
}

fn sfcode(byte: u8) -> u16
    ensures { result ≡ start_sfcode byte }
{
    if is_capital(byte) { 999 } else { 1000 }
}

fn mathcode(byte: u8) -> u16
    ensures { result ≡ start_mathcode byte }
{
    let code = u16::from(byte);
    if is_capital(byte) || is_small(byte) {
        code + 28_928
    } else if byte >= b'0' && byte <= b'9' {
        code + 28_672
    } else {
        code
    }
}

fn delcode(byte: u8) -> i32
    ensures { result ≡ start_delcode byte }
{
    if byte == b'.' { 0 } else { -1 }
}

/// The meanings of the primitives, by their ids.
#[tactic(auto, unfolding(crate::specs::StartTables::start_names))]
pub fn start_names(alloc: Global, extended: bool) -> Result<Vec<Entry<Meaning>>, AllocError>
    ensures { IfOk result (λ table. table.items ≡ start_names extended) }
{
    (0..PRIMITIVE_COUNT)
        .map(|id| meaning_entry(id, extended))
        .collect(alloc)
}

fn meaning_entry(id: u16, extended: bool) -> Entry<Meaning>
    ensures { result ≡ meaning_at_start extended id }
{
    Entry {
        value: start_meaning(NameId(u64::from(id)), extended),
        level: 1,
    }
}

/// Boxes 0 to 255.
#[tactic(auto, unfolding(crate::specs::StartTables::start_boxes))]
pub fn start_boxes(alloc: Global) -> Result<Vec<Entry<Option<HeapBox>>>, AllocError>
    ensures { IfOk result (λ table. table.items ≡ start_boxes) }
{
    (0..BOX_COUNT)
        .map(|number| void_entry(number))
        .collect(alloc)
}

fn void_entry(_number: u16) -> Entry<Option<HeapBox>>
    ensures { result ≡ void_at_start _number }
{
    Entry {
        value: None,
        level: 1,
    }
}

/// The arrays of penalties.
#[tactic(auto, unfolding(crate::specs::StartTables::start_penalties))]
pub fn start_penalties(alloc: Global) -> Result<Vec<Entry<Items<i32>>>, AllocError>
    ensures { IfOk result (λ table. table.items ≡ start_penalties) }
{
    (0..ARRAY_COUNT)
        .map(|array| table_entry(alloc, array))
        .collect(alloc)
}

/// A table without numbers.
pub fn table_entry(alloc: Global, _array: u8) -> Entry<Items<i32>>
    ensures { result ≡ table_at_start _array }
{
    Entry {
        value: Items::new(alloc),
        level: 1,
    }
}

/// The levels of the categories.
#[tactic(auto, unfolding(crate::specs::StartTables::start_levels))]
pub fn start_levels() -> [u16; 256]
    ensures { result ≡ start_levels }
{
    [1; 256]
}
