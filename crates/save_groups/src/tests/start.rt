//! INITEX's values (The TeXbook, appendix B).

use super::content::Content::{Category, Glue, Meaning, Number, Tokens};
use super::content::{
    CATEGORY, Content, DELIMITER, GlueAt, LOWER_CASE, ListAt, MATH_CODE, MeaningAt, NumberAt,
    SPACE_FACTOR, Sample, UPPER_CASE,
};
use super::script::Step::{Holds, Kind, Level, Saves, Unnamed};
use super::script::play;
use super::{means, name, number};
use crate::parameters::{
    DAY, END_LINE_CHAR, ESCAPE_CHAR, EVERY_EOF, FIRST_DIMENSION, FIRST_EXTENDED, FIRST_GLUE, MAG,
    MONTH, TIME, TOLERANCE, YEAR,
};
use crate::{Env, Key};
use std::alloc::Global;
use std::process::Abort;
use std::test::Fail;
use tokens::{RegKind, codes};

/// A few codes of the start: the table, the byte and the code. Only one byte escapes, and none opens a group.
const CODES: &[(u8, u8, i32)] = &[
    (CATEGORY, b'\\', 0),
    (CATEGORY, 13, 5),
    (CATEGORY, b' ', 10),
    (CATEGORY, b'%', 14),
    (CATEGORY, b'a', 11),
    (CATEGORY, b'{', 12),
    (CATEGORY, b'~', 12),
    (CATEGORY, 0, 9),
    (CATEGORY, 127, 15),
    (LOWER_CASE, b'A', 97),
    (LOWER_CASE, b'z', 122),
    (LOWER_CASE, b'1', 0),
    (UPPER_CASE, b'a', 65),
    (UPPER_CASE, b'Z', 90),
    (UPPER_CASE, b'.', 0),
    (SPACE_FACTOR, b'A', 999),
    (SPACE_FACTOR, b'a', 1000),
    (SPACE_FACTOR, b'.', 1000),
    (MATH_CODE, b'A', 0x7141),
    (MATH_CODE, b'z', 0x717a),
    (MATH_CODE, b'0', 0x7030),
    (MATH_CODE, b'+', 43),
    (DELIMITER, b'.', 0),
    (DELIMITER, b'(', -1),
    (DELIMITER, b'A', -1),
];

fn code(env: &Env, table: u8, byte: u8) -> Option<i32> {
    if table < 6 {
        Some(number(env, Key::Code { table, byte }))
    } else {
        None
    }
}

fn starting_codes(rt: &impl Abort, env: &Env, rows: &[(u8, u8, i32)]) {
    for (table, byte, wanted) in rows {
        assert_eq!(rt; code(env, *table, *byte), Some(*wanted));
    }
}

/// A few parameters of the start.
const PARAMETERS: &[(u8, i32)] = &[
    (TOLERANCE, 10_000),
    (MAG, 1000),
    (TIME, 720),
    (DAY, 4),
    (MONTH, 7),
    (YEAR, 1776),
    (END_LINE_CHAR, 13),
    (ESCAPE_CHAR, 92),
    (0, 0),
    (FIRST_DIMENSION, 0),
];

fn parameter(env: &Env, place: u8) -> Option<i32> {
    if place < FIRST_GLUE {
        Some(number(env, Key::Parameter(place)))
    } else {
        None
    }
}

fn starting_parameters(rt: &impl Abort, env: &Env, rows: &[(u8, i32)]) {
    for (place, wanted) in rows {
        assert_eq!(rt; parameter(env, *place), Some(*wanted));
    }
}

fn starting_tables(rt: &impl Abort, alloc: Global, extended: bool) -> Result<(), Fail> {
    let env = Env::new(alloc, extended)?;
    starting_codes(rt, &env, CODES);
    starting_parameters(rt, &env, PARAMETERS);
    Ok(())
}

#[test]
fn both_modes_start_with_the_codes_and_parameters_of_initex(rt: HostRuntime) -> Result<(), Fail> {
    starting_tables(&rt, rt.alloc(), false)?;
    starting_tables(&rt, rt.alloc(), true)
}

/// Contents of entries that hold nothing at the start.
const NOTHING: &[Content] = &[
    Number(NumberAt::Count, 0),
    Number(NumberAt::Dimen, 0),
    Number(NumberAt::Dimension, 0),
    Number(NumberAt::Font, 0),
    Number(NumberAt::Family, 0),
    Category { active: false },
    Glue(GlueAt::Skip, None),
    Glue(GlueAt::Muskip, None),
    Glue(GlueAt::Parameter, None),
    Tokens(ListAt::Register, None),
    Tokens(ListAt::Parameter, None),
    Meaning(MeaningAt::Name, Sample::Undefined),
    Meaning(MeaningAt::Active, Sample::Undefined),
];

#[test]
fn both_modes_start_outside_all_groups_with_nothing(rt: HostRuntime) -> Result<(), Fail> {
    for content in NOTHING {
        let script = [Level(1), Kind(0), Saves(0), Unnamed(9), Holds(*content)];
        play(&rt, rt.alloc(), false, &script)?;
        play(&rt, rt.alloc(), true, &script)?;
    }
    Ok(())
}

/// The names of both modes, and one that only extended mode has.
fn starting_names(
    rt: &impl Abort,
    alloc: Global,
    extended: bool,
    numexpr: &tokens::Meaning,
) -> Result<(), Fail> {
    let env = Env::new(alloc, extended)?;
    assert!(rt;
        means(
            &env,
            name(u64::from(codes::RELAX)),
            &tokens::Meaning::Primitive(codes::RELAX)
        )
    );
    assert!(rt;
        means(
            &env,
            name(u64::from(codes::NULLFONT)),
            &tokens::Meaning::Font(0)
        )
    );
    assert!(rt; means(&env, name(u64::from(codes::NUMEXPR)), numexpr));
    Ok(())
}

#[test]
fn names_start_with_the_primitives_of_their_mode(rt: HostRuntime) -> Result<(), Fail> {
    starting_names(&rt, rt.alloc(), false, &tokens::Meaning::Undefined)?;
    starting_names(
        &rt,
        rt.alloc(),
        true,
        &tokens::Meaning::Primitive(codes::NUMEXPR),
    )
}

#[test]
fn extended_mode_has_registers_to_32767(rt: HostRuntime) -> Result<(), Fail> {
    let env = Env::new(rt.alloc(), true)?;
    let (kind, number) = (RegKind::Count, 32_767);
    assert_eq!(rt; env.number(Key::Register { kind, number }), 0);
    let kind = RegKind::Muskip;
    assert_eq!(rt; env.glue(Key::Register { kind, number }).width, 0);
    Ok(())
}

#[test]
fn extended_mode_has_parameters_of_its_own(rt: HostRuntime) -> Result<(), Fail> {
    let env = Env::new(rt.alloc(), true)?;
    assert_eq!(rt; env.number(Key::Parameter(FIRST_EXTENDED)), 0);
    assert_eq!(rt;
        env.toks(Key::Parameter(EVERY_EOF)).as_slice(),
        [].as_slice()
    );
    Ok(())
}
