//! Each kind of entry in a group: its value ends with the group.

use super::content::Content::{Category, Glue, Meaning, Number, Tokens};
use super::content::{Content, GlueAt, ListAt, MeaningAt, NumberAt, Sample};
use super::script::Step::{Begin, End, Holds, Local, Saves};
use super::script::play;
use scaled::Order;
use std::test::Fail;

/// Contents that aren't those of the start, and those of the start.
const ENTRIES: &[(Content, Content)] = &[
    (Number(NumberAt::Count, -1), Number(NumberAt::Count, 0)),
    (Number(NumberAt::Dimen, 65_536), Number(NumberAt::Dimen, 0)),
    (
        Number(NumberAt::Integer, 200),
        Number(NumberAt::Integer, 10_000),
    ),
    (
        Number(NumberAt::Dimension, -7),
        Number(NumberAt::Dimension, 0),
    ),
    (
        Number(NumberAt::LowerCase, 1),
        Number(NumberAt::LowerCase, 97),
    ),
    (
        Number(NumberAt::UpperCase, 2),
        Number(NumberAt::UpperCase, 65),
    ),
    (
        Number(NumberAt::SpaceFactor, 3),
        Number(NumberAt::SpaceFactor, 999),
    ),
    (
        Number(NumberAt::MathCode, 4),
        Number(NumberAt::MathCode, 0x7141),
    ),
    (
        Number(NumberAt::Delimiter, 5),
        Number(NumberAt::Delimiter, -1),
    ),
    (Number(NumberAt::Font, 3), Number(NumberAt::Font, 0)),
    (Number(NumberAt::Family, 4), Number(NumberAt::Family, 0)),
    (Category { active: true }, Category { active: false }),
    (
        Glue(GlueAt::Skip, Some(Order::Filll)),
        Glue(GlueAt::Skip, None),
    ),
    (
        Glue(GlueAt::Muskip, Some(Order::Fil)),
        Glue(GlueAt::Muskip, None),
    ),
    (
        Glue(GlueAt::Parameter, Some(Order::Normal)),
        Glue(GlueAt::Parameter, None),
    ),
    (
        Tokens(ListAt::Register, Some(3)),
        Tokens(ListAt::Register, None),
    ),
    (
        Tokens(ListAt::Parameter, Some(9)),
        Tokens(ListAt::Parameter, None),
    ),
    (
        Meaning(MeaningAt::Name, Sample::Letter),
        Meaning(MeaningAt::Name, Sample::Undefined),
    ),
    (
        Meaning(MeaningAt::Active, Sample::Macro { long: true }),
        Meaning(MeaningAt::Active, Sample::Undefined),
    ),
];

#[test]
fn each_value_ends_with_its_group(rt: HostRuntime) -> Result<(), Fail> {
    for (inside, outside) in ENTRIES {
        let script = [
            Holds(*outside),
            Begin,
            Local(*inside),
            Holds(*inside),
            Saves(1),
            End,
            Holds(*outside),
            Saves(0),
        ];
        play(&rt, rt.alloc(), true, &script)?;
    }
    Ok(())
}
