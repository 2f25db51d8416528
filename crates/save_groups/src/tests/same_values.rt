//! Assignments of the very value that stands there (the e-TeX manual, on assignments that change nothing).

use super::content::Content::{Glue, Meaning, Number, Tokens};
use super::content::{Content, GlueAt, ListAt, MeaningAt, NumberAt, Sample};
use super::script::Step::{Begin, End, Holds, Level, Local, Saved, Saves};
use super::script::play;
use scaled::Order;
use std::alloc::Global;
use std::process::Abort;
use std::test::Fail;

/// Contents, with others that differ in one part: of the glues the order of a stretch of nothing, of the macros a flag.
const PAIRS: &[(Content, Content)] = &[
    (Number(NumberAt::Count, 5), Number(NumberAt::Count, 6)),
    (
        Glue(GlueAt::Skip, Some(Order::Fil)),
        Glue(GlueAt::Skip, Some(Order::Fill)),
    ),
    (
        Tokens(ListAt::Register, Some(1)),
        Tokens(ListAt::Register, Some(2)),
    ),
    (
        Meaning(MeaningAt::Name, Sample::Macro { long: true }),
        Meaning(MeaningAt::Name, Sample::Macro { long: false }),
    ),
];

/// Assigns the same content in a group, which makes so many saves, and then another one.
fn assign_again(rt: &impl Abort, alloc: Global, extended: bool, saves: u64) -> Result<(), Fail> {
    for (same, other) in PAIRS {
        let script = [
            Local(*same),
            Begin,
            Local(*same),
            Saves(saves),
            Level(2),
            Local(*other),
            Saves(1),
            Holds(*other),
            End,
            Holds(*same),
        ];
        play(rt, alloc, extended, &script)?;
    }
    Ok(())
}

#[test]
fn the_same_value_changes_nothing_in_extended_mode(rt: HostRuntime) -> Result<(), Fail> {
    assign_again(&rt, rt.alloc(), true, 0)
}

#[test]
fn the_same_value_is_saved_in_compatibility_mode(rt: HostRuntime) -> Result<(), Fail> {
    assign_again(&rt, rt.alloc(), false, 1)
}

#[test]
fn a_save_has_the_value_that_stood_there(rt: HostRuntime) -> Result<(), Fail> {
    let script = [
        Local(Number(NumberAt::Count, 5)),
        Begin,
        Local(Number(NumberAt::Count, 5)),
        Saved {
            before: 0,
            place: NumberAt::Count,
            group: 2,
            level: 1,
            number: 5,
        },
    ];
    play(&rt, rt.alloc(), false, &script)
}
