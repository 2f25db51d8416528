//! Local and global assignments, and their saves.

use super::content::Content::{Meaning, Number};
use super::content::NumberAt::{Count, Dimen, Font};
use super::content::{MeaningAt, Sample};
use super::script::Step::{Begin, End, Global, Holds, Local, Name, Saved, Saves, Unnamed};
use super::script::{Step, play};
use std::test::Fail;

#[test]
fn the_last_global_value_comes_out(rt: HostRuntime) -> Result<(), Fail> {
    let script = [
        Local(Number(Count, 1)),
        Begin,
        Holds(Number(Count, 1)),
        Local(Number(Count, 2)),
        Holds(Number(Count, 2)),
        Global(Number(Count, 3)),
        Holds(Number(Count, 3)),
        Begin,
        Local(Number(Count, 4)),
        Holds(Number(Count, 4)),
        End,
        Holds(Number(Count, 3)),
        End,
        Holds(Number(Count, 3)),
    ];
    play(&rt, rt.alloc(), true, &script)
}

#[test]
fn a_local_value_behind_a_global_one_ends_with_its_group(rt: HostRuntime) -> Result<(), Fail> {
    let script = [
        Local(Number(Count, 1)),
        Begin,
        Local(Number(Count, 2)),
        Global(Number(Count, 3)),
        Local(Number(Count, 4)),
        Holds(Number(Count, 4)),
        End,
        Holds(Number(Count, 3)),
    ];
    play(&rt, rt.alloc(), true, &script)
}

#[test]
fn the_same_global_value_stays(rt: HostRuntime) -> Result<(), Fail> {
    let script = [
        Local(Number(Count, 1)),
        Begin,
        Local(Number(Count, 2)),
        Global(Number(Count, 2)),
        End,
        Holds(Number(Count, 2)),
    ];
    play(&rt, rt.alloc(), true, &script)
}

#[test]
fn local_global_local_makes_two_saves(rt: HostRuntime) -> Result<(), Fail> {
    let first = Saved {
        before: 0,
        place: Count,
        group: 2,
        level: 1,
        number: 1,
    };
    let second = Saved {
        before: 1,
        place: Count,
        group: 2,
        level: 1,
        number: 3,
    };
    let script = [
        Local(Number(Count, 1)),
        Begin,
        Local(Number(Count, 2)),
        Global(Number(Count, 3)),
        Saves(1),
        first,
        Local(Number(Count, 4)),
        Saves(2),
        first,
        second,
        End,
        Holds(Number(Count, 3)),
        Saves(0),
    ];
    play(&rt, rt.alloc(), true, &script)
}

/// Three numbers in two groups: one is assigned once more in its group, which makes no save.
const TWO_GROUPS: &[Step] = &[
    Local(Number(Count, 1)),
    Local(Number(Dimen, 10)),
    Begin,
    Local(Number(Count, 2)),
    Local(Number(Dimen, 20)),
    Local(Number(Count, 3)),
    Begin,
    Local(Number(Dimen, 30)),
    Local(Number(Font, 1)),
    Local(Number(Count, 4)),
    Saves(5),
    Saved {
        before: 0,
        place: Count,
        group: 2,
        level: 1,
        number: 1,
    },
    Saved {
        before: 1,
        place: Dimen,
        group: 2,
        level: 1,
        number: 10,
    },
    Saved {
        before: 2,
        place: Dimen,
        group: 3,
        level: 2,
        number: 20,
    },
    Saved {
        before: 3,
        place: Font,
        group: 3,
        level: 1,
        number: 0,
    },
    Saved {
        before: 4,
        place: Count,
        group: 3,
        level: 2,
        number: 3,
    },
    End,
    Saves(2),
    Saved {
        before: 1,
        place: Dimen,
        group: 2,
        level: 1,
        number: 10,
    },
];

#[test]
fn saves_are_listed_the_oldest_first(rt: HostRuntime) -> Result<(), Fail> {
    play(&rt, rt.alloc(), true, TWO_GROUPS)
}

#[test]
fn a_thousand_saves_of_each_group_are_undone(rt: HostRuntime) -> Result<(), Fail> {
    let script = [
        Begin,
        Name(1000),
        Saves(1000),
        Begin,
        Name(1000),
        Saves(2000),
        End,
        Saves(1000),
        Holds(Meaning(MeaningAt::Name, Sample::Letter)),
        End,
        Saves(0),
        Unnamed(1000),
    ];
    play(&rt, rt.alloc(), false, &script)
}
