//! Groups, and tokens that wait for their end (The TeXbook, chapters 5 and 24, pages 269 and 279).
use super::executing::shows;
use super::macros::Definition;
use std::alloc::{AllocError, Global};
use std::test::Fail;

const MACROS: &[Definition] = &[
    (b"a", b"", b"\\message{A}"),
    (b"b", b"", b"\\message{B}"),
    (b"x", b"", b"\\csname y\\endcsname\\show\\y"),
];

/// A line, what its commands show, and how many troubles they pass over.
type Row = (&'static [u8], &'static [u8], u64);

/// A name that is made in a group has no meaning behind it.
const GROUPS: &[Row] = &[
    (b"{\\a}\\b", b"A B", 0),
    (b"{\\x}\\show\\y", b"> \\y=\\relax.\n> \\y=undefined.\n", 0),
    (
        b"\\begingroup\\x\\endgroup\\show\\y",
        b"> \\y=\\relax.\n> \\y=undefined.\n",
        0,
    ),
    (
        b"\\bgroup\\x}\\show\\y",
        b"> \\y=\\relax.\n> \\y=undefined.\n",
        0,
    ),
    (
        b"{\\begingroup\\x\\endgroup\\show\\y\\a}\\b",
        b"> \\y=\\relax.\n> \\y=undefined.\nA B",
        0,
    ),
    (b"{{}{\\a}}", b"A", 0),
    // a group that stays open
    (b"{\\a", b"A", 0),
];

/// A group is ended as it began.
const MISMATCHES: &[Row] = &[
    (b"\\a{\\endgroup", b"A! Group ended by the wrong command", 0),
    (
        b"\\a\\begingroup}",
        b"A! Group ended by the wrong command",
        0,
    ),
    (
        b"{\\begingroup}\\endgroup",
        b"! Group ended by the wrong command",
        0,
    ),
    (
        b"{}\\a\\endgroup",
        b"A! Group ended by the wrong command",
        0,
    ),
    // a right brace too many is passed over
    (b"}\\a", b"! Too many }'s.\nA", 1),
    (b"\\a{}}\\b", b"A\n! Too many }'s.\nB", 1),
];

/// Tokens behind `\aftergroup` come in their order, once the values from outside are in force.
const WAITING: &[Row] = &[
    (
        b"{\\aftergroup\\a\\aftergroup\\b\\message{c}}\\message{d}",
        b"c A B d",
        0,
    ),
    (
        b"{\\csname y\\endcsname\\aftergroup\\show\\aftergroup\\y}",
        b"> \\y=undefined.\n",
        0,
    ),
    (
        b"{{\\aftergroup\\a\\aftergroup\\aftergroup\\aftergroup\\b}\\message{c}}\\message{d}",
        b"A c B d",
        0,
    ),
    // the token itself isn't expanded, and outside all groups it is only taken
    (b"\\aftergroup\\a\\b", b"B", 0),
    (b"{\\aftergroup}\\a}", b"A\n! Too many }'s.\n", 1),
    (b"\\a\\aftergroup", b"A! No \\end found", 0),
];

fn compare(alloc: Global, row: &Row) -> Result<(bool, bool), Fail> {
    let (line, expected, troubles) = *row;
    let (text, passed) = shows(alloc, MACROS, line)?;
    Ok((text.as_slice() == expected, passed == troubles))
}

#[test]
fn values_of_a_group_end_with_it(rt: HostRuntime) -> Result<(), Fail> {
    for row in GROUPS {
        assert_eq!(rt; compare(rt.alloc(), row)?, (true, true));
    }
    Ok(())
}

#[test]
fn groups_end_as_they_began(rt: HostRuntime) -> Result<(), Fail> {
    for row in MISMATCHES {
        assert_eq!(rt; compare(rt.alloc(), row)?, (true, true));
    }
    Ok(())
}

#[test]
fn tokens_wait_for_the_end_of_a_group(rt: HostRuntime) -> Result<(), Fail> {
    for row in WAITING {
        assert_eq!(rt; compare(rt.alloc(), row)?, (true, true));
    }
    Ok(())
}

/// So many bytes, and then a text.
fn repeated(alloc: Global, byte: u8, times: u32, behind: &[u8]) -> Result<Vec<u8>, AllocError> {
    let mut line = Vec::new(alloc);
    for _ in 0..times {
        line.push(byte)?;
    }
    line.extend_from_slice(behind)?;
    Ok(line)
}

/// A brace, how many of it stand in a row, how the line goes on, and what the last line says that is shown.
const MANY: &[(u8, u32, &[u8], &[u8])] = &[
    (b'{', 255, b"\\a", b"A"),
    (b'{', 255, b"}{\\a", b"A"),
    (b'{', 256, b"\\a", b"! grouping levels=255"),
    (b'}', 99, b"\\a", b"! Too many }'s.\nA"),
    (b'}', 100, b"\\a", b"! Too many }'s.\n! Too many }'s"),
];

fn ends_so(alloc: Global, row: &(u8, u32, &'static [u8], &'static [u8])) -> Result<bool, Fail> {
    let (byte, times, behind, end) = *row;
    let line = repeated(alloc, byte, times, behind)?;
    let (text, _) = shows(alloc, MACROS, &line)?;
    Ok(text.ends_with(end))
}

#[test]
fn there_is_a_limit_of_groups_and_one_of_troubles(rt: HostRuntime) -> Result<(), Fail> {
    for row in MANY {
        assert!(rt; ends_so(rt.alloc(), row)?);
    }
    Ok(())
}
