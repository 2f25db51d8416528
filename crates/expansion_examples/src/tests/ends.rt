//! Where a run ends, and names that are left out or have no meaning (The TeXbook, chapter 24).
use super::executing::shows_in;
use super::macros::Definition;
use std::test::Fail;

const MACROS: &[Definition] = &[(b"a", b"", b"\\message{A}")];

/// A line, what its commands show, and how many troubles they pass over.
type Row = (&'static [u8], &'static [u8], u64);

/// In both modes alike.
const BOTH: &[Row] = &[
    (b"\\a\\end\\a", b"A", 0),
    (b"{\\a\\end", b"A", 0),
    (b"\\a", b"A", 0),
    (b"\\relax\\par \\a", b"A", 0),
    (b"\\a\\endcsname", b"A! You can't use \\endcsname here", 0),
    (b"\\a\\halign", b"A! Left out: \\halign", 0),
    (b"\\leqno", b"! Left out: \\leqno", 0),
    (b"\\showbox", b"! Left out: \\showbox", 0),
    // a name is left out as it is called
    (b"\\hal", b"! Left out: \\hal", 0),
    (b"\\a b", b"A! Left out: character", 0),
    (b"\\a#", b"A! Left out: character", 0),
    (b"\\cd", b"! Left out: character", 0),
    (b"\\md", b"! Left out: character", 0),
    // names without a meaning, and those that aren't built
    (b"\\none\\a", b"! Undefined control sequence: \\none.\nA", 1),
    (b"\\a~\\a", b"A\n! Undefined control sequence: ~.\nA", 1),
    (b"\\hbox\\a", b"! Undefined control sequence: \\hbox.\nA", 1),
    (
        b"\\noboundary\\a",
        b"! Undefined control sequence: \\noboundary.\nA",
        1,
    ),
];

/// Names of the extended table.
const EXTENDED: &[Row] = &[
    (b"\\middle", b"! Left out: \\middle", 0),
    (b"\\showifs", b"! Left out: \\showifs", 0),
    (b"\\beginL\\a", b"! Left out: \\beginL", 0),
];

/// The same names in compatibility mode.
const COMPATIBLE: &[Row] = &[
    (
        b"\\middle\\a",
        b"! Undefined control sequence: \\middle.\nA",
        1,
    ),
    (
        b"\\showifs\\a",
        b"! Undefined control sequence: \\showifs.\nA",
        1,
    ),
];

#[test]
fn commands_end_in_both_modes(rt: HostRuntime) -> Result<(), Fail> {
    for extended in [false, true] {
        for (line, expected, troubles) in BOTH {
            let (text, passed) = shows_in(rt.alloc(), extended, MACROS, line)?;
            assert_eq!(rt; text.as_slice(), *expected);
            assert_eq!(rt; passed, *troubles);
        }
    }
    Ok(())
}

#[test]
fn extended_names_are_left_out_in_extended_mode(rt: HostRuntime) -> Result<(), Fail> {
    for (line, expected, troubles) in EXTENDED {
        let (text, passed) = shows_in(rt.alloc(), true, MACROS, line)?;
        assert_eq!(rt; text.as_slice(), *expected);
        assert_eq!(rt; passed, *troubles);
    }
    Ok(())
}

#[test]
fn extended_names_have_no_meaning_in_compatibility_mode(rt: HostRuntime) -> Result<(), Fail> {
    for (line, expected, troubles) in COMPATIBLE {
        let (text, passed) = shows_in(rt.alloc(), false, MACROS, line)?;
        assert_eq!(rt; text.as_slice(), *expected);
        assert_eq!(rt; passed, *troubles);
    }
    Ok(())
}
