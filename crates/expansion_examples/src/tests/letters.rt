//! Letters in another case, and spaces that are passed (The TeXbook, pages 41, 279 and 290).
use super::executing::{commands_in, shows};
use super::macros::Definition;
use std::test::Fail;

const MACROS: &[Definition] = &[
    (b"a", b"", b"\\message{A}"),
    (b"i", b"#1", b"#1"),
    (b"m", b"", b"xy"),
    (b"s", b"", b"\\i{ }"),
];

/// A line, and what its commands show. The code of `q` is 300 and that of `~` is 42 in the table of `\uppercase`.
const CASES: &[(&[u8], &[u8])] = &[
    (b"\\uppercase{\\message{abc}}", b"ABC"),
    (b"\\lowercase{\\message{ABC}}", b"abc"),
    (b"\\lowercase{\\message{abc}}", b"abc"),
    // a code of 0 leaves a character as it is, and so does one that is no character's
    (b"\\uppercase{\\message{a1.+}}", b"A1.+"),
    (b"\\uppercase{\\message{pqr}}", b"PqR"),
    // names stay, and what they stand for too
    (b"\\uppercase{\\message{a\\m}}", b"Axy"),
    (b"\\uppercase{\\message{\\string\\m b}}", b"\\mB"),
    // an active character stays active
    (b"\\uppercase{\\message{\\string~}}", b"*"),
    (b"\\uppercase{\\show~}", b"> *=undefined.\n"),
    (b"\\lowercase{\\show~}", b"> ~=undefined.\n"),
    // the categories stay, and the tokens of the text are not expanded first
    (b"\\uppercase{\\show a}", b"> A=the letter A.\n"),
    (b"\\uppercase{\\uppercase{\\message{a}}}", b"A"),
    (b"\\uppercase\\bgroup\\message{a}}", b"A"),
    (b"\\uppercase{}\\a", b"A"),
    // texts that can't be read
    (b"\\a\\uppercase b", b"A! Missing {"),
    (b"\\a\\lowercase{b", b"A! No \\end found"),
    (b"\\a\\lowercase", b"A! No \\end found"),
];

#[test]
fn letters_get_the_other_case(rt: HostRuntime) -> Result<(), Fail> {
    for (line, expected) in CASES {
        let (text, passed) = shows(rt.alloc(), MACROS, line)?;
        assert_eq!(rt; text.as_slice(), *expected);
        assert_eq!(rt; passed, 0);
    }
    Ok(())
}

/// A line, and how many commands are carried out.
const SPACES: &[(&[u8], u32)] = &[
    (b"", 0),
    (b" \\s\\s", 2),
    (b"\\relax\\par", 2),
    // spaces that stand there and those that expansion leaves are passed, up to another token
    (b"\\ignorespaces \\s\\s", 1),
    (b"\\ignorespaces\\s\\s\\relax\\s\\relax", 4),
    (b"\\ignorespaces\\s\\ignorespaces\\s", 2),
    (b"\\ignorespaces\\relax", 2),
    // a token that isn't to be expanded is one such, and does nothing
    (b"\\noexpand\\a\\relax", 2),
    (b"\\ignorespaces\\s\\noexpand\\a\\s", 3),
    (b"\\noexpand~\\noexpand\\relax", 2),
];

#[test]
fn spaces_are_passed(rt: HostRuntime) -> Result<(), Fail> {
    for (line, count) in SPACES {
        assert_eq!(rt; commands_in(rt.alloc(), MACROS, line)?, *count);
    }
    Ok(())
}

/// A line, and what its commands show.
const MARKED: &[(&[u8], &[u8])] = &[
    (b"\\noexpand\\a\\message{b}", b"b"),
    (b"\\ignorespaces\\noexpand\\a\\message{b}", b"b"),
    (b"\\ignorespaces\\s\\a\\message{b}", b"A b"),
    (b"\\noexpand\\message{b}", b"b"),
];

#[test]
fn tokens_that_are_not_to_be_expanded_do_nothing(rt: HostRuntime) -> Result<(), Fail> {
    for (line, expected) in MARKED {
        let (text, passed) = shows(rt.alloc(), MACROS, line)?;
        assert_eq!(rt; text.as_slice(), *expected);
        assert_eq!(rt; passed, 0);
    }
    Ok(())
}
