//! Messages (The TeXbook, page 279; `tex.web` 1279 to 1283).
use super::executing::shows;
use super::macros::Definition;
use std::test::Fail;

/// The macro `t` has ten letters, and `p` is protected.
const MACROS: &[Definition] = &[
    (b"m", b"", b"xy"),
    (b"p", b"", b"xy"),
    (b"t", b"", b"abcdefghij"),
];

/// A line, and what its commands show. The byte `|` ends a line.
const MESSAGES: &[(&[u8], &[u8])] = &[
    (b"\\message{a}", b"a"),
    (b"\\message{}", b""),
    (b"\\message{a}\\message{b}", b"a b"),
    (b"\\message{a}\\message{}\\message{b}", b"a  b"),
    // the text is expanded, but for a protected macro
    (b"\\message{a\\m\\number12\\the\\count9 }", b"axy121234"),
    (b"\\message{a\\p\\noexpand\\m b}", b"a\\p \\m b"),
    (b"\\message{\\relax a{b}#}", b"\\relax a{b}##"),
    (b"\\message\\bgroup a}", b"a"),
    // lines end where the document says, and no space stands in front of a text then
    (b"\\message{a|b}\\message{c}", b"a\nb c"),
    (b"\\message{a|}\\message{c}", b"a\nc"),
    (b"\\message{|}", b"\n"),
    // a text that doesn't fit behind the line begins one of its own
    (
        b"\\message{\\t\\t\\t\\t\\t\\t\\t}\\message{abcdefg}",
        b"abcdefghijabcdefghijabcdefghijabcdefghijabcdefghijabcdefghijabcdefghij abcdefg",
    ),
    (
        b"\\message{\\t\\t\\t\\t\\t\\t\\t}\\message{abcdefgh}",
        b"abcdefghijabcdefghijabcdefghijabcdefghijabcdefghijabcdefghijabcdefghij\nabcdefgh",
    ),
    // and is broken behind 79 bytes
    (
        b"\\message{\\t\\t\\t\\t\\t\\t\\t\\t}",
        b"\nabcdefghijabcdefghijabcdefghijabcdefghijabcdefghijabcdefghijabcdefghijabcdefghi\nj",
    ),
];

/// The same of the document's own troubles, and of texts that can't be read.
const TROUBLES: &[(&[u8], &[u8])] = &[
    (b"\\errmessage{a}\\message{b}", b"! a"),
    (b"\\message{a}\\errmessage{b\\m\\p}", b"a! bxy\\p "),
    (b"\\errmessage{}", b"! "),
    (b"\\message a", b"! Missing {"),
    (b"\\errmessage a", b"! Missing {"),
    (b"\\message{a", b"! No \\end found"),
    (b"\\errmessage{a", b"! No \\end found"),
];

#[test]
fn messages_are_shown(rt: HostRuntime) -> Result<(), Fail> {
    for (line, expected) in MESSAGES {
        let (text, passed) = shows(rt.alloc(), MACROS, line)?;
        assert_eq!(rt; text.as_slice(), *expected);
        assert_eq!(rt; passed, 0);
    }
    Ok(())
}

#[test]
fn messages_of_errors_end_the_run(rt: HostRuntime) -> Result<(), Fail> {
    for (line, expected) in TROUBLES {
        let (text, passed) = shows(rt.alloc(), MACROS, line)?;
        assert_eq!(rt; text.as_slice(), *expected);
        assert_eq!(rt; passed, 0);
    }
    Ok(())
}
