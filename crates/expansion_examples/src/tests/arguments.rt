//! The arguments of macros (The TeXbook, chapter 20, pages 203 to 206).
use super::leaves;
use super::macros::Definition;
use std::test::Fail;

const MACROS: &[Definition] = &[
    (b"e", b"", b"x"),
    (b"a", b"#1", b"(#1)"),
    (b"b", b"#1.", b"(#1)"),
    (b"c", b"[#1]#2;", b"(#1|#2)"),
    (b"d", b"#1{", b"(#1){"),
    (b"n", b"#1#2#3#4#5#6#7#8#9", b"#9#8#7#6#5#4#3#2#1"),
    (b"t", b"#1ab", b"(#1)"),
    (b"o", b"", b"o"),
];

/// A line, and what expansion leaves of it.
const ROWS: &[(&[u8], &[u8])] = &[
    (b"\\e\\e y", b"xxy"),
    // the next token, behind spaces, or the next group without its braces
    (b"\\a yz", b"(y)z"),
    (b"\\a  {yz}z", b"(yz)z"),
    (b"\\a{{y}}z", b"({y})z"),
    (b"\\a{}z", b"()z"),
    // up to a delimiter: one whole group loses its braces, and nothing else does
    (b"\\b yz.z", b"(yz)z"),
    (b"\\b.z", b"()z"),
    (b"\\b{yz}.z", b"(yz)z"),
    (b"\\b{y}z.z", b"({y}z)z"),
    (b"\\b{y}{z}.z", b"({y}{z})z"),
    (b"\\b{y.}.z", b"(y.)z"),
    (b"\\b{{y}}.z", b"({y})z"),
    // delimiters in front of, between and behind the arguments
    (b"\\c[y]{z};z", b"(y|z)z"),
    (b"\\c[{y]z}]z;z", b"(y]z|z)z"),
    (b"\\c[];z", b"(|)z"),
    // a delimiter that begins and breaks off
    (b"\\t aab", b"(a)"),
    (b"\\t aacabb", b"(aac)b"),
    // up to a left brace, which stays
    (b"\\d yz{z}", b"(yz){z}"),
    (b"\\d{z}", b"(){z}"),
    // nine arguments
    (b"\\n 123456789.", b"987654321."),
    (b"\\n {12}3456789{ab}.", b"ab987654312."),
    // a macro's text is expanded further
    (b"\\a\\e z", b"(x)z"),
];

/// The same of tokens that are no use of the macro.
const NO_USES: &[(&[u8], &[u8])] = &[
    (b"\\c y]z;", b"! Use of \\c doesn't match its definition"),
    (b"\\a}z", b"! Argument of \\a has an extra }"),
    (b"\\b y}z.", b"! Argument of \\b has an extra }"),
    (
        b"y\\b z\\par.",
        b"y! Paragraph ended before \\b was complete",
    ),
    (b"\\b y\\o.", b"! Forbidden control sequence found: \\o"),
    (b"\\a\\o", b"! Forbidden control sequence found: \\o"),
    (b"y\\o", b"yo"),
    (b"\\b yz", b"! No \\end found"),
];

#[test]
fn arguments_are_collected_as_their_delimiters_say(rt: HostRuntime) -> Result<(), Fail> {
    for (line, left) in ROWS {
        let (text, passed) = leaves(rt.alloc(), MACROS, &[], line)?;
        assert_eq!(rt; text.as_slice(), *left);
        assert_eq!(rt; passed, 0);
    }
    Ok(())
}

#[test]
fn uses_that_do_not_match_end_the_run(rt: HostRuntime) -> Result<(), Fail> {
    for (line, left) in NO_USES {
        let (text, passed) = leaves(rt.alloc(), MACROS, &[], line)?;
        assert_eq!(rt; text.as_slice(), *left);
        assert_eq!(rt; passed, 0);
    }
    Ok(())
}
