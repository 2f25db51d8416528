//! Names that are built, tokens that are passed over by `\expandafter`, and names without a meaning (The TeXbook,
//! chapter 20, pages 213 to 215).
use super::leaves;
use super::macros::Definition;
use std::test::Fail;

const MACROS: &[Definition] = &[
    (b"a", b"#1", b"(#1)"),
    (b"e", b"", b"xw"),
    (b"f", b"", b"\\e y"),
    (b"g", b"", b"12"),
];

/// A line, what expansion leaves of it, and how many troubles it passes over.
const ROWS: &[(&[u8], &[u8], u64)] = &[
    (b"\\csname new\\endcsname z", b"\\new z", 0),
    (b"\\csname a\\endcsname z", b"(z)", 0),
    (b"\\csname\\e\\e\\endcsname z", b"\\xwxw z", 0),
    (b"\\csname\\number1\\endcsname z", b"\\1z", 0),
    (
        b"\\csname e\\csname e\\endcsname\\endcsname z",
        b"\\exw z",
        0,
    ),
    (b"\\csname new\\relax z", b"! Missing \\endcsname", 0),
    // a token is passed over, and the one behind it expanded once
    (b"\\expandafter\\a\\e z", b"(x)wz", 0),
    (b"\\expandafter\\a\\f z", b"(xw)yz", 0),
    (
        b"\\expandafter\\expandafter\\expandafter\\a\\f z",
        b"(x)wyz",
        0,
    ),
    (b"\\expandafter\\a b", b"(b)", 0),
    (b"\\number\\expandafter3\\g.", b"312.", 0),
    // names without meaning are passed over
    (b"\\none a\\none b", b"ab", 2),
    (b"~a", b"a", 1),
];

#[test]
fn names_are_built_and_tokens_passed_over(rt: HostRuntime) -> Result<(), Fail> {
    for (line, left, troubles) in ROWS {
        let (text, passed) = leaves(rt.alloc(), MACROS, &[], line)?;
        assert_eq!(rt; text.as_slice(), *left);
        assert_eq!(rt; passed, *troubles);
    }
    Ok(())
}
