//! Conditions and their branches (The TeXbook, chapter 20, pages 207 to 211).
use super::leaves;
use super::macros::Definition;
use std::test::Fail;

/// A macro that calls itself behind a lone `\fi`, and an outer one.
const MACROS: &[Definition] = &[(b"l", b"", b"\\fi\\l"), (b"o", b"", b"z")];

/// A line, what expansion leaves of it, and how many troubles it passes over.
const ROWS: &[(&[u8], &[u8], u64)] = &[
    (b"\\ifnum1<2 a\\else b\\fi c", b"ac", 0),
    (b"\\ifnum2<1 a\\else b\\fi c", b"bc", 0),
    (b"\\ifnum 2 > 1 a\\fi c", b"ac", 0),
    (b"\\ifnum-1=-1 a\\fi c", b"ac", 0),
    (b"\\ifnum2<1 a\\fi c", b"c", 0),
    (b"\\ifnum\\count7=0 a\\fi c", b"ac", 0),
    // conditions in branches that are read and passed over
    (
        b"\\ifnum1=1 \\ifnum2>3 p\\else q\\fi\\else r\\fi s",
        b"qs",
        0,
    ),
    (
        b"\\ifnum1=2 \\ifnum2>3 p\\else q\\fi\\else r\\fi s",
        b"rs",
        0,
    ),
    // a number that isn't finished where the branch ends: `\relax` stands in front of the word
    (b"\\ifnum1<2\\else a\\fi b", b"\\relax b", 0),
    (b"\\ifnum2<1\\fi b", b"b", 0),
    // words without their condition
    (b"\\fi a", b"a", 1),
    (b"\\else a\\or b", b"ab", 2),
    (b"\\ifnum1=1 a\\or b\\fi", b"ab", 1),
    (b"\\ifnum1=1 a\\else b\\else c\\fi d", b"ad", 0),
    (b"\\ifnum1=2 a\\else b\\else c\\fi d", b"bcd", 1),
    (b"\\ifnum1a", b"! Missing relation", 0),
    (b"\\ifnum1=2 a", b"! No \\end found", 0),
    (
        b"\\ifnum1=2 \\o\\fi a",
        b"! Forbidden control sequence found: \\o",
        0,
    ),
    (
        b"\\ifnum1=1 \\o\\else \\o\\fi a",
        b"z! Forbidden control sequence found: \\o",
        0,
    ),
    // the hundredth trouble ends the run
    (b"\\l", b"! Extra \\fi", 99),
];

#[test]
fn one_branch_is_read_and_the_others_passed_over(rt: HostRuntime) -> Result<(), Fail> {
    for (line, left, troubles) in ROWS {
        let (text, passed) = leaves(rt.alloc(), MACROS, &[], line)?;
        assert_eq!(rt; text.as_slice(), *left);
        assert_eq!(rt; passed, *troubles);
    }
    Ok(())
}
