//! What conditions ask (The TeXbook, chapter 20, pages 209 and 210).
use super::leaves;
use super::macros::Definition;
use std::test::Fail;

const MACROS: &[Definition] = &[
    (b"e", b"", b"aa"),
    (b"m", b"", b"xy"),
    (b"q", b"", b"xy"),
    (b"r", b"", b"xz"),
    (b"s", b"#1", b"xy"),
    (b"t", b"#1", b"xy"),
];

/// A line, and what expansion leaves of it.
type Row = (&'static [u8], &'static [u8]);

/// `\if` compares codes and `\ifcat` categories, of tokens that expansion leaves.
const CHARACTERS: &[Row] = &[
    (b"\\if aay\\else n\\fi", b"y"),
    (b"\\if aby\\else n\\fi", b"n"),
    (b"\\if\\e y\\else n\\fi", b"y"),
    (b"\\if a\\e y\\else n\\fi", b"ay"),
    (b"\\if1\\number1 y\\else n\\fi", b"y"),
    (b"\\ifcat aby\\else n\\fi", b"y"),
    (b"\\ifcat a1y\\else n\\fi", b"n"),
    (b"\\ifcat12y\\else n\\fi", b"y"),
    (b"\\ifcat{}y\\else n\\fi", b"n"),
    (b"\\ifcat{{y\\else n\\fi", b"y"),
    // names that aren't expanded are alike, and no characters
    (b"\\if\\relax\\par y\\else n\\fi", b"y"),
    (b"\\ifcat\\relax\\count y\\else n\\fi", b"y"),
    (b"\\if a\\relax y\\else n\\fi", b"n"),
    (b"\\ifcat\\relax a\\fi n", b"n"),
    // what isn't to be expanded is seen as it stands: a name as `\relax`, an active character as itself
    (b"\\if\\noexpand\\e\\noexpand\\m y\\else n\\fi", b"y"),
    (b"\\if\\noexpand\\e\\relax y\\else n\\fi", b"y"),
    (b"\\if\\noexpand~\\noexpand~y\\else n\\fi", b"y"),
    (b"\\if\\string~\\noexpand~y\\else n\\fi", b"y"),
    (b"\\ifcat\\noexpand~\\noexpand~y\\else n\\fi", b"y"),
    (b"\\ifcat\\string~\\noexpand~y\\else n\\fi", b"n"),
    (b"\\ifcat\\noexpand~\\noexpand\\e y\\else n\\fi", b"n"),
];

/// `\ifx` compares two tokens as they stand by what they mean.
const MEANINGS: &[Row] = &[
    (b"\\ifx aay\\else n\\fi", b"y"),
    (b"\\ifx aby\\else n\\fi", b"n"),
    (b"\\ifx{\\relax y\\else n\\fi", b"n"),
    // macros by their texts, not by their names
    (b"\\ifx\\m\\q y\\else n\\fi", b"y"),
    (b"\\ifx\\m\\r y\\else n\\fi", b"n"),
    (b"\\ifx\\m\\s y\\else n\\fi", b"n"),
    (b"\\ifx\\s\\t y\\else n\\fi", b"y"),
    (b"\\ifx\\m x\\else n\\fi", b"n"),
    // names of the tables, and names without a meaning
    (b"\\ifx\\relax\\relax y\\else n\\fi", b"y"),
    (b"\\ifx\\relax\\par y\\else n\\fi", b"n"),
    (b"\\ifx\\expandafter\\noexpand y\\else n\\fi", b"n"),
    (b"\\ifx\\none\\nun y\\else n\\fi", b"y"),
    (b"\\ifx\\none~y\\else n\\fi", b"y"),
    (b"\\ifx\\none\\relax y\\else n\\fi", b"n"),
];

/// Numbers, modes, and what always holds or never.
const OTHERS: &[Row] = &[
    (b"\\ifodd3 y\\else n\\fi", b"y"),
    (b"\\ifodd-1 y\\else n\\fi", b"y"),
    (b"\\ifodd-4 y\\else n\\fi", b"n"),
    (b"\\ifodd2147483647 y\\else n\\fi", b"y"),
    (b"\\ifodd\\count7 y\\else n\\fi", b"n"),
    (b"\\ifvmode y\\else n\\fi", b"y"),
    (b"\\ifhmode y\\else n\\fi", b"n"),
    (b"\\ifmmode y\\else n\\fi", b"n"),
    (b"\\ifinner y\\else n\\fi", b"n"),
    (b"\\iftrue y\\else n\\fi", b"y"),
    (b"\\iffalse y\\else n\\fi", b"n"),
    (b"\\iffalse\\iftrue p\\else q\\fi r\\else n\\fi", b"n"),
    (b"\\iftrue\\iffalse p\\else q\\fi r\\else n\\fi", b"qr"),
];

/// `\ifcase` reads one case of many.
const CASES: &[Row] = &[
    (b"\\ifcase0 a\\or b\\else c\\fi d", b"ad"),
    (b"\\ifcase1 a\\or b\\else c\\fi d", b"bd"),
    (b"\\ifcase2 a\\or b\\else c\\fi d", b"cd"),
    (b"\\ifcase1 a\\or b\\or c\\fi d", b"bd"),
    (b"\\ifcase3 a\\or b\\fi d", b"d"),
    (b"\\ifcase-1 a\\or b\\else c\\fi d", b"cd"),
    (b"\\ifcase-1 a\\or b\\fi d", b"d"),
    (b"\\ifcase2147483647 a\\or b\\else c\\fi d", b"cd"),
    (b"\\ifcase\\count7\\relax a\\or b\\fi d", b"\\relax ad"),
    // an `\or` of a condition inside counts for that one
    (b"\\ifcase1 \\ifcase0 p\\or q\\fi\\or b\\fi d", b"bd"),
    (b"\\ifcase0 \\ifcase1 p\\or q\\fi\\or b\\fi d", b"qd"),
];

#[test]
fn characters_are_compared_by_code_or_category(rt: HostRuntime) -> Result<(), Fail> {
    for (line, left) in CHARACTERS {
        let (text, passed) = leaves(rt.alloc(), MACROS, &[], line)?;
        assert_eq!(rt; text.as_slice(), *left);
        assert_eq!(rt; passed, 0);
    }
    Ok(())
}

#[test]
fn meanings_are_compared(rt: HostRuntime) -> Result<(), Fail> {
    for (line, left) in MEANINGS {
        let (text, passed) = leaves(rt.alloc(), MACROS, &[], line)?;
        assert_eq!(rt; text.as_slice(), *left);
        assert_eq!(rt; passed, 0);
    }
    Ok(())
}

#[test]
fn numbers_and_modes_are_asked(rt: HostRuntime) -> Result<(), Fail> {
    for (line, left) in OTHERS {
        let (text, passed) = leaves(rt.alloc(), MACROS, &[], line)?;
        assert_eq!(rt; text.as_slice(), *left);
        assert_eq!(rt; passed, 0);
    }
    Ok(())
}

#[test]
fn one_case_of_many_is_read(rt: HostRuntime) -> Result<(), Fail> {
    for (line, left) in CASES {
        let (text, passed) = leaves(rt.alloc(), MACROS, &[], line)?;
        assert_eq!(rt; text.as_slice(), *left);
        assert_eq!(rt; passed, 0);
    }
    Ok(())
}
