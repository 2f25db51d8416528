//! Texts that expansion makes (The TeXbook, chapter 20, pages 213 to 215).
use super::macros::Definition;
use super::{File, leaves};
use std::test::Fail;

const MACROS: &[Definition] = &[
    (b"a", b"#1", b"(#1)"),
    (b"b", b"#1.", b"#1#1"),
    (b"e", b"", b"xw"),
    (b"o", b"", b"x"),
    (b"p", b"", b"x"),
    (b"d", b"a#1{", b"b{"),
];

const FILES: &[File] = &[
    (b"ends.tex", b"a\\endinput b\nc\n"),
    (b"mark.tex", b"\\noexpand"),
];

/// A line, and what expansion leaves of it.
type Row = (&'static [u8], &'static [u8]);

/// A token that isn't to be expanded is left as `\relax`; the mark is lost where it is taken otherwise, and where it is
/// put back.
const MARKS: &[Row] = &[
    (b"\\noexpand a", b"a"),
    (b"\\noexpand\\e y", b"\\relax y"),
    (b"\\noexpand\\relax y", b"\\relax y"),
    (b"\\noexpand~y", b"\\relax y"),
    (b"\\expandafter\\a\\noexpand\\e z", b"(xw)z"),
    (b"\\a{\\noexpand\\e}z", b"(\\relax )z"),
    (b"\\number1\\noexpand\\e z", b"1xwz"),
    (b"\\expandafter\\string\\noexpand\\e z", b"\\ez"),
    (b"\\expandafter\\meaning\\noexpand\\e z", b"\\relaxz"),
    (b"\\expandafter\\noexpand\\noexpand\\e z", b"\\relax z"),
    (b"\\input mark \\e z", b"\\relax z"),
];

/// Tokens and meanings as texts.
const SHOWN: &[Row] = &[
    (b"\\string\\relax x", b"\\relaxx"),
    (b"\\string\\e x", b"\\ex"),
    (b"\\string a", b"a"),
    (b"\\string~x", b"~x"),
    (b"\\string{x", b"{x"),
    (b"\\string\\csname x\\endcsname", b"\\csnamex\\endcsname "),
    (b"\\meaning\\relax x", b"\\relaxx"),
    (b"\\meaning a", b"the letter a"),
    (b"\\meaning1", b"the character 1"),
    (b"\\meaning{", b"begin-group character {"),
    (b"\\meaning}", b"end-group character }"),
    (b"\\meaning#", b"macro parameter character #"),
    (b"\\meaning\\hash", b"macro parameter character #"),
    (b"\\meaning\\shift", b"math shift character $"),
    (b"\\meaning\\tab", b"alignment tab character &"),
    (b"\\meaning\\up", b"superscript character ^"),
    (b"\\meaning\\down", b"subscript character _"),
    (b"\\meaning\\blank", b"blank space *"),
    (b"\\meaning~", b"undefined"),
    (b"\\meaning\\none", b"undefined"),
    (b"\\meaning\\count", b"\\count"),
    (b"\\meaning\\e", b"macro:->xw"),
    (b"\\meaning\\b", b"macro:#1.->#1#1"),
    (b"\\meaning\\o", b"\\outer macro:->x"),
    (b"\\meaning\\p", b"\\protected macro:->x"),
    (b"\\meaning\\d", b"macro:a#1{->b{"),
    (b"\\meaning\\nullfont", b"select font nullfont"),
    (b"\\jobname x", b"texputx"),
    (b"\\input ends d", b"abd"),
];

/// Values as texts.
const VALUES: &[Row] = &[
    (b"\\number 12 x", b"12x"),
    (b"\\number-007x", b"-7x"),
    (b"\\number`a x", b"97x"),
    (b"\\romannumeral 1999 x", b"mcmxcixx"),
    (b"\\romannumeral14x", b"xivx"),
    (b"\\romannumeral0 x", b"x"),
    (b"\\romannumeral-3 x", b"x"),
    (b"\\the\\count7 x", b"0x"),
    (b"\\the\\tolerance x", b"10000x"),
    (b"\\the\\escapechar x", b"92x"),
    (b"\\the\\dimen7 x", b"0.0ptx"),
    (b"\\the\\skip7 x", b"0.0ptx"),
    (b"\\the\\toks7 x", b"x"),
    (b"\\the\\everypar x", b"x"),
    (b"\\the\\catcode`\\{ x", b"1x"),
    (b"\\the\\catcode`a x", b"11x"),
    (b"\\the\\lccode`A x", b"97x"),
    (b"\\the\\uccode`a x", b"65x"),
    (b"\\the\\sfcode`A x", b"999x"),
    (b"\\the\\mathcode`a x", b"29025x"),
    (b"\\the\\delcode`a x", b"-1x"),
    (b"\\number\\the\\catcode`a x", b"11x"),
];

/// What can't be shown ends the run.
const TROUBLES: &[Row] = &[
    (b"x\\the y", b"x! You can't use the letter y here"),
    (b"x\\the\\relax", b"x! You can't use \\relax here"),
    (b"\\meaning", b"! No \\end found"),
    (b"\\string", b"! No \\end found"),
    (b"\\noexpand", b"! No \\end found"),
    (b"\\ifx a", b"! No \\end found"),
];

#[test]
fn marked_tokens_are_not_expanded(rt: HostRuntime) -> Result<(), Fail> {
    for (line, left) in MARKS {
        let (text, passed) = leaves(rt.alloc(), MACROS, FILES, line)?;
        assert_eq!(rt; text.as_slice(), *left);
        assert_eq!(rt; passed, 0);
    }
    Ok(())
}

#[test]
fn tokens_and_meanings_are_shown(rt: HostRuntime) -> Result<(), Fail> {
    for (line, left) in SHOWN {
        let (text, passed) = leaves(rt.alloc(), MACROS, FILES, line)?;
        assert_eq!(rt; text.as_slice(), *left);
        assert_eq!(rt; passed, 0);
    }
    Ok(())
}

#[test]
fn values_are_written(rt: HostRuntime) -> Result<(), Fail> {
    for (line, left) in VALUES {
        let (text, passed) = leaves(rt.alloc(), MACROS, FILES, line)?;
        assert_eq!(rt; text.as_slice(), *left);
        assert_eq!(rt; passed, 0);
    }
    Ok(())
}

#[test]
fn texts_that_cannot_be_made_end_the_run(rt: HostRuntime) -> Result<(), Fail> {
    for (line, left) in TROUBLES {
        let (text, passed) = leaves(rt.alloc(), MACROS, FILES, line)?;
        assert_eq!(rt; text.as_slice(), *left);
        assert_eq!(rt; passed, 0);
    }
    Ok(())
}
