//! Files that `\input` opens, also inside numbers (The TeXbook, chapters 20 and 24; `tex.web` 537).
use super::macros::Definition;
use super::{File, leaves};
use std::test::Fail;

const FILES: &[File] = &[
    (b"f.tex", b"23\n"),
    (b"g.tex", b"ab\ncd\n"),
    (b"h.tex", b"\\input g.tex e"),
    (b"self.tex", b"\\input self.tex x"),
    (b"open.tex", b"\\b y"),
    (b"skip.tex", b"\\iffalse a"),
];

const MACROS: &[Definition] = &[(b"b", b"#1.", b"(#1)")];

/// A line, and what expansion leaves of it.
const ROWS: &[(&[u8], &[u8])] = &[
    (b"x\\input g y", b"xabcdy"),
    (b"x\\input g.tex\\relax y", b"xabcd\\relax y"),
    (b"\\input h.tex f", b"abcdef"),
    // a file in a number, whose end stands in it too
    (b"\\number1\\input f.tex 4.", b"1234."),
    (b"\\ifnum\\input f.tex =23 y\\fi z", b"yz"),
    (b"\\input none x", b"! File not found: none.tex"),
    (b"\\input self x", b"! text input levels=15"),
    // no file ends in an argument, nor in a branch that is passed over
    (b"\\input open.tex z.", b"! File ended while scanning"),
    (b"\\input skip.tex b\\fi c", b"! File ended while scanning"),
];

#[test]
fn files_are_read_where_they_are_named(rt: HostRuntime) -> Result<(), Fail> {
    for (line, left) in ROWS {
        let (text, passed) = leaves(rt.alloc(), MACROS, FILES, line)?;
        assert_eq!(rt; text.as_slice(), *left);
        assert_eq!(rt; passed, 0);
    }
    Ok(())
}
