//! Meanings and values that are shown (The TeXbook, pages 213 to 216 and 279; `tex.web` 1293 to 1297).
use super::executing::shows;
use super::macros::Definition;
use std::test::Fail;

/// The macro `o` is outer, and `p` is protected.
const MACROS: &[Definition] = &[
    (b"b", b"#1.", b"#1#1"),
    (b"e", b"", b"xw"),
    (b"o", b"", b"x"),
    (b"p", b"#1", b"x"),
];

/// A line, what its commands show, and how many troubles they pass over.
type Row = (&'static [u8], &'static [u8], u64);

/// Each kind of meaning. The name `cd` stands for a character, `md` for one of mathematics, `cr` for `\count9`, `tr` for `\toks0`,
/// and `hal` for `\halign`.
const MEANINGS: &[Row] = &[
    (b"\\show\\relax", b"> \\relax=\\relax.\n", 0),
    (b"\\show\\count", b"> \\count=\\count.\n", 0),
    (b"\\show\\noexpand", b"> \\noexpand=\\noexpand.\n", 0),
    (b"\\show\\hal", b"> \\hal=\\halign.\n", 0),
    (b"\\show a", b"> a=the letter a.\n", 0),
    (b"\\show1", b"> 1=the character 1.\n", 0),
    (b"\\show{", b"> {=begin-group character {.\n", 0),
    (b"\\show}", b"> }=end-group character }.\n", 0),
    (b"\\show#", b"> #=macro parameter character #.\n", 0),
    (
        b"\\show\\bgroup",
        b"> \\bgroup=begin-group character {.\n",
        0,
    ),
    (b"\\show~", b"> ~=undefined.\n", 0),
    (b"\\show\\none", b"> \\none=undefined.\n", 0),
    (b"\\show\\e", b"> \\e=macro:\n->xw.\n", 0),
    (b"\\show\\b", b"> \\b=macro:\n#1.->#1#1.\n", 0),
    (b"\\show\\o", b"> \\o=\\outer macro:\n->x.\n", 0),
    (b"\\show\\p", b"> \\p=\\protected macro:\n#1->x.\n", 0),
    (b"\\show\\cd", b"> \\cd=\\char\"41.\n", 0),
    (b"\\show\\md", b"> \\md=\\mathchar\"1234.\n", 0),
    (b"\\show\\cr", b"> \\cr=\\count9.\n", 0),
    (b"\\show\\tr", b"> \\tr=\\toks0.\n", 0),
    (
        b"\\show\\nullfont",
        b"> \\nullfont=select font nullfont.\n",
        0,
    ),
    // on lines of its own
    (
        b"\\message{a}\\show b\\message{c}",
        b"a\n> b=the letter b.\nc",
        0,
    ),
    (b"\\show", b"! No \\end found", 0),
];

/// What `\the` would put in front.
const VALUES: &[Row] = &[
    (b"\\showthe\\count9\\relax", b"> 1234.\n", 0),
    (b"\\showthe\\count\\count7\\relax", b"> 0.\n", 0),
    (b"\\showthe\\cr", b"> 1234.\n", 0),
    (b"\\showthe\\tolerance", b"> 10000.\n", 0),
    (b"\\showthe\\inputlineno", b"> 0.\n", 0),
    (b"\\showthe\\dimen7\\relax", b"> 0.0pt.\n", 0),
    (b"\\showthe\\skip7\\relax", b"> 0.0pt.\n", 0),
    (b"\\showthe\\muskip7\\relax", b"> 0.0mu.\n", 0),
    (b"\\showthe\\catcode`\\{\\relax", b"> 1.\n", 0),
    (b"\\showthe\\uccode`q\\relax", b"> 300.\n", 0),
    (b"\\showthe\\cd", b"> 65.\n", 0),
    (b"\\showthe\\md", b"> 4660.\n", 0),
    (b"\\showthe\\toks7\\relax", b"> .\n", 0),
    (b"\\showthe\\toks0\\relax", b"> a\\e {##}.\n", 0),
    (b"\\showthe\\tr", b"> a\\e {##}.\n", 0),
    (b"\\showthe\\everypar", b"> .\n", 0),
    (
        b"\\message{a}\\showthe\\count9\\message{c}",
        b"a\n> 1234.\nc",
        0,
    ),
    // in front of what is shown expansion goes on
    (
        b"\\showthe\\none\\count9\\relax",
        b"! Undefined control sequence: \\none.\n> 1234.\n",
        1,
    ),
    (
        b"\\showthe\\csname count\\endcsname9\\relax",
        b"> 1234.\n",
        0,
    ),
    // registers that aren't there
    (
        b"\\showthe\\count32768\\relax",
        b"! Bad register code: 32768.\n> 0.\n",
        1,
    ),
    (
        b"\\showthe\\toks-1\\relax",
        b"! Bad register code: -1.\n> a\\e {##}.\n",
        1,
    ),
    (
        b"\\showthe\\catcode256\\relax",
        b"! Bad character code: 256",
        0,
    ),
    // what has no value
    (b"\\showthe\\relax", b"! You can't use \\relax here", 0),
    (b"\\showthe a", b"! You can't use the letter a here", 0),
    (b"\\showthe\\noexpand\\e", b"! You can't use \\e here", 0),
    (b"\\showthe\\bgroup", b"! You can't use \\bgroup here", 0),
    (b"\\showthe", b"! No \\end found", 0),
    (b"\\showthe\\toks", b"! No \\end found", 0),
];

#[test]
fn meanings_are_told(rt: HostRuntime) -> Result<(), Fail> {
    for (line, expected, troubles) in MEANINGS {
        let (text, passed) = shows(rt.alloc(), MACROS, line)?;
        assert_eq!(rt; text.as_slice(), *expected);
        assert_eq!(rt; passed, *troubles);
    }
    Ok(())
}

#[test]
fn values_are_told(rt: HostRuntime) -> Result<(), Fail> {
    for (line, expected, troubles) in VALUES {
        let (text, passed) = shows(rt.alloc(), MACROS, line)?;
        assert_eq!(rt; text.as_slice(), *expected);
        assert_eq!(rt; passed, *troubles);
    }
    Ok(())
}
