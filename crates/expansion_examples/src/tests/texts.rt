//! Texts in braces, as they stand and as `\edef` reads them, and names of files (The TeXbook, chapter 20, page 215, chapter 24,
//! page 276, and chapter 25).
use super::macros::{Definition, fill};
use super::reading::{name_and_rest, text_shown};
use super::tex::{Tex, with_macros};
use super::{File, world_of};
use std::alloc::Global;
use std::test::Fail;

/// The macro `o` is outer, and `p` is protected.
const MACROS: &[Definition] = &[
    (b"e", b"", b"xw"),
    (b"f", b"", b"\\e y"),
    (b"o", b"", b"z"),
    (b"p", b"", b"z"),
];

const FILES: &[File] = &[(b"open.tex", b"{ab")];

/// The list of the register `\toks0`.
const LIST: &[u8] = b"#\\e ";

/// A line; the text that it begins with, as it stands; and what is left of that where it is expanded.
const ROWS: &[(&[u8], &[u8], &[u8])] = &[
    (b"{}x", b"", b""),
    (b"{a{b}{}c}d", b"a{b}{}c", b"a{b}{}c"),
    (b"{#}", b"##", b"##"),
    // spaces, \relax, what expands to nothing, and a name that means a brace
    (b"  \\relax  {a}", b"a", b"a"),
    (b"\\iffalse\\fi{a}", b"a", b"a"),
    (b"\\bgroup a}", b"a", b"a"),
    (b"{a\\bgroup b}", b"a\\bgroup b", b"a\\bgroup b"),
    (b"x{a}", b"! Missing {", b"! Missing {"),
    (b"\\e{a}", b"! Missing {", b"! Missing {"),
    (b"\\noexpand\\e{a}", b"a", b"a"),
    // what is expanded, and what isn't
    (b"{\\f}", b"\\f ", b"xwy"),
    (b"{\\noexpand\\e}", b"\\noexpand \\e ", b"\\e "),
    (
        b"{\\noexpand\\noexpand\\e}",
        b"\\noexpand \\noexpand \\e ",
        b"\\noexpand xw",
    ),
    (b"{\\p}", b"\\p ", b"\\p "),
    (b"{\\number\\count7}", b"\\number \\count 7", b"0"),
    (
        b"{\\ifodd1 a\\else b\\fi}",
        b"\\ifodd 1 a\\else b\\fi ",
        b"a",
    ),
    // the tokens of a list aren't expanded, those of a number's digits are characters
    (b"{\\the\\toks0}", b"\\the \\toks 0", b"##\\e "),
    (b"{\\the\\count7}", b"\\the \\count 7", b"0"),
    (
        b"{\\number\\expandafter1\\the\\toks0}",
        b"\\number \\expandafter 1\\the \\toks 0",
        b"1##xw",
    ),
    // no outer macro stands in a text, nor in front of it, unless it isn't to be expanded
    (
        b"{a\\o}",
        b"! Forbidden control sequence found: \\o",
        b"! Forbidden control sequence found: \\o",
    ),
    (
        b"\\o{a}",
        b"! Forbidden control sequence found: \\o",
        b"! Forbidden control sequence found: \\o",
    ),
    (
        b"{\\noexpand\\o}",
        b"! Forbidden control sequence found: \\o",
        b"\\o ",
    ),
    // no file ends in it, and the line doesn't either
    (
        b"\\input open.tex c}",
        b"! File ended while scanning",
        b"! File ended while scanning",
    ),
    (b"{ab", b"! No \\end found", b"! No \\end found"),
];

/// A line with a list in the register.
fn with_list(alloc: Global, line: &[u8]) -> Result<Tex, Fail> {
    let mut tex = with_macros(alloc, MACROS, line)?;
    fill(&mut tex, LIST)?;
    Ok(tex)
}

/// The text that a line begins with, as it stands or expanded, and how many steps it takes.
fn text_of_line(alloc: Global, line: &[u8], expanded: bool) -> Result<(Vec<u8>, u64), Fail> {
    let mut tex = with_list(alloc, line)?;
    let used = tex.site.budget.used();
    let mut world = world_of(alloc, FILES)?;
    let text = text_shown(&mut tex, &mut world, expanded)?;
    Ok((text, tex.site.budget.used().saturating_sub(used)))
}

#[test]
fn texts_are_taken_as_they_stand(rt: HostRuntime) -> Result<(), Fail> {
    for (line, text, _) in ROWS {
        let (found, _) = text_of_line(rt.alloc(), line, false)?;
        assert_eq!(rt; found.as_slice(), *text);
    }
    Ok(())
}

#[test]
fn texts_are_expanded(rt: HostRuntime) -> Result<(), Fail> {
    for (line, _, text) in ROWS {
        let (found, _) = text_of_line(rt.alloc(), line, true)?;
        assert_eq!(rt; found.as_slice(), *text);
    }
    Ok(())
}

/// A line whose text is expanded, and its steps: one for the line, and one for each token that isn't paid. The tokens of a list
/// behind `\the` take none.
const STEPS: &[(&[u8], u64)] = &[
    (b"{}", 3),
    (b"{\\e}", 6),
    (b"{\\noexpand\\e}", 5),
    (b"{\\the\\toks0}", 6),
    (b"{\\the\\count7}", 7),
];

#[test]
fn tokens_of_a_list_take_no_step(rt: HostRuntime) -> Result<(), Fail> {
    for (line, steps) in STEPS {
        let (_, used) = text_of_line(rt.alloc(), line, true)?;
        assert_eq!(rt; used, *steps);
    }
    Ok(())
}

/// A line, the name of a file with which it begins, and what expansion leaves behind that.
const NAMES: &[(&[u8], &[u8], &[u8])] = &[
    (b"ab.c x", b"ab.c", b"x"),
    (b"  ab\\relax x", b"ab", b"\\relax x"),
    (b"\\f\\e\\relax x", b"xwyxw", b"\\relax x"),
    (b"a{b} c", b"a{b}", b"c"),
    (b"\\relax", b"", b"\\relax "),
    (b"\"a\" b", b"\"a\"", b"b"),
    (b"ab", b"! No \\end found", b""),
];

/// The name of a file with which a line begins, and what expansion leaves behind it.
fn name_of(alloc: Global, line: &[u8]) -> Result<(Vec<u8>, Vec<u8>), Fail> {
    let mut tex = with_list(alloc, line)?;
    let mut world = world_of(alloc, FILES)?;
    Ok(name_and_rest(&mut tex, &mut world)?)
}

#[test]
fn names_of_files_end_at_a_space_or_at_no_character(rt: HostRuntime) -> Result<(), Fail> {
    for (line, name, rest) in NAMES {
        let (found, left) = name_of(rt.alloc(), line)?;
        assert_eq!(rt; found.as_slice(), *name);
        assert_eq!(rt; left.as_slice(), *rest);
    }
    Ok(())
}
