//! What stands behind the name in a definition, as `\def` and as `\edef` read it (The TeXbook, chapter 20, pages 203 and 204).
use super::macros::{Definition, fill};
use super::reading::definition_and_rest;
use super::tex::with_macros;
use super::{File, world_of};
use std::alloc::Global;
use std::test::Fail;

/// The macro `o` is outer, and `p` is protected.
const MACROS: &[Definition] = &[
    (b"a", b"#1", b"(#1)"),
    (b"e", b"", b"xw"),
    (b"o", b"", b"z"),
    (b"p", b"", b"1"),
    (b"q", b"", b"1"),
];

const FILES: &[File] = &[(b"open.tex", b"a{b"), (b"front.tex", b"a#1b")];

/// The list of the register `\toks0`.
const LIST: &[u8] = b"#\\e ";

/// A line; the parameter text and the text of the macro behind its first token, an arrow between them; and what is left behind
/// these.
type Row = (&'static [u8], &'static [u8], &'static [u8]);

/// What both read alike.
const TEXTS: &[Row] = &[
    (b".{}x", b"->", b"x"),
    (b".{a}x", b"->a", b"x"),
    (b".ab{c}x", b"ab->c", b"x"),
    (b". a {c}x", b" a ->c", b"x"),
    (b".#1{#1}x", b"#1->#1", b"x"),
    (b".#1#2{#2#1#2}x", b"#1#2->#2#1#2", b"x"),
    (b".a#1b#2c{(#1|#2)}x", b"a#1b#2c->(#1|#2)", b"x"),
    (
        b".#1#2#3#4#5#6#7#8#9{#9#1}x",
        b"#1#2#3#4#5#6#7#8#9->#9#1",
        b"x",
    ),
    (b".\\relax#1\\par{#1}x", b"\\relax #1\\par ->#1", b"x"),
    // braces inside, and the right one that has no partner
    (b".{a{b}{}c}x", b"->a{b}{}c", b"x"),
    (b".{a\\bgroup b}x", b"->a\\bgroup b", b"x"),
    // a left brace behind the sign ends the parameter text, and stands at the end of both
    (b".#{c}x", b"{->c{", b"x"),
    (b".#1#{c#1}x", b"#1{->c#1{", b"x"),
    (b".a#\\bgroup c}x", b"a\\bgroup ->c\\bgroup ", b"x"),
    (
        b".#1#2#3#4#5#6#7#8#9#{c}x",
        b"#1#2#3#4#5#6#7#8#9{->c{",
        b"x",
    ),
    // a name that means a left brace is a delimiter like others
    (b".\\bgroup#1{#1}x", b"\\bgroup #1->#1", b"x"),
    // a sign behind a sign, and a name that means one
    (b".{a##b}x", b"->a##b", b"x"),
    (b".#1{###1}x", b"#1->###1", b"x"),
    (b".\\hash1{#1}x", b"#1->#1", b"x"),
    (b".#1{\\hash1}x", b"#1->#1", b"x"),
    (b".{#\\hash}x", b"->\\hash ", b"x"),
    (b".{\\hash#}x", b"->##", b"x"),
    // a macro in a parameter text isn't expanded
    (b".\\e#1{#1}x", b"\\e #1->#1", b"x"),
];

/// Signs and braces where they may not stand.
const TROUBLES: &[Row] = &[
    (b".}x", b"! Missing {", b""),
    (b".#1}x", b"! Missing {", b""),
    (b".#2{}x", b"! Bad parameter text", b""),
    (b".#0{}x", b"! Bad parameter text", b""),
    (b".#1#1{}x", b"! Bad parameter text", b""),
    (b".#1#3{}x", b"! Bad parameter text", b""),
    (b".#a{}x", b"! Bad parameter text", b""),
    (b".##{}x", b"! Bad parameter text", b""),
    (b".#}x", b"! Bad parameter text", b""),
    (b".#\\e{}x", b"! Bad parameter text", b""),
    (b".#1#2#3#4#5#6#7#8#9#:{}x", b"! Bad parameter text", b""),
    (b".{#1}x", b"! Bad parameter text", b""),
    (b".#1{#2}x", b"! Bad parameter text", b""),
    (b".#1{#0}x", b"! Bad parameter text", b""),
    (b".#1{#a}x", b"! Bad parameter text", b""),
    (b".{#}x", b"! Bad parameter text", b""),
    (b".#1{#{}}x", b"! Bad parameter text", b""),
    (b".#{#1}x", b"! Bad parameter text", b""),
    // no outer macro stands in either text, and no file ends in them
    (b".\\o{}x", b"! Forbidden control sequence found: \\o", b""),
    (b".{a\\o}x", b"! Forbidden control sequence found: \\o", b""),
    (b".#\\o{}x", b"! Forbidden control sequence found: \\o", b""),
    (b"\\input open c}", b"! File ended while scanning", b""),
    (b"\\input front {#1}", b"! File ended while scanning", b""),
    (b".a#1", b"! No \\end found", b""),
    (b".a#1{#1", b"! No \\end found", b""),
];

/// A line, what `\def` reads of it, and what `\edef` reads.
const APART: &[Row] = &[
    (b".{\\e y}", b"->\\e y", b"->xwy"),
    (b".#1{\\e#1}", b"#1->\\e #1", b"#1->xw#1"),
    (b".{\\noexpand\\e}", b"->\\noexpand \\e ", b"->\\e "),
    // the arguments of a macro are read before the sign in them is looked at
    (b".#1{\\a#1}", b"#1->\\a #1", b"! Bad parameter text"),
    (b".#1{\\a{#1}}", b"#1->\\a {#1}", b"#1->(#1)"),
    // a protected macro stands as it is, but not behind a sign, where what expands is expanded first
    (b".{\\p}", b"->\\p ", b"->\\p "),
    (b".#1{#\\p}", b"! Bad parameter text", b"#1->#1"),
    (b".#1{#\\q}", b"! Bad parameter text", b"#1->#1"),
    (b".#1{#\\number1 }", b"! Bad parameter text", b"#1->#1"),
    (
        b".#1{#\\noexpand\\q}",
        b"! Bad parameter text",
        b"! Bad parameter text",
    ),
    (b".{#\\iffalse\\fi#}", b"! Bad parameter text", b"->##"),
    // signs and names in a list behind \the stay, unless they come behind a sign
    (b".{\\the\\toks0}", b"->\\the \\toks 0", b"->##\\e "),
    (
        b".#1{\\the\\toks0 1}",
        b"#1->\\the \\toks 0 1",
        b"#1->##\\e 1",
    ),
    (b".{#\\the\\toks0}", b"! Bad parameter text", b"->##xw"),
];

/// The definition behind the first token of a line, and what expansion leaves behind it.
fn definition_of_line(
    alloc: Global,
    line: &[u8],
    expanded: bool,
) -> Result<(Vec<u8>, Vec<u8>), Fail> {
    let mut tex = with_macros(alloc, MACROS, line)?;
    fill(&mut tex, LIST)?;
    let mut world = world_of(alloc, FILES)?;
    let shown = definition_and_rest(&mut tex, &mut world, expanded)?;
    Ok(shown)
}

#[test]
fn definitions_are_read(rt: HostRuntime) -> Result<(), Fail> {
    for (line, definition, left) in TEXTS {
        let (found, rest) = definition_of_line(rt.alloc(), line, false)?;
        assert_eq!(rt; found.as_slice(), *definition);
        assert_eq!(rt; rest.as_slice(), *left);
    }
    Ok(())
}

#[test]
fn expanded_definitions_read_plain_tokens_alike(rt: HostRuntime) -> Result<(), Fail> {
    for (line, definition, left) in TEXTS {
        let (found, rest) = definition_of_line(rt.alloc(), line, true)?;
        assert_eq!(rt; found.as_slice(), *definition);
        assert_eq!(rt; rest.as_slice(), *left);
    }
    Ok(())
}

#[test]
fn misused_signs_and_braces_end_the_run(rt: HostRuntime) -> Result<(), Fail> {
    for (line, trouble, _) in TROUBLES {
        let (found, _) = definition_of_line(rt.alloc(), line, false)?;
        assert_eq!(rt; found.as_slice(), *trouble);
    }
    Ok(())
}

#[test]
fn misused_signs_and_braces_end_the_run_in_expanded_definitions(
    rt: HostRuntime,
) -> Result<(), Fail> {
    for (line, trouble, _) in TROUBLES {
        let (found, _) = definition_of_line(rt.alloc(), line, true)?;
        assert_eq!(rt; found.as_slice(), *trouble);
    }
    Ok(())
}

#[test]
fn texts_of_expanded_definitions_are_expanded(rt: HostRuntime) -> Result<(), Fail> {
    for (line, plain, expanded) in APART {
        let (as_it_stands, _) = definition_of_line(rt.alloc(), line, false)?;
        assert_eq!(rt; as_it_stands.as_slice(), *plain);
        let (found, _) = definition_of_line(rt.alloc(), line, true)?;
        assert_eq!(rt; found.as_slice(), *expanded);
    }
    Ok(())
}
