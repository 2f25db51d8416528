//! Tokens as they stand, and tokens that are put in front of a line.
use super::macros::Definition;
use super::reading::{expanded, raw_text, tokens_of};
use super::tex::{Tex, with_macros};
use super::world_of;
use std::alloc::Global;
use std::test::Fail;
use tokens::Token;

const MACROS: &[Definition] = &[(b"e", b"", b"xw")];

/// A line, and its tokens.
const ROWS: &[(&[u8], &[u8])] = &[
    (b"", b""),
    (b"x\\e  y", b"x\\e y"),
    (b"\\ifnum1<2\\fi", b"\\ifnum 1<2\\fi "),
    (b"\\input none x", b"\\input none x"),
    (b"a~{#}%z", b"a~{##}"),
];

/// The tokens of a line, none of which is expanded.
fn stands(alloc: Global, line: &[u8]) -> Result<Vec<u8>, Fail> {
    let mut tex = with_macros(alloc, MACROS, line)?;
    raw_text(&mut tex)
}

#[test]
fn tokens_are_taken_as_they_stand(rt: HostRuntime) -> Result<(), Fail> {
    for (line, tokens) in ROWS {
        let text = stands(rt.alloc(), line)?;
        assert_eq!(rt; text.as_slice(), *tokens);
    }
    Ok(())
}

const LETTER: Token = Token::Char {
    cat: 11,
    byte: b'y',
};

/// Puts a text and then a token in front of a line.
fn put_in_front(tex: &mut Tex, text: &[u8], token: Token) -> Result<(), Fail> {
    let list = tokens_of(tex, text)?;
    tex.gullet.push_list(list)?;
    tex.gullet.back(token, true)?;
    Ok(())
}

/// What expansion leaves, and how many steps it takes.
fn leaves_in_front(alloc: Global, text: &[u8]) -> Result<(Vec<u8>, u64), Fail> {
    let mut tex = with_macros(alloc, MACROS, b"z")?;
    put_in_front(&mut tex, text, LETTER)?;
    let used = tex.site.budget.used();
    let mut world = world_of(alloc, &[])?;
    let left = expanded(&mut tex, &mut world)?;
    Ok((left, tex.site.budget.used().saturating_sub(used)))
}

#[test]
fn tokens_in_front_take_steps_where_they_are_not_paid(rt: HostRuntime) -> Result<(), Fail> {
    // the letter is paid: the macro, its two letters, the line and its letter take a step each
    let (text, steps) = leaves_in_front(rt.alloc(), b"\\e")?;
    assert_eq!(rt; text.as_slice(), b"yxwz".as_slice());
    assert_eq!(rt; steps, 5);
    // and none of these, a list without tokens
    let (text, steps) = leaves_in_front(rt.alloc(), b"")?;
    assert_eq!(rt; text.as_slice(), b"yz".as_slice());
    assert_eq!(rt; steps, 2);
    Ok(())
}
