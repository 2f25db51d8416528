//! Texts of tokens and meanings, with the escape character shown and not.
use crate::{
    CatTable, Macro, Meaning, NameId, NameTable, RegKind, Token, TokenList, codes, has_tail,
    meaning_head, meaning_tail, meaning_text, token_shown, tokens_text,
};
use std::alloc::{AllocError, Global};
use std::test::Fail;

const BACKSLASH: i32 = 92;

fn four_names(alloc: Global) -> Result<NameTable, AllocError> {
    let mut names = NameTable::new(alloc);
    names.intern(b"foo")?;
    names.intern(b"?")?;
    names.intern(b"x")?;
    names.intern(b"")?;
    Ok(names)
}

fn list_text(alloc: Global, tokens: &[Token], escape: i32) -> Result<Vec<u8>, AllocError> {
    tokens_text(
        alloc,
        tokens,
        &four_names(alloc)?,
        &CatTable::initial(),
        escape,
    )
}

fn shown(alloc: Global, token: Token, escape: i32) -> Result<Vec<u8>, AllocError> {
    token_shown(alloc, token, &four_names(alloc)?, escape)
}

fn head(alloc: Global, meaning: &Meaning, above: &[u8]) -> Result<Vec<u8>, AllocError> {
    meaning_head(alloc, meaning, BACKSLASH, above)
}

fn tail(alloc: Global, meaning: &Meaning, above: &[u8]) -> Result<Vec<u8>, AllocError> {
    meaning_tail(
        alloc,
        meaning,
        &four_names(alloc)?,
        &CatTable::initial(),
        BACKSLASH,
        above,
    )
}

fn whole(alloc: Global, meaning: &Meaning, above: &[u8]) -> Result<Vec<u8>, AllocError> {
    meaning_text(
        alloc,
        meaning,
        &four_names(alloc)?,
        &CatTable::initial(),
        BACKSLASH,
        above,
    )
}

#[test]
fn a_list_with_each_sort_of_token(rt: HostRuntime) -> Result<(), Fail> {
    let alloc = rt.alloc();
    let tokens = [
        Token::Name(NameId(0)),
        Token::Char { cat: 6, byte: b'#' },
        Token::Name(NameId(1)),
        Token::Char {
            cat: 12,
            byte: b'1',
        },
        Token::Name(NameId(2)),
        Token::Active(b'~'),
        Token::Name(NameId(3)),
        Token::Arg(2),
        Token::Frozen(0),
    ];
    let text = list_text(alloc, &tokens, BACKSLASH)?;
    assert_eq!(rt;
        text.as_slice(),
        b"\\foo ##\\?1\\x ~\\csname\\endcsname #2\\relax ".as_slice()
    );
    let text = list_text(alloc, &tokens, -1)?;
    assert_eq!(rt;
        text.as_slice(),
        b"foo ##?1x ~csnameendcsname #2relax ".as_slice()
    );
    Ok(())
}

#[test]
fn a_token_as_troubles_name_it(rt: HostRuntime) -> Result<(), Fail> {
    let alloc = rt.alloc();
    let name = shown(alloc, Token::Name(NameId(0)), BACKSLASH)?;
    assert_eq!(rt; name.as_slice(), b"\\foo".as_slice());
    let empty = shown(alloc, Token::Name(NameId(3)), 47)?;
    assert_eq!(rt; empty.as_slice(), b"/csname/endcsname".as_slice());
    let frozen = shown(alloc, Token::Frozen(0), 256)?;
    assert_eq!(rt; frozen.as_slice(), b"relax".as_slice());
    let active = shown(alloc, Token::Active(b'~'), BACKSLASH)?;
    assert_eq!(rt; active.as_slice(), b"~".as_slice());
    let hash = shown(alloc, Token::Char { cat: 6, byte: b'#' }, BACKSLASH)?;
    assert_eq!(rt; hash.as_slice(), b"macro parameter character #".as_slice());
    let space = shown(
        alloc,
        Token::Char {
            cat: 10,
            byte: b' ',
        },
        BACKSLASH,
    )?;
    assert_eq!(rt; space.as_slice(), b"blank space  ".as_slice());
    Ok(())
}

#[test]
fn meanings_without_a_tail(rt: HostRuntime) -> Result<(), Fail> {
    let alloc = rt.alloc();
    let text = head(alloc, &Meaning::Undefined, b"")?;
    assert_eq!(rt; text.as_slice(), b"undefined".as_slice());
    let text = head(alloc, &Meaning::Primitive(codes::RELAX), b"")?;
    assert_eq!(rt; text.as_slice(), b"\\relax".as_slice());
    let text = head(
        alloc,
        &Meaning::Char {
            cat: 11,
            byte: b'A',
        },
        b"",
    )?;
    assert_eq!(rt; text.as_slice(), b"the letter A".as_slice());
    let text = head(alloc, &Meaning::CharDef(65), b"")?;
    assert_eq!(rt; text.as_slice(), b"\\char\"41".as_slice());
    let text = head(alloc, &Meaning::MathCharDef(0x7F2D), b"")?;
    assert_eq!(rt; text.as_slice(), b"\\mathchar\"7F2D".as_slice());
    let register = Meaning::Register {
        kind: RegKind::Count,
        number: 300,
    };
    let text = head(alloc, &register, b"")?;
    assert_eq!(rt; text.as_slice(), b"\\count300".as_slice());
    let text = head(alloc, &Meaning::Font(1), b"tf10 at 5.0pt")?;
    assert_eq!(rt; text.as_slice(), b"select font tf10 at 5.0pt".as_slice());
    Ok(())
}

fn long_macro(alloc: Global) -> Result<Meaning, Fail> {
    Ok(Meaning::Macro(Macro {
        long: true,
        outer: false,
        guarded: true,
        params: TokenList::from_slice(
            alloc,
            &[
                Token::Arg(1),
                Token::Char {
                    cat: 12,
                    byte: b'.',
                },
            ],
        )?,
        body: TokenList::from_slice(
            alloc,
            &[
                Token::Char {
                    cat: 11,
                    byte: b'a',
                },
                Token::Arg(1),
            ],
        )?,
    }))
}

#[test]
fn meanings_with_a_tail(rt: HostRuntime) -> Result<(), Fail> {
    let alloc = rt.alloc();
    let meaning = long_macro(alloc)?;
    let text = whole(alloc, &meaning, b"")?;
    assert_eq!(rt;
        text.as_slice(),
        b"\\protected\\long macro:#1.->a#1".as_slice()
    );
    let text = tail(alloc, &meaning, b"")?;
    assert_eq!(rt; text.as_slice(), b"#1.->a#1".as_slice());
    let text = whole(alloc, &Meaning::Primitive(codes::BOTMARK), b"here")?;
    assert_eq!(rt; text.as_slice(), b"\\botmark:here".as_slice());
    assert!(rt; has_tail(&meaning));
    assert!(rt; !has_tail(&Meaning::Primitive(codes::RELAX)));
    Ok(())
}
