//! Shared lists, macros and meanings.
use crate::{CatTable, Macro, Meaning, RegKind, Token, TokenList};
use std::alloc::AllocError;
use std::test::Fail;

fn are_same(meaning: &Meaning, other: &Meaning) -> bool {
    meaning.is_same(other)
}

fn copy_of(meaning: &Meaning) -> Result<Meaning, AllocError> {
    meaning.share()
}

fn macro_copy(m: &Macro) -> Result<Macro, AllocError> {
    m.share()
}

fn are_same_macros(m: &Macro, n: &Macro) -> bool {
    m.is_same(n)
}

#[test]
fn shared_lists_are_equal(rt: HostRuntime) -> Result<(), Fail> {
    let alloc = rt.alloc();
    let tokens = [
        Token::Char {
            cat: 11,
            byte: b'a',
        },
        Token::Arg(1),
        Token::Frozen(0),
    ];
    let list = TokenList::from_slice(alloc, &tokens)?;
    assert_eq!(rt; list.as_slice(), tokens.as_slice());
    assert!(rt; list.is_same(&list.share()?));
    assert!(rt; !list.is_same(&TokenList::empty()));
    let other = TokenList::from_slice(
        alloc,
        &[
            Token::Char {
                cat: 11,
                byte: b'a',
            },
            Token::Arg(1),
            Token::Frozen(1),
        ],
    )?;
    assert!(rt; !list.is_same(&other));
    assert!(rt; TokenList::empty().is_same(&TokenList::from_slice(alloc, &[])?));
    Ok(())
}

#[test]
fn a_list_of_20_000_tokens(rt: HostRuntime) -> Result<(), Fail> {
    let tokens = [Token::Arg(1); 20_000];
    let list = TokenList::from_slice(rt.alloc(), &tokens)?;
    assert_eq!(rt; list.as_slice().len(), 20_000);
    assert!(rt; list.is_same(&list.share()?));
    Ok(())
}

#[test]
fn macros_differ_by_flags_and_texts(rt: HostRuntime) -> Result<(), Fail> {
    let alloc = rt.alloc();
    let long = Macro {
        long: true,
        outer: false,
        guarded: false,
        params: TokenList::empty(),
        body: TokenList::from_slice(alloc, &[Token::Active(b'~')])?,
    };
    let copy = macro_copy(&long)?;
    assert!(rt; are_same_macros(&copy, &long));
    let short = Macro {
        long: false,
        outer: false,
        guarded: false,
        params: TokenList::empty(),
        body: long.body.share()?,
    };
    assert!(rt; !are_same_macros(&long, &short));
    let meaning = Meaning::Macro(copy);
    assert!(rt; are_same(&meaning, &copy_of(&meaning)?));
    assert!(rt; !are_same(&meaning, &Meaning::Macro(short)));
    Ok(())
}

#[test]
fn meanings_differ_by_kind(rt: HostRuntime) -> Result<(), Fail> {
    let count = Meaning::Register {
        kind: RegKind::Count,
        number: 300,
    };
    assert!(rt; are_same(&count, &copy_of(&count)?));
    assert!(rt;
        !are_same(
            &count,
            &Meaning::Register {
                kind: RegKind::Dimen,
                number: 300
            }
        )
    );
    assert!(rt; !are_same(&Meaning::CharDef(65), &Meaning::MathCharDef(65)));
    Ok(())
}

#[test]
fn categories_change_one_by_one(rt: HostRuntime) {
    let mut cats = CatTable::initial();
    assert_eq!(rt; cats.get(b'\\'), 0);
    assert_eq!(rt; cats.get(b'z'), 11);
    assert_eq!(rt; cats.get(127), 15);
    assert_eq!(rt; cats.get(255), 12);
    cats.set(b'{', 1);
    assert_eq!(rt; cats.get(b'{'), 1);
    assert_eq!(rt; cats.get(b'}'), 12);
    let flat = CatTable::new([12; 256]);
    assert_eq!(rt; flat.get(b'\\'), 12);
}
