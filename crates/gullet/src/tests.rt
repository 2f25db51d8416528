//! What a gullet has at the start, and what is put in front of it.
use crate::Gullet;
use std::test::Fail;
use tokens::{Token, TokenList};

#[test]
fn tokens_are_put_in_front_of_the_first_line(rt: HostRuntime) -> Result<(), Fail> {
    let alloc = rt.alloc();
    let mut gullet = Gullet::new(alloc, b"\\relax".to_vec(alloc)?);
    let letters = [Token::Char { cat: 11, byte: 97 }; 2000];
    gullet.push_list(TokenList::from_slice(alloc, &letters)?)?;
    gullet.back(Token::Active(126), true)?;
    assert_eq!(rt; (gullet.line(), gullet.files()), (0, 0));
    Ok(())
}
