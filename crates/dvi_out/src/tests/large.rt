//! A page of many letters and movements.

use crate::tests::material::{body, hbox, kern, letter};
use nodes::Node;
use std::alloc::{AllocError, Global};
use std::test::Fail;

/// So many letters with kerns between them, of 20 widths in turn.
fn letters(alloc: Global, count: u32) -> Result<Vec<Node>, AllocError> {
    let mut list = Vec::new(alloc);
    for i in 0..count {
        list.push(letter(b'A'))?;
        list.push(kern(100 + (i % 20) as i32))?;
    }
    Ok(list)
}

/// The first of the 20 widths is kept as the first word, the second as the second, and the others are carried each time in
/// two bytes. So are the first two once; behind the last letter nothing moves. One byte chooses the font.
#[test]
fn two_of_20_widths_that_come_in_turn_are_repeated(rt: HostRuntime) -> Result<(), Fail> {
    let alloc = rt.alloc();
    let page = body(alloc, &hbox(letters(alloc, 100000)?))?;
    assert_eq!(rt; page.len(), 1 + 5000 * (20 + 2 + 18 * 2) + 2 * (2 - 1) - 2);
    Ok(())
}
