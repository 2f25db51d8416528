//! A plain reader of a page, and what it finds in a file.

use crate::tests::files::WORDS_AND_RULE;
use std::alloc::{AllocError, Global};
use std::test::Fail;

/// A letter of a font, or a rule, with its position.
#[derive(Clone, Copy, Debug, PartialEq, Eq)]
enum Item {
    Glyph {
        h: i32,
        v: i32,
        font: u8,
        byte: u8,
    },
    Bar {
        h: i32,
        v: i32,
        height: i32,
        width: i32,
    },
}

/// What reads: where it is, where it is to come back to, the font, and what was set.
#[derive(Drop)]
struct Device {
    h: i32,
    v: i32,
    stack: Vec<(i32, i32)>,
    font: u8,
    items: Vec<Item>,
}

/// The byte at a place, or 0 behind the end.
fn byte_at(bytes: &[u8], at: usize) -> u8 {
    bytes.get(at).copied().unwrap_or(0)
}

/// The number with a sign in the bytes from a place.
fn number(bytes: &[u8], at: usize, count: usize) -> i32 {
    let mut value = if byte_at(bytes, at) < 128 { 0 } else { -1 };
    for i in 0..count {
        let byte = byte_at(bytes, at.saturating_add(i));
        value = i32::wrapping_add(i32::wrapping_mul(value, 256), i32::from(byte));
    }
    value
}

/// A is 5pt wide and B 10pt.
fn width_of(byte: u8) -> i32 {
    if byte == b'A' { 327680 } else { 655360 }
}

impl Device {
    /// Does what the command at a place says, and says how long it is; nothing where it isn't one of a few.
    fn obey(&mut self, bytes: &[u8], at: usize) -> Result<usize, AllocError> {
        let behind = at.saturating_add(1);
        match byte_at(bytes, at) {
            byte if byte < 128 => self.set(byte)?,
            137 => {
                let (height, width) = (
                    number(bytes, behind, 4),
                    number(bytes, behind.saturating_add(4), 4),
                );
                self.items.push(Item::Bar {
                    h: self.h,
                    v: self.v,
                    height,
                    width,
                })?;
                return Ok(9);
            }
            139 => return Ok(45),
            141 => self.stack.push((self.h, self.v))?,
            142 => self.come_back(),
            159 => {
                self.v = self.v.wrapping_add(number(bytes, behind, 3));
                return Ok(4);
            }
            171 => self.font = 0,
            243 => return Ok(16 + usize::from(byte_at(bytes, at.saturating_add(15)))),
            247 => return Ok(15 + usize::from(byte_at(bytes, at.saturating_add(14)))),
            _ => (),
        }
        Ok(1)
    }

    fn set(&mut self, byte: u8) -> Result<(), AllocError> {
        self.items.push(Item::Glyph {
            h: self.h,
            v: self.v,
            font: self.font,
            byte,
        })?;
        self.h = self.h.wrapping_add(width_of(byte));
        Ok(())
    }

    fn come_back(&mut self) {
        if let Some((h, v)) = self.stack.pop() {
            self.h = h;
            self.v = v;
        }
    }
}

/// What is set up to the end of the first page.
fn first_page(alloc: Global, bytes: &[u8]) -> Result<Vec<Item>, AllocError> {
    let mut device = Device {
        h: 0,
        v: 0,
        stack: Vec::new(alloc),
        font: 0,
        items: Vec::new(alloc),
    };
    let mut at = 0;
    for _ in 0..bytes.len() {
        if byte_at(bytes, at) == 140 {
            break;
        }
        at = device.obey(bytes, at)?.saturating_add(at);
    }
    Ok(device.items)
}

#[test]
fn two_letters_and_a_rule_are_found_where_they_stand(rt: HostRuntime) -> Result<(), Fail> {
    let items = first_page(rt.alloc(), &WORDS_AND_RULE)?;
    let wanted = [
        Item::Glyph {
            h: 0,
            v: 491520,
            font: 0,
            byte: b'A',
        },
        Item::Glyph {
            h: 327680,
            v: 491520,
            font: 0,
            byte: b'B',
        },
        Item::Bar {
            h: 0,
            v: 557056,
            height: 65536,
            width: 983040,
        },
    ];
    assert_eq!(rt; items.as_slice(), wanted.as_slice());
    Ok(())
}
