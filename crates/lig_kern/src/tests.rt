//! Words set in small fonts. A list is shown as a text: a character as itself, a kern as `+` or `-` by its sign, and a
//! ligature by its character and what it stands for in brackets, with `|` on each side where it also stands for the
//! boundary.

use crate::Setter;
use nodes::{KernKind, LigNode, Node};
use std::alloc::{AllocError, Global};
use std::process::Abort;
use std::test::Fail;
use tfm::{Metrics, Size, read_tfm};
use tokens::{Budget, Stop};

/// A is 5pt wide, B 10pt, both 7.5pt high; A followed by A has a kern of -1.25pt.
const KERN_FONT: [u8; 104] = [
    0x00, 0x1a, 0x00, 0x02, 0x00, 0x41, 0x00, 0x42, // lf lh bc ec
    0x00, 0x03, 0x00, 0x02, 0x00, 0x01, 0x00, 0x01, // nw nh nd ni
    0x00, 0x01, 0x00, 0x01, 0x00, 0x00, 0x00, 0x07, // nl nk ne np
    0x01, 0x02, 0x03, 0x04, 0x00, 0xa0, 0x00, 0x00, // 24: checksum, design size
    0x01, 0x10, 0x01, 0x00, 0x02, 0x10, 0x00, 0x00, // 32: characters
    0x00, 0x00, 0x00, 0x00, 0x00, 0x08, 0x00, 0x00, // 40: widths
    0x00, 0x10, 0x00, 0x00, 0x00, 0x00, 0x00, 0x00, // 52: heights
    0x00, 0x0c, 0x00, 0x00, 0x00, 0x00, 0x00, 0x00, // 60: depth
    0x00, 0x00, 0x00, 0x00, 0x80, 0x41, 0x80, 0x00, // 64: italic correction, 68: instruction
    0xff, 0xfe, 0x00, 0x00, 0x00, 0x00, 0x00, 0x00, // 72: kern, 76: parameters
    0x00, 0x04, 0x00, 0x00, 0x00, 0x02, 0x00, 0x00, // 80
    0x00, 0x01, 0x00, 0x00, 0x00, 0x08, 0x00, 0x00, // 88
    0x00, 0x10, 0x00, 0x00, 0x00, 0x00, 0x00, 0x00, // 96
];

/// A, B and C are 5pt wide. A before B, A before the right boundary, and the left boundary before A have commands that
/// put C in, at the bytes 70, 74 and 86. A before C has a kern above 0, C before B one below 0.
const LIGATURE_FONT: [u8; 100] = [
    0x00, 0x19, 0x00, 0x02, 0x00, 0x41, 0x00, 0x43, // lf lh bc ec
    0x00, 0x02, 0x00, 0x01, 0x00, 0x01, 0x00, 0x01, // nw nh nd ni
    0x00, 0x07, 0x00, 0x02, 0x00, 0x00, 0x00, 0x00, // nl nk ne np
    0x00, 0x00, 0x00, 0x00, 0x00, 0xa0, 0x00, 0x00, // 24: checksum, design size
    0x01, 0x00, 0x01, 0x01, 0x01, 0x00, 0x00, 0x00, // 32: A, B
    0x01, 0x00, 0x01, 0x04, // 40: C
    0x00, 0x00, 0x00, 0x00, 0x00, 0x08, 0x00, 0x00, // 44: widths
    0x00, 0x00, 0x00, 0x00, 0x00, 0x00, 0x00, 0x00, // 52: height, depth
    0x00, 0x00, 0x00, 0x00, // 60: italic correction
    0xff, 0x7a, 0x00, 0x00, // 64: z stands for the right boundary
    0x00, 0x42, 0x00, 0x43, // 68: A before B
    0x00, 0x7a, 0x00, 0x43, // 72: A before the right boundary
    0x80, 0x43, 0x80, 0x00, // 76: A before C
    0x80, 0x42, 0x80, 0x01, // 80: C before B
    0x80, 0x41, 0x00, 0x43, // 84: the left boundary before A
    0xff, 0x00, 0x00, 0x05, // 88: where the left boundary's program begins
    0x00, 0x01, 0x00, 0x00, 0xff, 0xff, 0x00, 0x00, // 92: kerns
];

/// The font with some bytes changed.
fn ligature_font(alloc: Global, changes: &[(usize, u8)]) -> Result<Metrics, Fail> {
    let mut font = LIGATURE_FONT;
    for (place, byte) in changes {
        if *place < 100 {
            font[*place] = *byte;
        }
    }
    Ok(read_tfm(alloc, &font, Size::Design)?)
}

fn show(alloc: Global, list: &[Node]) -> Result<Vec<u8>, AllocError> {
    let mut text = Vec::new(alloc);
    for node in list {
        match node {
            Node::Char { byte, .. } => text.push(*byte)?,
            Node::Kern { width, .. } => text.push(if *width < 0 { b'-' } else { b'+' })?,
            Node::Lig(ligature) => show_ligature(ligature.get(), &mut text)?,
            _ => text.push(b'?')?,
        }
    }
    Ok(text)
}

fn show_ligature(ligature: &LigNode, text: &mut Vec<u8>) -> Result<(), AllocError> {
    if ligature.left {
        text.push(b'|')?;
    }
    text.push(ligature.byte)?;
    text.push(b'[')?;
    for byte in ligature.source.as_slice() {
        text.push(*byte)?;
    }
    text.push(b']')?;
    if ligature.right {
        text.push(b'|')?;
    }
    Ok(())
}

/// A word: what is fed, and whether a boundary stands at its left and at its right.
#[derive(Clone, Copy)]
struct Word<'a> {
    left: bool,
    fed: &'a [u8],
    right: bool,
}

fn without_boundaries(fed: &[u8]) -> Word<'_> {
    Word {
        left: false,
        fed,
        right: false,
    }
}

fn with_boundaries(fed: &[u8]) -> Word<'_> {
    Word {
        left: true,
        fed,
        right: true,
    }
}

/// The list of a word, shown, with at most nine ligatures.
fn set(alloc: Global, font: &Metrics, word: Word) -> Result<Vec<u8>, Stop> {
    let mut budget = Budget::new(9);
    let mut setter = Setter::new(alloc, 1, word.left);
    for byte in word.fed {
        setter.feed(font, *byte, &mut budget)?;
    }
    let list = setter.close(font, word.right, &mut budget)?;
    Ok(show(alloc, list.as_slice())?)
}

/// Sets a word in the font with some bytes changed.
fn expect(
    rt: &impl Abort,
    alloc: Global,
    changes: &[(usize, u8)],
    word: Word,
    text: &[u8],
) -> Result<(), Fail> {
    let font = ligature_font(alloc, changes)?;
    let list = set(alloc, &font, word)?;
    assert_eq!(rt; list.as_slice(), text);
    Ok(())
}

#[test]
fn a_kern_comes_between_two_characters(rt: HostRuntime) -> Result<(), Fail> {
    let font = read_tfm(rt.alloc(), &KERN_FONT, Size::Design)?;
    let mut budget = Budget::new(0);
    let mut setter = Setter::new(rt.alloc(), 3, false);
    setter.feed(&font, b'A', &mut budget)?;
    setter.feed(&font, b'A', &mut budget)?;
    let list = setter.close(&font, false, &mut budget)?;
    assert!(rt; is_a_kern_a(list.as_slice()));
    Ok(())
}

fn is_a_kern_a(list: &[Node]) -> bool {
    match list {
        [first, kern, last] => is_letter_a(first) && is_kern(kern) && is_letter_a(last),
        _ => false,
    }
}

fn is_kern(node: &Node) -> bool {
    matches!(
        node,
        Node::Kern {
            width: -81920,
            how: KernKind::Font,
        }
    )
}

fn is_letter_a(node: &Node) -> bool {
    matches!(
        node,
        Node::Char {
            font: 3,
            byte: b'A',
            width: 327680,
            height: 491520,
            depth: 0,
            italic: 0,
        }
    )
}

#[test]
fn each_kind_of_ligature_keeps_and_passes_what_it_says(rt: HostRuntime) -> Result<(), Fail> {
    let kinds: [(u8, &[u8]); 8] = [
        (0, b"C[AB]"),
        (1, b"C[A]-B"),
        (2, b"A+C[B]"),
        (3, b"A+C[]-B"),
        (5, b"C[A]B"),
        (6, b"AC[B]"),
        (7, b"AC[]-B"),
        (11, b"AC[]B"),
    ];
    for (kind, text) in kinds {
        expect(
            &rt,
            rt.alloc(),
            &[(70, kind)],
            without_boundaries(b"AB"),
            text,
        )?;
    }
    Ok(())
}

#[test]
fn boundaries_at_both_sides_make_ligatures(rt: HostRuntime) -> Result<(), Fail> {
    let alloc = rt.alloc();
    let kinds = [(74, 3), (86, 7)];
    expect(&rt, alloc, &kinds, with_boundaries(b"A"), b"|C[]A+C[]|")?;
    expect(&rt, alloc, &kinds, without_boundaries(b"A"), b"A")?;
    expect(&rt, alloc, &kinds, with_boundaries(b""), b"")
}

#[test]
fn one_ligature_stands_for_both_boundaries(rt: HostRuntime) -> Result<(), Fail> {
    // the left boundary and A make C, which makes A with the right boundary
    let changes = [(81, b'z'), (82, 0), (83, b'A')];
    expect(&rt, rt.alloc(), &changes, with_boundaries(b"A"), b"|A[A]|")
}

#[test]
fn the_cursor_passes_over_characters_that_come_later(rt: HostRuntime) -> Result<(), Fail> {
    let alloc = rt.alloc();
    expect(
        &rt,
        alloc,
        &[(70, 8)],
        without_boundaries(b"ABBCB"),
        b"C[AB]BC-B",
    )?;
    expect(
        &rt,
        alloc,
        &[(70, 8), (86, 7)],
        with_boundaries(b"AB"),
        b"|C[]C[AB]",
    )
}

#[test]
fn a_program_skips_instructions(rt: HostRuntime) -> Result<(), Fail> {
    let alloc = rt.alloc();
    let changes = [(68, 1), (86, 7)];
    expect(&rt, alloc, &changes, with_boundaries(b"A"), b"|C[]A")?;
    expect(&rt, alloc, &changes, without_boundaries(b"AC"), b"A+C")
}

#[test]
fn a_ligature_makes_a_further_one(rt: HostRuntime) -> Result<(), Fail> {
    let changes = [(82, 0), (83, b'A')];
    expect(
        &rt,
        rt.alloc(),
        &changes,
        without_boundaries(b"ABBB"),
        b"C[ABBB]",
    )
}

#[test]
fn a_program_without_end_uses_up_the_steps(rt: HostRuntime) -> Result<(), Fail> {
    let mut bytes = KERN_FONT;
    bytes[70] = 2;
    bytes[71] = b'A';
    let font = read_tfm(rt.alloc(), &bytes, Size::Design)?;
    let mut budget = Budget::new(1000);
    let mut setter = Setter::new(rt.alloc(), 1, false);
    setter.feed(&font, b'A', &mut budget)?;
    assert_eq!(rt; budget.used(), 0);
    let fed = setter.feed(&font, b'A', &mut budget);
    let spent = matches!(fed, Err(Stop::Spent));
    assert!(rt; spent && budget.used() == 1000);
    let closed = setter.close(&font, true, &mut budget);
    let still_spent = matches!(closed, Err(Stop::Spent));
    assert!(rt; still_spent);
    Ok(())
}
