//! The reader on a font of two characters, and on the same font with bytes changed.

use super::*;
use std::alloc::Global;
use std::process::Abort;
use std::test::Fail;

/// A is 5pt wide, B 10pt, both 7.5pt high; A followed by A has a kern of -1.25pt.
const FONT: [u8; 104] = [
    0x00, 0x1a, 0x00, 0x02, 0x00, 0x41, 0x00, 0x42, // lf lh bc ec
    0x00, 0x03, 0x00, 0x02, 0x00, 0x01, 0x00, 0x01, // nw nh nd ni
    0x00, 0x01, 0x00, 0x01, 0x00, 0x00, 0x00, 0x07, // nl nk ne np
    0x01, 0x02, 0x03, 0x04, 0x00, 0xa0, 0x00, 0x00, // 24: checksum, design size
    0x01, 0x10, 0x01, 0x00, 0x02, 0x10, 0x00, 0x00, // 32: characters
    0x00, 0x00, 0x00, 0x00, 0x00, 0x08, 0x00, 0x00, // 40: widths
    0x00, 0x10, 0x00, 0x00, 0x00, 0x00, 0x00, 0x00, // 52: heights
    0x00, 0x0c, 0x00, 0x00, 0x00, 0x00, 0x00, 0x00, // 60: depth
    0x00, 0x00, 0x00, 0x00, 0x80, 0x41, 0x80, 0x00, // 64: italic correction, 68: instruction
    0xff, 0xfe, 0x00, 0x00, 0x00, 0x00, 0x00, 0x00, // 72: kern, 76: parameters
    0x00, 0x04, 0x00, 0x00, 0x00, 0x02, 0x00, 0x00, // 80
    0x00, 0x01, 0x00, 0x00, 0x00, 0x08, 0x00, 0x00, // 88
    0x00, 0x10, 0x00, 0x00, 0x00, 0x00, 0x00, 0x00, // 96
];

fn changed(changes: &[(usize, u8)]) -> [u8; 104] {
    let mut font = FONT;
    for (place, byte) in changes {
        if *place < 104 {
            font[*place] = *byte;
        }
    }
    font
}

fn refused(rt: &impl Abort, alloc: Global, changes: &[(usize, u8)], error: TfmError) {
    let font = changed(changes);
    assert_eq!(rt; read_tfm(alloc, &font, Size::Design).err(), Some(error));
}

#[test]
fn reads_the_font_at_its_design_size(rt: HostRuntime) -> Result<(), Fail> {
    let metrics = read_tfm(rt.alloc(), &FONT, Size::Design)?;
    assert!(rt; metrics.exists(b'A') && metrics.exists(b'B') && !metrics.exists(b'C'));
    assert_eq!(rt; metrics.width(b'A'), 327680);
    assert_eq!(rt; metrics.width(b'B'), 655360);
    assert_eq!(rt; metrics.width(b'@'), 0);
    assert_eq!(rt; metrics.height(b'A'), 491520);
    assert_eq!(rt; metrics.depth(b'A'), 0);
    assert_eq!(rt; metrics.italic(b'A'), 0);
    assert_eq!(rt; metrics.params(), 7);
    assert_eq!(rt; metrics.param(2), 163840);
    assert_eq!(rt; metrics.param(0), 0);
    assert_eq!(rt; metrics.param(8), 0);
    assert_eq!(rt; metrics.checksum(), 0x0102_0304);
    assert_eq!(rt; metrics.size(), 655360);
    assert_eq!(rt; metrics.design(), 655360);
    assert_eq!(rt; metrics.boundary(), None);
    assert_eq!(rt; metrics.action(Some(b'A'), b'A'), Action::Kern(-81920));
    assert_eq!(rt; metrics.action(Some(b'A'), b'B'), Action::Nothing);
    assert_eq!(rt; metrics.action(None, b'A'), Action::Nothing);
    Ok(())
}

#[test]
fn reads_the_font_at_other_sizes(rt: HostRuntime) -> Result<(), Fail> {
    let half = read_tfm(rt.alloc(), &FONT, Size::At(327680))?;
    assert_eq!(rt; half.width(b'A'), 163840);
    assert_eq!(rt; half.design(), 655360);
    let magnified = read_tfm(rt.alloc(), &FONT, Size::Scaled(1200))?;
    assert_eq!(rt; magnified.size(), 786432);
    assert_eq!(rt; magnified.width(b'A'), 393216);
    let greatest = read_tfm(rt.alloc(), &FONT, Size::At(134217727))?;
    assert_eq!(rt; greatest.width(b'B'), 134217712);
    Ok(())
}

/// The same font with 2500 instructions, 2500 kerns and 2700 parameters: 30,868 bytes.
fn large_font() -> [u8; 30_868] {
    let mut font = [0; 30_868];
    font[..68].copy_from_slice(&FONT[..68]);
    font[0] = 0x1e;
    font[1] = 0x25;
    font[16] = 0x09;
    font[17] = 0xc4;
    font[18] = 0x09;
    font[19] = 0xc4;
    font[22] = 0x0a;
    font[23] = 0x8c;
    for i in 0..2500 {
        font[68 + 4 * i] = 0x80;
        font[69 + 4 * i] = b'A';
        font[70 + 4 * i] = 0x80;
    }
    font
}

#[test]
fn reads_a_font_of_30_kib(rt: HostRuntime) -> Result<(), Fail> {
    let metrics = read_tfm(rt.alloc(), &large_font(), Size::Design)?;
    assert_eq!(rt; metrics.params(), 2700);
    assert_eq!(rt; metrics.width(b'A'), 327680);
    assert_eq!(rt; metrics.action(Some(b'A'), b'A'), Action::Kern(0));
    Ok(())
}

#[test]
fn refuses_each_beginning_of_the_font(rt: HostRuntime) {
    for count in 0..104 {
        let error = read_tfm(rt.alloc(), &FONT[..count], Size::Design).err();
        assert_eq!(rt; error, Some(TfmError::TooShort), "{count} bytes");
    }
}

#[test]
fn refuses_lengths_and_sizes(rt: HostRuntime) {
    let alloc = rt.alloc();
    refused(&rt, alloc, &[(1, 0x1b)], TfmError::LengthsDisagree);
    refused(&rt, alloc, &[(23, 6)], TfmError::LengthsDisagree);
    refused(&rt, alloc, &[(0, 0x80)], TfmError::LengthsDisagree);
    // a header of one word, a first character past the last, a last above 255, and no widths
    refused(&rt, alloc, &[(1, 0x19), (3, 1)], TfmError::LengthsDisagree);
    refused(
        &rt,
        alloc,
        &[(1, 0x18), (5, 0x44)],
        TfmError::LengthsDisagree,
    );
    refused(&rt, alloc, &[(4, 1), (6, 1)], TfmError::LengthsDisagree);
    refused(&rt, alloc, &[(1, 0x17), (9, 0)], TfmError::LengthsDisagree);
    // a design size below 1pt or 0
    refused(&rt, alloc, &[(29, 0x0f)], TfmError::BadSize);
    refused(&rt, alloc, &[(28, 0x80)], TfmError::BadSize);
    let large = changed(&[(28, 0x7f)]);
    assert_eq!(rt;
        read_tfm(alloc, &large, Size::Scaled(1010)).err(),
        Some(TfmError::BadSize)
    );
}

#[test]
fn refuses_indices_of_characters(rt: HostRuntime) {
    let alloc = rt.alloc();
    refused(&rt, alloc, &[(32, 3)], TfmError::BadIndex(32));
    refused(&rt, alloc, &[(33, 0x20)], TfmError::BadIndex(32));
    refused(&rt, alloc, &[(33, 0x11)], TfmError::BadIndex(32));
    refused(&rt, alloc, &[(34, 5)], TfmError::BadIndex(32));
    refused(&rt, alloc, &[(35, 1)], TfmError::BadIndex(32));
    refused(&rt, alloc, &[(38, 3)], TfmError::BadIndex(36));
    refused(&rt, alloc, &[(38, 2), (39, 0x43)], TfmError::BadIndex(36));
    // A and B are each other's larger characters, A is its own, and there B has a bad index besides
    let pair = [(34, 2), (35, 0x42), (38, 2), (39, 0x41)];
    refused(&rt, alloc, &pair, TfmError::Loop(36));
    refused(&rt, alloc, &[(34, 2), (35, 0x41)], TfmError::Loop(32));
    refused(
        &rt,
        alloc,
        &[(34, 2), (35, 0x41), (36, 3)],
        TfmError::BadIndex(36),
    );
}

#[test]
fn refuses_numbers(rt: HostRuntime) {
    let alloc = rt.alloc();
    refused(&rt, alloc, &[(43, 1)], TfmError::BadFixword(40));
    refused(&rt, alloc, &[(44, 1)], TfmError::BadFixword(44));
    refused(&rt, alloc, &[(55, 1)], TfmError::BadFixword(52));
    refused(&rt, alloc, &[(56, 1)], TfmError::BadFixword(56));
    refused(&rt, alloc, &[(63, 1)], TfmError::BadFixword(60));
    refused(&rt, alloc, &[(67, 1)], TfmError::BadFixword(64));
    refused(&rt, alloc, &[(72, 1)], TfmError::BadFixword(72));
    refused(&rt, alloc, &[(80, 1)], TfmError::BadFixword(80));
    // a bad number comes before a bad instruction
    refused(&rt, alloc, &[(69, 0x43), (72, 1)], TfmError::BadFixword(72));
}

#[test]
fn refuses_instructions(rt: HostRuntime) {
    let alloc = rt.alloc();
    refused(&rt, alloc, &[(68, 0x81)], TfmError::BadIndex(68));
    refused(&rt, alloc, &[(69, 0x43)], TfmError::BadIndex(68));
    refused(&rt, alloc, &[(70, 0), (71, 0x43)], TfmError::BadIndex(68));
    refused(&rt, alloc, &[(71, 1)], TfmError::BadIndex(68));
    refused(&rt, alloc, &[(68, 0)], TfmError::BadIndex(68));
}

/// The font with a word for an extensible character in front of its parameters, at place 76.
fn with_extensible(repeated: u8) -> [u8; 108] {
    let mut font = [0u8; 108];
    for place in 0..108 {
        font[place] = match place {
            1 => 0x1b,
            21 => 1,
            79 => repeated,
            0..=75 => FONT[place],
            76..=78 => 0,
            _ => FONT[place - 4],
        };
    }
    font
}

#[test]
fn refuses_parts_of_extensible_characters(rt: HostRuntime) {
    let alloc = rt.alloc();
    let absent = read_tfm(alloc, &with_extensible(b'C'), Size::Design).err();
    assert_eq!(rt; absent, Some(TfmError::BadIndex(76)));
    let present = read_tfm(alloc, &with_extensible(b'B'), Size::Design).err();
    assert_eq!(rt; present, None);
}

#[test]
fn goes_along_programs(rt: HostRuntime) -> Result<(), Fail> {
    let ligature = changed(&[(70, 7), (71, 0x42)]);
    let metrics = read_tfm(rt.alloc(), &ligature, Size::Design)?;
    let between = Action::Lig {
        byte: b'B',
        keep_left: true,
        keep_right: true,
        skip: 1,
    };
    assert_eq!(rt; metrics.action(Some(b'A'), b'A'), between);
    let boundary = changed(&[(68, 255), (70, 0)]);
    let metrics = read_tfm(rt.alloc(), &boundary, Size::Design)?;
    assert_eq!(rt; metrics.boundary(), Some(b'A'));
    assert_eq!(rt; metrics.action(None, b'A'), Action::Nothing);
    Ok(())
}

/// The font with a program of four words in place of its one word, at place 68.
fn with_program(program: [u8; 16]) -> [u8; 116] {
    let mut font = [0u8; 116];
    for place in 0..116 {
        font[place] = match place {
            1 => 0x1d,
            17 => 4,
            0..=67 => FONT[place],
            68..=83 => program[place - 68],
            _ => FONT[place - 12],
        };
    }
    font
}

#[test]
fn passes_over_words_of_a_program(rt: HostRuntime) -> Result<(), Fail> {
    // A's program begins at word 1, which is for B and passes over word 2
    let font = with_program([
        129, 0, 0, 1, 1, b'B', 128, 0, 128, b'A', 0, b'B', 255, b'A', 0, 3,
    ]);
    let metrics = read_tfm(rt.alloc(), &font, Size::Design)?;
    assert_eq!(rt; metrics.action(Some(b'A'), b'B'), Action::Kern(-81920));
    assert_eq!(rt; metrics.action(Some(b'A'), b'A'), Action::Nothing);
    let font = with_program([
        129, 0, 0, 1, 0, b'B', 128, 0, 128, b'A', 0, b'B', 255, b'A', 0, 2,
    ]);
    let metrics = read_tfm(rt.alloc(), &font, Size::Design)?;
    let replaced = Action::Lig {
        byte: b'B',
        keep_left: false,
        keep_right: false,
        skip: 0,
    };
    assert_eq!(rt; metrics.action(Some(b'A'), b'A'), replaced);
    assert_eq!(rt; metrics.action(None, b'A'), replaced);
    assert_eq!(rt; metrics.boundary(), None);
    Ok(())
}

#[test]
fn ignores_bytes_after_the_file(rt: HostRuntime) -> Result<(), Fail> {
    let mut longer = [0xff; 108];
    for (place, byte) in FONT.iter().enumerate() {
        longer[place] = *byte;
    }
    let metrics = read_tfm(rt.alloc(), &longer, Size::Design)?;
    assert_eq!(rt; metrics.params(), 7);
    assert_eq!(rt; metrics.width(b'B'), 655360);
    Ok(())
}

#[test]
fn takes_any_slant(rt: HostRuntime) -> Result<(), Fail> {
    let slanted = changed(&[(76, 1)]);
    assert_eq!(rt;
        read_tfm(rt.alloc(), &slanted, Size::Design)?.param(1),
        1048576
    );
    let backwards = changed(&[(76, 0xff), (77, 0xff), (78, 0xff), (79, 0xff)]);
    assert_eq!(rt;
        read_tfm(rt.alloc(), &backwards, Size::Design)?.param(1),
        -1
    );
    Ok(())
}
