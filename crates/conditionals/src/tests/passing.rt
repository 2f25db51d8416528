//! Texts behind a condition, and the place at which passing over them ends.
use crate::{Skip, SkipScan};
use std::test::Fail;
use tokens::{Meaning, codes};

/// A letter, which is of no account.
const LETTER: u16 = 65535;

fn meaning_of(code: u16) -> Meaning {
    if code == LETTER {
        Meaning::Char { cat: 11, byte: 97 }
    } else {
        Meaning::Primitive(code)
    }
}

/// How many tokens are taken until the scan stops, and the word at which it does; 9 where it doesn't stop.
fn passed(to: u32, text: &[u16]) -> (usize, u8) {
    let mut scan = SkipScan::new(to);
    for (i, code) in text.iter().enumerate() {
        if let Skip::Stopped { word } = scan.take(&meaning_of(*code)) {
            return (i, word);
        }
    }
    (text.len(), 9)
}

#[test]
fn cases_are_counted_at_depth_0(rt: HostRuntime) -> Result<(), Fail> {
    // a \or \ifx \or \else \or \fi \or b \else c \or d \fi
    let text = [
        LETTER,
        codes::OR,
        codes::IFX,
        codes::OR,
        codes::ELSE,
        codes::OR,
        codes::FI,
        codes::OR,
        LETTER,
        codes::ELSE,
        LETTER,
        codes::OR,
        LETTER,
        codes::FI,
    ];
    assert_eq!(rt; passed(1, text.as_slice()), (1, 2));
    assert_eq!(rt; passed(2, text.as_slice()), (7, 2));
    assert_eq!(rt; passed(3, text.as_slice()), (9, 1));
    assert_eq!(rt; passed(0, text.as_slice()), (9, 1));
    Ok(())
}

#[test]
fn conditions_of_each_kind_nest(rt: HostRuntime) -> Result<(), Fail> {
    let openers = [
        codes::IF,
        codes::IFCAT,
        codes::IFNUM,
        codes::IFDIM,
        codes::IFODD,
        codes::IFVMODE,
        codes::IFHMODE,
        codes::IFMMODE,
        codes::IFINNER,
        codes::IFVOID,
        codes::IFHBOX,
        codes::IFVBOX,
        codes::IFX,
        codes::IFEOF,
        codes::IFTRUE,
        codes::IFFALSE,
        codes::IFCASE,
        codes::IFDEFINED,
        codes::IFCSNAME,
        codes::IFFONTCHAR,
    ];
    for opener in &openers {
        // \if.. \else \fi \else: the second \else is the one that counts
        let text = [*opener, codes::ELSE, codes::FI, codes::ELSE];
        assert_eq!(rt; passed(0, text.as_slice()), (3, 1));
    }
    Ok(())
}

#[test]
fn the_fi_of_depth_0_ends_a_text(rt: HostRuntime) -> Result<(), Fail> {
    // \iftrue \ifodd \else \fi \fi \fi: the third \fi has no opener here
    let text = [
        codes::IFTRUE,
        codes::IFODD,
        codes::ELSE,
        codes::FI,
        codes::FI,
        codes::FI,
    ];
    assert_eq!(rt; passed(0, text.as_slice()), (5, 0));
    assert_eq!(rt; passed(0, &text[..5]), (5, 9));
    assert_eq!(rt; passed(1, [LETTER, codes::FI].as_slice()), (1, 0));
    Ok(())
}
