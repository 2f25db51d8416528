//! Numbers, messages and limits, and the count of steps.
use crate::{Budget, Cap, Kind, Stop, Text};
use std::alloc::{AllocError, Global};
use std::test::Fail;

fn text_of(alloc: Global, bytes: &[u8]) -> Result<Text, AllocError> {
    Ok(Text::new(Vec::from_slice(alloc, bytes)?))
}

fn message(alloc: Global, kind: &Kind) -> Result<Vec<u8>, AllocError> {
    kind.text(alloc)
}

#[test]
fn messages_fill_their_places(rt: HostRuntime) -> Result<(), Fail> {
    let alloc = rt.alloc();
    let kind = Kind::UseDoesntMatch(text_of(alloc, b"\\cs")?);
    assert_eq!(rt; kind.number(), 15);
    assert_eq!(rt;
        message(alloc, &kind)?.as_slice(),
        b"Use of \\cs doesn't match its definition".as_slice()
    );

    let kind = Kind::WrongMode(
        text_of(alloc, b"\\vskip")?,
        text_of(alloc, b"horizontal mode")?,
    );
    assert_eq!(rt; kind.number(), 32);
    assert_eq!(rt;
        message(alloc, &kind)?.as_slice(),
        b"You can't use \\vskip in horizontal mode".as_slice()
    );

    let kind = Kind::LeftOut(text_of(alloc, b"operand")?);
    assert_eq!(rt; kind.number(), 54);
    assert_eq!(rt;
        message(alloc, &kind)?.as_slice(),
        b"Left out: operand".as_slice()
    );

    let kind = Kind::UserMessage(text_of(alloc, b"hi")?);
    assert_eq!(rt; message(alloc, &kind)?.as_slice(), b"hi".as_slice());
    Ok(())
}

#[test]
fn messages_without_places(rt: HostRuntime) -> Result<(), Fail> {
    let alloc = rt.alloc();
    assert_eq!(rt; Kind::NoEnd.number(), 51);
    assert_eq!(rt;
        message(alloc, &Kind::NoEnd)?.as_slice(),
        b"No \\end found".as_slice()
    );
    assert_eq!(rt;
        message(alloc, &Kind::TooManyRightBraces)?.as_slice(),
        b"Too many }'s".as_slice()
    );
    assert_eq!(rt; Cap::Inputs.text(), b"text input levels=15".as_slice());
    assert_eq!(rt; Cap::Items.limit(), 16_777_215);
    assert_eq!(rt; Stop::Trouble(Kind::InvalidChar).number(), 1);
    assert_eq!(rt; Stop::Capacity(Cap::Line).number(), 2);
    assert_eq!(rt; Stop::OutOfMemory.number(), 6);
    Ok(())
}

#[test]
fn two_steps_can_be_spent(rt: HostRuntime) -> Result<(), Fail> {
    let mut budget = Budget::new(2);
    assert!(rt; !budget.spent());
    assert!(rt; budget.spend());
    budget.step()?;
    assert!(rt; budget.spent());
    assert!(rt; !budget.spend());
    assert_eq!(rt; budget.used(), 2);
    Ok(())
}
