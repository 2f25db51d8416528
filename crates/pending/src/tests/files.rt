//! Files in files, pseudo-files, and the first line.
use super::reading::{Call, show};
use std::test::Fail;

#[test]
fn endinput_ends_the_inner_file(rt: HostRuntime) -> Result<(), Fail> {
    let calls = [
        Call::File("a\nb"),
        Call::Next,
        Call::File("c\nd"),
        Call::EndInput,
        Call::All,
    ];
    let shown = show(rt.alloc(), "", calls.as_slice())?;
    assert_eq!(rt; shown.text.as_slice(), b"ac<F>b <E><F>[par]<S>".as_slice());
    Ok(())
}

#[test]
fn the_line_is_that_of_the_inner_file(rt: HostRuntime) -> Result<(), Fail> {
    let calls = [
        Call::File("a\nb"),
        Call::Next,
        Call::Next,
        Call::File("c\nd"),
    ];
    for (count, told) in [(1, (1, 1)), (3, (1, 2)), (4, (2, 1))] {
        let shown = show(rt.alloc(), "", &calls[..count])?;
        assert_eq!(rt; (shown.files, shown.line), told);
    }
    Ok(())
}

#[test]
fn a_pseudo_file_is_split_at_its_marks(rt: HostRuntime) -> Result<(), Fail> {
    let calls = [Call::Pseudo("a!b!", 33), Call::All];
    let opened = show(rt.alloc(), "", &calls[..1])?;
    assert_eq!(rt; (opened.steps, opened.line, opened.files), (0, 0, 0));
    let read = show(rt.alloc(), "", calls.as_slice())?;
    assert_eq!(rt; read.text.as_slice(), b"a b <E><S>[par]<S>".as_slice());
    // a line and two tokens, twice, and the first line with its token
    assert_eq!(rt; read.steps, 8);
    Ok(())
}

#[test]
fn a_first_line_of_blanks_has_nothing_left(rt: HostRuntime) -> Result<(), Fail> {
    let calls = [Call::BeginBehindName, Call::All];
    let shown = show(rt.alloc(), "   ", calls.as_slice())?;
    assert_eq!(rt; shown.text.as_slice(), b"<S>".as_slice());
    assert_eq!(rt; shown.steps, 1);
    Ok(())
}
