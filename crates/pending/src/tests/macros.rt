//! Texts of macros, lists in lists, and tokens that are put back.
use super::reading::{Call, show};
use std::test::Fail;

#[test]
fn nine_arguments_take_their_places(rt: HostRuntime) -> Result<(), Fail> {
    // the third is empty, and the second stands twice
    let arguments = &["a", "bb", "", "d", "e", "f", "g", "h", "ij"];
    let calls = [Call::Macro("x9y1z2233456789", arguments), Call::All];
    let shown = show(rt.alloc(), "", calls.as_slice())?;
    assert_eq!(rt;
        shown.text.as_slice(),
        b"xijyazbbbbdefghij[par]<S>".as_slice()
    );
    Ok(())
}

#[test]
fn a_list_in_a_list_in_a_list(rt: HostRuntime) -> Result<(), Fail> {
    let calls = [
        Call::List("ad"),
        Call::Next,
        Call::List("bc"),
        Call::Next,
        Call::List("xy"),
        Call::All,
    ];
    let shown = show(rt.alloc(), "", calls.as_slice())?;
    assert_eq!(rt; shown.text.as_slice(), b"abxycd[par]<S>".as_slice());
    Ok(())
}

#[test]
fn tokens_that_are_put_back_keep_their_flags(rt: HostRuntime) -> Result<(), Fail> {
    let calls = [
        Call::List("z"),
        Call::Back {
            byte: b'c',
            noexpand: false,
            paid: false,
        },
        Call::Back {
            byte: b'b',
            noexpand: true,
            paid: true,
        },
        Call::Back {
            byte: b'a',
            noexpand: false,
            paid: true,
        },
        Call::Next,
        Call::Next,
        Call::Next,
        Call::Next,
    ];
    let shown = show(rt.alloc(), "", calls.as_slice())?;
    assert_eq!(rt; shown.text.as_slice(), b"a~bcz".as_slice());
    // the steps of c and z
    assert_eq!(rt; shown.steps, 2);
    Ok(())
}
