//! Worked lines: what is seen of them by the rules of The TeXbook, chapter 8, with the categories of
//! chapter 7.
use crate::{Eye, Glance, Seen};
use std::alloc::{AllocError, Global};
use std::process::Abort;
use std::test::Fail;
use tokens::{CatTable, Stop};

/// The usual categories of the bytes that the tests use.
fn usual_categories() -> CatTable {
    let mut cats = CatTable::new([12; 256]);
    for byte in b'a'..=b'z' {
        cats.set(byte, 11);
    }
    for byte in b'A'..=b'Z' {
        cats.set(byte, 11);
    }
    cats.set(b'\\', 0);
    cats.set(b'\r', 5);
    cats.set(b'^', 7);
    cats.set(0, 9);
    cats.set(b' ', 10);
    cats.set(b'~', 13);
    cats.set(b'%', 14);
    cats.set(127, 15);
    cats
}

fn file_eye(alloc: Global, text: &[u8], one_if_empty: bool) -> Result<Eye, AllocError> {
    Ok(Eye::new(alloc, Vec::from_slice(alloc, text)?, 10, one_if_empty))
}

/// An eye whose one line of these bytes was taken with a carriage return at its end.
fn line_eye(alloc: Global, line: &[u8]) -> Result<Eye, Stop> {
    let mut eye = Eye::new(alloc, Vec::from_slice(alloc, line)?, -1, true);
    eye.next_line(13)?;
    Ok(eye)
}

/// One thing that is seen, in words: `cat/byte`, the bytes of a name in brackets.
fn in_words(alloc: Global, seen: Result<Seen, Stop>) -> Result<String, AllocError> {
    match seen {
        Ok(Seen::Char { cat, byte }) => format!(in alloc; "{cat}/{byte} "),
        Ok(Seen::Active(byte)) => format!(in alloc; "active {byte} "),
        Ok(Seen::Word(name)) => {
            let bytes = name.bytes();
            format!(in alloc; "{bytes:?} ")
        }
        Ok(Seen::Par) => format!(in alloc; "par "),
        Ok(Seen::LineEnd) => format!(in alloc; "end "),
        Err(stop) => format!(in alloc; "{stop} "),
    }
}

/// The next `count` things that are seen.
fn sights(alloc: Global, eye: &mut Eye, count: usize) -> Result<String, AllocError> {
    let cats = usual_categories();
    let mut words = String::new(alloc);
    for _ in 0..count {
        let seen = eye.next(&cats);
        words.push_str(in_words(alloc, seen)?.as_str())?;
    }
    Ok(words)
}

/// Asserts what the next sights are.
fn expect_sights(
    rt: &impl Abort,
    alloc: Global,
    eye: &mut Eye,
    count: usize,
    expected: &str,
) -> Result<(), AllocError> {
    let words = sights(alloc, eye, count)?;
    assert_eq!(rt; words.as_str(), expected);
    Ok(())
}

/// Asserts what the sights of one line are.
fn expect_line(
    rt: &impl Abort,
    alloc: Global,
    line: &[u8],
    count: usize,
    expected: &str,
) -> Result<(), Stop> {
    let mut eye = line_eye(alloc, line)?;
    expect_sights(rt, alloc, &mut eye, count, expected)?;
    Ok(())
}

/// Asserts that there is a next line, and what its sights are.
fn expect_next_line(
    rt: &impl Abort,
    alloc: Global,
    eye: &mut Eye,
    endline: i32,
    count: usize,
    expected: &str,
) -> Result<(), Stop> {
    assert!(rt; eye.has_line());
    assert!(rt; eye.next_line(endline)?);
    expect_sights(rt, alloc, eye, count, expected)?;
    Ok(())
}

#[test]
fn word_letters_and_the_space_of_the_line_end(rt: HostRuntime) -> Result<(), Fail> {
    let expected = "[120] 11/121 11/65 10/32 end end ";
    expect_line(&rt, rt.alloc(), b"\\x  y^^41 ", 6, expected)?;
    Ok(())
}

#[test]
fn superscripts_in_names_and_from_superscripts(rt: HostRuntime) -> Result<(), Fail> {
    let line = b"\\a^^62^^5e^41;\\^^5b\\^^20  ^^5e^5e ^^ffx^^";
    let expected = "[97, 98, 65] 12/59 [91] [32] 7/94 10/32 12/255 11/120 11/77 end ";
    expect_line(&rt, rt.alloc(), line, 10, expected)?;
    Ok(())
}

#[test]
fn marks_with_no_form_behind_them(rt: HostRuntime) -> Result<(), Fail> {
    let expected = "7/94 7/94 12/255 11/97 7/94 11/98 11/116 11/71 ";
    expect_line(&rt, rt.alloc(), b"^^\xffa^b^^4G", 8, expected)?;
    Ok(())
}

#[test]
fn roles_of_categories(rt: HostRuntime) -> Result<(), Fail> {
    let expected = "11/97 10/32 11/98 active 126 [92] 10/32 [32] end ";
    expect_line(&rt, rt.alloc(), b"  a\x00  b~\\\\ \\ %c", 8, expected)?;
    expect_line(&rt, rt.alloc(), b"a\rb", 3, "11/97 10/32 end ")?;
    expect_line(&rt, rt.alloc(), b"a\x7fb", 3, "11/97 stop 1 stop 1 ")?;
    Ok(())
}

#[test]
fn names_at_the_line_end(rt: HostRuntime) -> Result<(), Fail> {
    let alloc = rt.alloc();
    let mut eye = file_eye(alloc, b"\\ab\n\\ \n\\\n\n", false)?;
    expect_next_line(&rt, alloc, &mut eye, 13, 2, "[97, 98] end ")?;
    expect_next_line(&rt, alloc, &mut eye, 13, 2, "[13] end ")?;
    expect_next_line(&rt, alloc, &mut eye, -1, 2, "[] end ")?;
    expect_next_line(&rt, alloc, &mut eye, 13, 2, "par end ")?;
    assert!(rt; !eye.next_line(13)?);
    Ok(())
}

#[test]
fn end_bytes_in_and_out_of_range(rt: HostRuntime) -> Result<(), Fail> {
    let alloc = rt.alloc();
    let mut eye = file_eye(alloc, b"a \r \nb\nc", false)?;
    expect_next_line(&rt, alloc, &mut eye, 256, 2, "11/97 end ")?;
    expect_next_line(&rt, alloc, &mut eye, 255, 3, "11/98 12/255 end ")?;
    expect_next_line(&rt, alloc, &mut eye, 0, 2, "11/99 end ")?;
    assert!(rt; !eye.has_line());
    Ok(())
}

#[test]
fn sources_without_bytes(rt: HostRuntime) -> Result<(), Fail> {
    let alloc = rt.alloc();
    let mut eye = file_eye(alloc, b"", true)?;
    expect_sights(&rt, alloc, &mut eye, 1, "end ")?;
    expect_next_line(&rt, alloc, &mut eye, 13, 2, "par end ")?;
    assert!(rt; !eye.next_line(13)?);
    let mut eye = file_eye(alloc, b"", false)?;
    assert!(rt; !eye.next_line(13)?);
    Ok(())
}

#[test]
fn longest_line(rt: HostRuntime) -> Result<(), Fail> {
    let alloc = rt.alloc();
    let mut eye = Eye::new(alloc, vec![in alloc; b' '; 65_535]?, 10, false);
    assert!(rt; eye.next_line(13)?);
    assert_eq!(rt; eye.rest(), b"\r".as_slice());
    let mut eye = Eye::new(alloc, vec![in alloc; b' '; 65_536]?, 10, false);
    let number = match eye.next_line(13) {
        Ok(_) => 0,
        Err(stop) => stop.number(),
    };
    assert_eq!(rt; number, 2);
    assert!(rt; eye.has_line());
    Ok(())
}

#[test]
fn glances_and_a_dropped_rest(rt: HostRuntime) -> Result<(), Fail> {
    let alloc = rt.alloc();
    let cats = usual_categories();
    let mut eye = line_eye(alloc, b"\\one\\^^two x%")?;
    let mut name = Vec::new(alloc);
    assert_eq!(rt; eye.glance(&cats, &mut name), Glance::Word);
    assert_eq!(rt; name.as_slice(), b"one".as_slice());
    assert!(rt; !eye.is_line_finished(&cats));
    eye.drop_rest();
    assert!(rt; eye.is_line_finished(&cats));
    assert_eq!(rt; eye.glance(&cats, &mut name), Glance::LineEnd);
    Ok(())
}
