//! Movements that are kept and repeated.

use crate::tests::material::{NO_SIZES, body, box_of, hbox, kern, letter, nested, special};
use nodes::Node;
use std::alloc::{AllocError, Global};
use std::test::Fail;

/// A list with a letter in front and behind each movement. Digits are the widths of movements, in sp; what stands in
/// brackets is the list of an inner box.
fn list_of(alloc: Global, text: &[u8]) -> Result<Vec<Node>, AllocError> {
    let mut list = Vec::new(alloc);
    list.push(letter(b'A'))?;
    let mut inner = Vec::new(alloc);
    let mut is_inside = false;
    for byte in text {
        match *byte {
            b'(' => is_inside = true,
            b')' => {
                is_inside = false;
                let boxed = hbox(inner);
                inner = Vec::new(alloc);
                list.push(nested(alloc, boxed)?)?;
            }
            digit if is_inside => put_movement(&mut inner, digit)?,
            digit => put_movement(&mut list, digit)?,
        }
    }
    Ok(list)
}

fn put_movement(list: &mut Vec<Node>, digit: u8) -> Result<(), AllocError> {
    list.push(kern(i32::from(digit.saturating_sub(b'0'))))?;
    list.push(letter(b'A'))?;
    Ok(())
}

/// A list as a text, and the bytes of its page.
struct Row {
    list: &'static [u8],
    page: &'static [u8],
}

/// Where no word has been seen, the last movement meets one of its width that is, row by row,
/// free, first only, second only, fixed, first here and second here.
const NO_WORD_SEEN: [Row; 6] = [
    Row {
        list: b"11",
        page: b"\xab\x41\x94\x01\x41\x93\x41",
    },
    Row {
        list: b"1213(2)3",
        page: b"\xab\x41\x94\x01\x41\x99\x02\x41\x93\x41\x94\x03\x41\x8d\x98\x41\x8e\x93\x41",
    },
    Row {
        list: b"12(1)2",
        page: b"\xab\x41\x94\x01\x41\x99\x02\x41\x8d\x93\x41\x8e\x98\x41",
    },
    Row {
        list: b"123(12)3",
        page: b"\xab\x41\x94\x01\x41\x99\x02\x41\x8f\x03\x41\x8d\x93\x41\x98\x41\x8e\x8f\x03\x41",
    },
    Row {
        list: b"111",
        page: b"\xab\x41\x94\x01\x41\x93\x41\x93\x41",
    },
    Row {
        list: b"12122",
        page: b"\xab\x41\x94\x01\x41\x99\x02\x41\x93\x41\x98\x41\x98\x41",
    },
];

/// Where the first word has been seen, the last movement meets one of its width that is, row by row,
/// free, first only, second only, fixed, first here and second here.
const FIRST_WORD_SEEN: [Row; 6] = [
    Row {
        list: b"1221",
        page: b"\xab\x41\x99\x01\x41\x94\x02\x41\x93\x41\x98\x41",
    },
    Row {
        list: b"1233(1)2",
        page: b"\xab\x41\x99\x01\x41\x8f\x02\x41\x94\x03\x41\x93\x41\x8d\x98\x41\x8e\x8f\x02\x41",
    },
    Row {
        list: b"1212",
        page: b"\xab\x41\x94\x01\x41\x99\x02\x41\x93\x41\x98\x41",
    },
    Row {
        list: b"1231(2)3",
        page: b"\xab\x41\x94\x01\x41\x99\x02\x41\x8f\x03\x41\x93\x41\x8d\x98\x41\x8e\x8f\x03\x41",
    },
    Row {
        list: b"11221",
        page: b"\xab\x41\x94\x01\x41\x93\x41\x94\x02\x41\x93\x41\x8f\x01\x41",
    },
    Row {
        list: b"121212",
        page: b"\xab\x41\x94\x01\x41\x99\x02\x41\x93\x41\x98\x41\x93\x41\x98\x41",
    },
];

/// Where the second word has been seen, the last movement meets one of its width that is, row by row,
/// free, first only, second only, fixed, first here and second here.
const SECOND_WORD_SEEN: [Row; 6] = [
    Row {
        list: b"12(332)1",
        page: b"\xab\x41\x94\x01\x41\x99\x02\x41\x8d\x94\x03\x41\x93\x41\x98\x41\x8e\x93\x41",
    },
    Row {
        list: b"121323",
        page: b"\xab\x41\x94\x01\x41\x99\x02\x41\x93\x41\x94\x03\x41\x98\x41\x93\x41",
    },
    Row {
        list: b"123(13)2",
        page: b"\xab\x41\x94\x01\x41\x8f\x02\x41\x99\x03\x41\x8d\x93\x41\x98\x41\x8e\x8f\x02\x41",
    },
    Row {
        list: b"123(1)23",
        page: b"\xab\x41\x94\x01\x41\x99\x02\x41\x8f\x03\x41\x8d\x93\x41\x8e\x98\x41\x8f\x03\x41",
    },
    Row {
        list: b"12121",
        page: b"\xab\x41\x94\x01\x41\x99\x02\x41\x93\x41\x98\x41\x93\x41",
    },
    Row {
        list: b"12123(13)2",
        page: b"\xab\x41\x94\x01\x41\x99\x02\x41\x93\x41\x98\x41\x99\x03\x41\x8d\x93\x41\x98\x41\x8e\x8f\x02\x41",
    },
];

/// Whether each row's page is as it says.
fn holds(alloc: Global, rows: &[Row]) -> Result<bool, Fail> {
    for row in rows {
        let page = body(alloc, &hbox(list_of(alloc, row.list)?))?;
        if page.as_slice() != row.page {
            return Ok(false);
        }
    }
    Ok(true)
}

#[test]
fn a_word_that_was_seen_and_a_mark_decide_what_is_repeated(rt: HostRuntime) -> Result<(), Fail> {
    let alloc = rt.alloc();
    assert!(rt; holds(alloc, &NO_WORD_SEEN)?);
    assert!(rt; holds(alloc, &FIRST_WORD_SEEN)?);
    assert!(rt; holds(alloc, &SECOND_WORD_SEEN)?);
    Ok(())
}

/// A movement repeats one of the box around its own, and none of a box that has ended.
const BOXES: [Row; 3] = [
    Row {
        list: b"5(5)",
        page: b"\xab\x41\x94\x05\x41\x8d\x93\x41\x8e",
    },
    Row {
        list: b"(5)5",
        page: b"\xab\x41\x8d\x8f\x05\x41\x8e\x8f\x05\x41",
    },
    Row {
        list: b"(5)(5)",
        page: b"\xab\x41\x8d\x8f\x05\x41\x8e\x8d\x8f\x05\x41\x8e",
    },
];

#[test]
fn a_box_that_has_ended_keeps_no_movement(rt: HostRuntime) -> Result<(), Fail> {
    assert!(rt; holds(rt.alloc(), &BOXES)?);
    Ok(())
}

/// A movement and its command.
const WIDTHS: [(i32, &[u8]); 11] = [
    (127, b"\x8f\x7f"),
    (128, b"\x90\x00\x80"),
    (-127, b"\x8f\x81"),
    (-128, b"\x90\xff\x80"),
    (32767, b"\x90\x7f\xff"),
    (32768, b"\x91\x00\x80\x00"),
    (-32768, b"\x91\xff\x80\x00"),
    (8388607, b"\x91\x7f\xff\xff"),
    (8388608, b"\x92\x00\x80\x00\x00"),
    (-8388608, b"\x92\xff\x80\x00\x00"),
    (-2147483648, b"\x92\x80\x00\x00\x00"),
];

#[test]
fn a_movement_has_as_few_bytes_as_hold_its_width(rt: HostRuntime) -> Result<(), Fail> {
    let alloc = rt.alloc();
    for (width, command) in WIDTHS {
        let mut wanted = Vec::from_slice(alloc, command)?;
        wanted.extend_from_slice(b"\xab\x41")?;
        let list = Vec::from_array(alloc, [kern(width), letter(b'A')])?;
        assert_eq!(rt;
            body(alloc, &hbox(list))?.as_slice(),
            wanted.as_slice(),
            "at {width}"
        );
    }
    Ok(())
}

/// Movements of several bytes that are kept: their commands are those of one byte with the bytes more.
const KEPT: [(i32, &[u8]); 4] = [
    (127, b"\x94\x7f\xab\x41\x93\x41"),
    (-300, b"\x95\xfe\xd4\xab\x41\x93\x41"),
    (70000, b"\x96\x01\x11\x70\xab\x41\x93\x41"),
    (-2147483648, b"\x97\x80\x00\x00\x00\xab\x41\x93\x41"),
];

#[test]
fn a_movement_that_is_kept_has_as_many_bytes_as_before(rt: HostRuntime) -> Result<(), Fail> {
    let alloc = rt.alloc();
    for (width, wanted) in KEPT {
        let list = [kern(width), letter(b'A'), kern(width), letter(b'A')];
        let shipped = hbox(Vec::from_array(alloc, list)?);
        assert_eq!(rt; body(alloc, &shipped)?.as_slice(), wanted, "at {width}");
    }
    Ok(())
}

/// The same for vertical movements: digits are their widths, and a special stands in front and behind each.
const VERTICAL: [Row; 3] = [
    Row {
        list: b"11",
        page: b"\xef\x00\xa2\x01\xef\x00\xa1\xef\x00",
    },
    Row {
        list: b"1212",
        page: b"\xef\x00\xa2\x01\xef\x00\xa7\x02\xef\x00\xa1\xef\x00\xa6\xef\x00",
    },
    Row {
        list: b"1221",
        page: b"\xef\x00\xa7\x01\xef\x00\xa2\x02\xef\x00\xa1\xef\x00\xa6\xef\x00",
    },
];

fn vertical_list(alloc: Global, text: &[u8]) -> Result<Vec<Node>, AllocError> {
    let mut list = Vec::new(alloc);
    list.push(special(alloc, b"")?)?;
    for digit in text {
        list.push(kern(i32::from(digit.saturating_sub(b'0'))))?;
        list.push(special(alloc, b"")?)?;
    }
    Ok(list)
}

#[test]
fn vertical_movements_have_words_of_their_own(rt: HostRuntime) -> Result<(), Fail> {
    let alloc = rt.alloc();
    for row in &VERTICAL {
        let shipped = box_of(true, NO_SIZES, vertical_list(alloc, row.list)?);
        assert_eq!(rt; body(alloc, &shipped)?.as_slice(), row.page);
    }
    Ok(())
}
