//! Whole numbers, each in front of `\relax`, with the values that TeX gives.

use super::driver::{Reading, whole_number};
use crate::Number;
use std::process::Abort;

/// The number, which ends before the last token that was handed in.
fn stops_at(rt: &impl Abort, text: &[u8], number: i32) {
    assert_eq!(rt;
        whole_number(text),
        Some(Reading {
            number: Number::Int(number),
            back: 1,
            troubles: 0
        })
    );
}

/// The number, which ends with the last token that was handed in.
fn ends_with(rt: &impl Abort, text: &[u8], number: i32) {
    assert_eq!(rt;
        whole_number(text),
        Some(Reading {
            number: Number::Int(number),
            back: 0,
            troubles: 0
        })
    );
}

/// The number behind one trouble that was passed over.
fn passes(rt: &impl Abort, text: &[u8], number: i32, back: u8) {
    assert_eq!(rt;
        whole_number(text),
        Some(Reading {
            number: Number::Int(number),
            back,
            troubles: 1
        })
    );
}

#[test]
fn decimal_constants(rt: HostRuntime) {
    stops_at(&rt, b"12~", 12);
    stops_at(&rt, b"-12~", -12);
    stops_at(&rt, b"- +-3~", 3);
    stops_at(&rt, b"--7~", 7);
    stops_at(&rt, b"007~", 7);
    stops_at(&rt, b"+ + 5~", 5);
    stops_at(&rt, b"2147483647~", 2_147_483_647);
    stops_at(&rt, b"12a", 12);
    stops_at(&rt, b"12@", 12);
    stops_at(&rt, b"12^", 12);
    ends_with(&rt, b"12 34", 12);
}

#[test]
fn octal_and_hexadecimal_constants(rt: HostRuntime) {
    stops_at(&rt, b"'177~", 127);
    stops_at(&rt, b"-'17~", -15);
    stops_at(&rt, b"\"FFFF~", 65535);
    stops_at(&rt, b"\"7FFFFFFF~", 2_147_483_647);
    stops_at(&rt, b"'17777777777~", 2_147_483_647);
    stops_at(&rt, b"\"A7g~", 167);
    stops_at(&rt, b"\"A7f~", 167);
    stops_at(&rt, b"'78~", 7);
    ends_with(&rt, b"\"AB CD~", 171);
}

#[test]
fn character_constants(rt: HostRuntime) {
    stops_at(&rt, b"`A~", 65);
    stops_at(&rt, b"`\\A~", 65);
    stops_at(&rt, b"`\\a~", 97);
    stops_at(&rt, b"`\\{~", 123);
    stops_at(&rt, b"-`b~", -98);
    ends_with(&rt, b"`a 7~", 97);
}

#[test]
fn quantities_as_numbers(rt: HostRuntime) {
    ends_with(&rt, b"^", 2000);
    ends_with(&rt, b"@", 1234);
    ends_with(&rt, b"-@", -1234);
    ends_with(&rt, b"$", 819_200);
    ends_with(&rt, b"-$", -819_200);
    ends_with(&rt, b"&", 212_992);
}

#[test]
fn glue_in_mu_is_no_number(rt: HostRuntime) {
    assert_eq!(rt; whole_number(b"!"), None);
}

#[test]
fn a_constant_that_is_too_big_brings_one_trouble(rt: HostRuntime) {
    assert_eq!(rt; whole_number(b"2147483648"), None);
    passes(&rt, b"2147483648~", 2_147_483_647, 1);
    passes(&rt, b"21474836470~", 2_147_483_647, 1);
    passes(&rt, b"-99999999999999999999~", -2_147_483_647, 1);
    passes(&rt, b"\"80000000 ~", 2_147_483_647, 0);
    passes(&rt, b"'20000000000~", 2_147_483_647, 1);
}

#[test]
fn a_missing_number_is_zero(rt: HostRuntime) {
    passes(&rt, b"~", 0, 1);
    passes(&rt, b"--~", 0, 1);
    passes(&rt, b"'8", 0, 1);
    passes(&rt, b"\"a", 0, 1);
    passes(&rt, b"-`~", 0, 1);
    passes(&rt, b"-(", 0, 1);
}
