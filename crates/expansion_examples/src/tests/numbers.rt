//! Whole numbers, and what stands behind them (The TeXbook, chapter 24, pages 269 and 270).
use super::macros::Definition;
use super::reading::number_and_rest;
use super::tex::with_macros;
use super::world_of;
use std::alloc::Global;
use std::test::Fail;

const MACROS: &[Definition] = &[(b"g", b"", b"12"), (b"s", b"", b" ")];

/// A line, its number, and what expansion leaves behind it.
const ROWS: &[(&[u8], i32, &[u8])] = &[
    (b"12x", 12, b"x"),
    (b"12 x", 12, b"x"),
    (b"12  x", 12, b"x"),
    (b"--+-12 x", -12, b"x"),
    (b"- - 12\\relax x", 12, b"\\relax x"),
    (b"-`a x", -97, b"x"),
    (b"`\\a x", 97, b"x"),
    (b"`\\{ x", 123, b"x"),
    (b"\"FF x", 255, b"x"),
    (b"\"FFG", 255, b"G"),
    (b"'178", 15, b"8"),
    (b"2147483647 x", 2_147_483_647, b"x"),
    (b"-2147483647 x", -2_147_483_647, b"x"),
    // digits and the space behind them by macros
    (b"\\g\\g x", 1212, b"x"),
    (b"3\\g\\s x", 312, b"x"),
    // quantities
    (b"\\count7 x", 0, b"x"),
    (b"-\\tolerance x", -10_000, b"x"),
    (b"\\count\\count7 x", 0, b"x"),
];

/// Numbers as TeX reads them, each in front of `\relax`, where `\count9` is 1234.
const IN_FRONT_OF_RELAX: &[(&[u8], i32, &[u8])] = &[
    (b"12\\relax", 12, b"\\relax "),
    (b"-12\\relax", -12, b"\\relax "),
    (b"- +-3\\relax", 3, b"\\relax "),
    (b"--7\\relax", 7, b"\\relax "),
    (b"'177\\relax", 127, b"\\relax "),
    (b"-'17\\relax", -15, b"\\relax "),
    (b"\"FFFF\\relax", 65_535, b"\\relax "),
    (b"\"7FFFFFFF\\relax", 2_147_483_647, b"\\relax "),
    (b"`A\\relax", 65, b"\\relax "),
    (b"`\\A\\relax", 65, b"\\relax "),
    (b"`\\a\\relax", 97, b"\\relax "),
    (b"`\\{\\relax", 123, b"\\relax "),
    (b"-`b\\relax", -98, b"\\relax "),
    (b"2147483647\\relax", 2_147_483_647, b"\\relax "),
    (b"'17777777777\\relax", 2_147_483_647, b"\\relax "),
    (b"12 34\\relax", 12, b"34\\relax "),
    (b"007\\relax", 7, b"\\relax "),
    (b"+ + 5\\relax", 5, b"\\relax "),
    (b"\\count9\\relax", 1234, b"\\relax "),
    (b"-\\count9\\relax", -1234, b"\\relax "),
    (b"`a 7\\relax", 97, b"7\\relax "),
    (b"\"A7g\\relax", 167, b"g\\relax "),
    (b"'78\\relax", 7, b"8\\relax "),
    (b"\"AB CD\\relax", 171, b"CD\\relax "),
];

/// The same of lines whose number is in trouble that is passed over.
const TROUBLES: &[(&[u8], i32, &[u8])] = &[
    (b"x", 0, b"x"),
    (b"-\\relax", 0, b"\\relax "),
    (b"2147483648 x", 2_147_483_647, b"x"),
    (b"-\"80000000 x", -2_147_483_647, b"x"),
    (b"\\count32768 x", 0, b"x"),
    // a name of more than one letter is no character
    (b"`\\relax x", 0, b"\\relax x"),
];

/// The number of a line, what is left behind it, and how many troubles were passed over.
fn number_of(alloc: Global, line: &[u8]) -> Result<(Option<i32>, Vec<u8>, u64), Fail> {
    let mut tex = with_macros(alloc, MACROS, line)?;
    let mut world = world_of(alloc, &[])?;
    let (number, rest) = number_and_rest(&mut tex, &mut world)?;
    Ok((number, rest, tex.passed()))
}

#[test]
fn numbers_are_taken_with_the_space_behind_them(rt: HostRuntime) -> Result<(), Fail> {
    for (line, number, rest) in ROWS {
        let (found, left, passed) = number_of(rt.alloc(), line)?;
        assert_eq!(rt; found, Some(*number));
        assert_eq!(rt; left.as_slice(), *rest);
        assert_eq!(rt; passed, 0);
    }
    Ok(())
}

#[test]
fn numbers_in_front_of_relax_are_those_of_tex(rt: HostRuntime) -> Result<(), Fail> {
    for (line, number, rest) in IN_FRONT_OF_RELAX {
        let (found, left, passed) = number_of(rt.alloc(), line)?;
        assert_eq!(rt; found, Some(*number));
        assert_eq!(rt; left.as_slice(), *rest);
        assert_eq!(rt; passed, 0);
    }
    Ok(())
}

#[test]
fn numbers_in_trouble_are_mended(rt: HostRuntime) -> Result<(), Fail> {
    for (line, number, rest) in TROUBLES {
        let (found, left, passed) = number_of(rt.alloc(), line)?;
        assert_eq!(rt; found, Some(*number));
        assert_eq!(rt; left.as_slice(), *rest);
        assert_eq!(rt; passed, 1);
    }
    Ok(())
}
