//! Values that come from outside: TeX's own answers, and sums by hand.

use crate::{Glue, Order, badness, fraction, nearest, points, roman, round_decimals, xn_over_d};
use std::alloc::Global;
use std::process::Abort;
use std::test::Fail;

#[test]
fn badness_is_that_of_tex(rt: HostRuntime) {
    assert_eq!(rt; badness(65536, 131072), 12);
    assert_eq!(rt; badness(65536, 65536), 100);
    assert_eq!(rt; badness(0, 0), 0);
    assert_eq!(rt; badness(0, -5), 0);
    assert_eq!(rt; badness(1, 0), 10000);
    assert_eq!(rt; badness(1, -5), 10000);
    assert_eq!(rt; badness(1, 1_000_000), 0);
}

// The greatest badness below 10000 is 8189.
#[test]
fn badness_is_at_most_8189_or_infinite(rt: HostRuntime) {
    assert_eq!(rt; badness(1290, 297), 8189);
    assert_eq!(rt; badness(1291, 297), 10000);
    assert_eq!(rt; badness(7_230_584, 7_230_584), 100);
    assert_eq!(rt; badness(7_230_585, 7_230_585), 100);
    assert_eq!(rt; badness(7_230_585, 1_663_497), 8189);
    assert_eq!(rt; badness(7_230_585, 1_663_496), 10000);
}

#[test]
fn multiples_are_truncated(rt: HostRuntime) {
    // An inch in sp.
    assert_eq!(rt; xn_over_d(65536, 7227, 100), Some((4_736_286, 72)));
    assert_eq!(rt; xn_over_d(-65536, 7227, 100), Some((-4_736_286, -72)));
    assert_eq!(rt; xn_over_d(7, 1, 2), Some((3, 1)));
    assert_eq!(rt; xn_over_d(-7, 1, 2), Some((-3, -1)));
}

#[test]
fn a_multiple_beyond_the_greatest_dimension_is_none(rt: HostRuntime) {
    assert_eq!(rt; xn_over_d(1_073_741_823, 1, 1), Some((1_073_741_823, 0)));
    assert_eq!(rt; xn_over_d(1_073_741_824, 1, 1), None);
    assert_eq!(rt;
        xn_over_d(-1_073_741_823, 65536, 65536),
        Some((-1_073_741_823, 0))
    );
    assert_eq!(rt; xn_over_d(-1_073_741_824, 65536, 65536), None);
    assert_eq!(rt; xn_over_d(2_147_483_647, 1, 2), Some((1_073_741_823, 1)));
    assert_eq!(rt; xn_over_d(i32::MIN, 65536, 1), None);
}

#[test]
fn decimals_are_rounded(rt: HostRuntime) {
    assert_eq!(rt; round_decimals(&[]), 0);
    assert_eq!(rt; round_decimals(&[5]), 32768);
    assert_eq!(rt; round_decimals(&[1]), 6554);
    assert_eq!(rt; round_decimals(&[3, 3, 3, 3, 3]), 21845);
    assert_eq!(rt; round_decimals(&[9, 9, 9, 9, 9]), 65535);
    assert_eq!(rt; round_decimals(&[9, 9, 9, 9, 9, 9]), 65536);
}

// Half an sp is 0.00000762939453125 points.
#[test]
fn half_a_scaled_point_is_rounded_up(rt: HostRuntime) {
    assert_eq!(rt;
        round_decimals(&[0, 0, 0, 0, 0, 7, 6, 2, 9, 3, 9, 4, 5, 3, 1, 2, 5]),
        1
    );
    assert_eq!(rt;
        round_decimals(&[0, 0, 0, 0, 0, 7, 6, 2, 9, 3, 9, 4, 5, 3, 1, 2, 4]),
        0
    );
}

#[test]
fn halves_are_rounded_away_from_zero(rt: HostRuntime) {
    assert_eq!(rt; nearest(7, 2), Some(4));
    assert_eq!(rt; nearest(-7, 2), Some(-4));
    assert_eq!(rt; nearest(7, -2), Some(-4));
    assert_eq!(rt; nearest(-7, -2), Some(4));
    assert_eq!(rt; nearest(1, 3), Some(0));
    assert_eq!(rt; nearest(-2, 3), Some(-1));
    assert_eq!(rt; nearest(0, -3), Some(0));
    assert_eq!(rt; nearest(5, 0), None);
}

#[test]
fn great_numbers_are_rounded(rt: HostRuntime) {
    assert_eq!(rt; nearest(1 << 126, -(1 << 126)), Some(-1));
    assert_eq!(rt; nearest(-(1 << 125), 1 << 126), Some(-1));
    assert_eq!(rt; nearest((1 << 125) - 1, 1 << 126), Some(0));
    assert_eq!(rt; nearest(-(1 << 126), 1), Some(-(1 << 126)));
}

#[test]
fn fractions_are_rounded_once(rt: HostRuntime) {
    assert_eq!(rt; fraction(7, 1, 2, 2_147_483_647), Some(4));
    assert_eq!(rt; fraction(-7, 1, 2, 2_147_483_647), Some(-4));
    assert_eq!(rt; fraction(7, 1, 0, 2_147_483_647), None);
    assert_eq!(rt;
        fraction(2_147_483_647, 3, 3, 2_147_483_647),
        Some(2_147_483_647)
    );
    assert_eq!(rt; fraction(3, 3, 7, 100), Some(1));
    assert_eq!(rt; fraction(i32::MIN, i32::MIN, 1, 2_147_483_647), None);
}

#[test]
fn a_fraction_beyond_the_bound_is_none(rt: HostRuntime) {
    assert_eq!(rt; fraction(18, 1, 2, 9), Some(9));
    assert_eq!(rt; fraction(19, 1, 2, 9), None);
    assert_eq!(rt; fraction(-18, 1, 2, 9), Some(-9));
    assert_eq!(rt; fraction(-19, 1, 2, 9), None);
    assert_eq!(rt; fraction(0, 1, 2, -1), None);
}

#[test]
fn numbers_have_roman_numerals(rt: HostRuntime) -> Result<(), Fail> {
    shows_roman(&rt, rt.alloc(), 1990, b"mcmxc")?;
    shows_roman(&rt, rt.alloc(), 0, b"")?;
    shows_roman(&rt, rt.alloc(), -5, b"")?;
    shows_roman(&rt, rt.alloc(), 1, b"i")?;
    shows_roman(&rt, rt.alloc(), 3999, b"mmmcmxcix")?;
    shows_roman(&rt, rt.alloc(), 4444, b"mmmmcdxliv")?;
    shows_roman(&rt, rt.alloc(), 1986, b"mcmlxxxvi")
}

fn shows_roman(rt: &impl Abort, alloc: Global, n: i32, want: &[u8]) -> Result<(), Fail> {
    let text = roman(alloc, n)?;
    assert_eq!(rt; text.as_slice(), want);
    Ok(())
}

#[test]
fn dimensions_are_printed_in_points(rt: HostRuntime) -> Result<(), Fail> {
    shows_points(&rt, rt.alloc(), 0, b"0.0")?;
    shows_points(&rt, rt.alloc(), 1, b"0.00002")?;
    shows_points(&rt, rt.alloc(), 65536, b"1.0")?;
    shows_points(&rt, rt.alloc(), 1_073_741_823, b"16383.99998")?;
    shows_points(&rt, rt.alloc(), -1, b"-0.00002")?;
    shows_points(&rt, rt.alloc(), -2_147_483_647, b"-32767.99998")?;
    shows_points(&rt, rt.alloc(), 327680, b"5.0")?;
    shows_points(&rt, rt.alloc(), 573440, b"8.75")
}

// 1024 sp are 0.015625 points: 0.01562 and 0.01563 are as near.
#[test]
fn the_greater_of_two_decimals_is_printed(rt: HostRuntime) -> Result<(), Fail> {
    shows_points(&rt, rt.alloc(), 1024, b"0.01563")?;
    shows_points(&rt, rt.alloc(), 6554, b"0.1")?;
    shows_points(&rt, rt.alloc(), 6553, b"0.09999")?;
    shows_points(&rt, rt.alloc(), 4_736_286, b"72.26999")
}

fn shows_points(rt: &impl Abort, alloc: Global, s: i32, want: &[u8]) -> Result<(), Fail> {
    let text = points(alloc, s)?;
    assert_eq!(rt; text.as_slice(), want);
    Ok(())
}

#[test]
fn glue_is_compared_part_by_part(rt: HostRuntime) {
    let plain = Glue {
        width: 1,
        stretch: 2,
        stretch_order: Order::Fil,
        shrink: 3,
        shrink_order: Order::Normal,
    };
    let other = Glue {
        shrink_order: Order::Fill,
        ..plain
    };
    assert!(rt; plain.is_same(plain));
    assert!(rt; !plain.is_same(other));
    assert!(rt; Order::Filll.is_same(Order::Filll));
    assert!(rt; !Order::Fil.is_same(Order::Fill));
    assert!(rt; Order::Fill < Order::Filll);
}
