//! Dimensions, each in front of `\relax`, with the values that TeX gives.

use super::driver::{Reading, dimension};
use crate::{DimenScan, Number};
use scaled::Order;
use std::process::Abort;

/// The size, the number of tokens that are given back, and that of troubles.
fn reads(rt: &impl Abort, mu: bool, text: &str, size: i32, back: u8, troubles: u8) {
    let mut scan = DimenScan::new(mu, false);
    assert_eq!(rt;
        dimension(&mut scan, text.as_bytes()),
        Some(Reading {
            number: Number::Dimen(size),
            back,
            troubles
        })
    );
}

/// The same of a dimension that may be infinite, with its order.
fn stretches(rt: &impl Abort, text: &str, size: i32, order: Order, back: u8) {
    let mut scan = DimenScan::new(false, true);
    assert_eq!(rt;
        dimension(&mut scan, text.as_bytes()),
        Some(Reading {
            number: Number::Dimen(size),
            back,
            troubles: 0
        })
    );
    assert_eq!(rt; scan.order(), order);
}

#[test]
fn units_of_length(rt: HostRuntime) {
    for (text, size) in [
        ("1pt~", 65_536),
        ("-1.5pt~", -98_304),
        ("1in~", 4_736_286),
        ("1.5in~", 7_104_430),
        ("2,5cm~", 4_661_699),
        ("1mm~", 186_467),
        ("1bp~", 65_781),
        ("1dd~", 70_124),
        ("1cc~", 841_489),
        ("1pc~", 786_432),
        ("65536sp~", 65_536),
        ("1sp~", 1),
        ("1.00001pt~", 65_537),
        ("0.99999pt~", 65_535),
        (".5pt~", 32_768),
        ("-.5in~", -2_368_143),
        ("16383.99999pt~", 1_073_741_823),
        ("1truept~", 32_768),
    ] {
        reads(&rt, false, text, size, 1, 0);
    }
}

#[test]
fn fractions_and_other_units(rt: HostRuntime) {
    for (text, size) in [
        ("1.5truein~", 3_552_215),
        ("@pt~", 80_871_424),
        ("- -3pt~", 196_608),
        ("1PT~", 65_536),
        ("1.5tRuEiN~", 3_552_215),
        ("1.99999999999999999999pt~", 131_072),
        ("0.1cm~", 186_479),
        ("7.3mm~", 1_361_216),
        ("123.456bp~", 8_121_152),
        ("0.00001in~", 72),
        ("1.23456dd~", 86_572),
        ("9.87654cc~", 8_311_001),
        ("5.4321pc~", 4_271_976),
        ("1.0sp~", 1),
        ("1.9sp~", 1),
        ("16383pt~", 1_073_676_288),
    ] {
        reads(&rt, false, text, size, 1, 0);
    }
}

#[test]
fn quantities_end_a_dimension(rt: HostRuntime) {
    for (text, size) in [
        ("3@", 3702),
        ("2$", 1_638_400),
        ("-2.5$", -2_048_000),
        ("1.5$", 1_228_800),
        ("$", 819_200),
        ("-$", -819_200),
        ("&", 212_992),
        ("0.5&", 106_496),
        ("1pt ", 65536),
        ("1.5em ", 983_041),
        ("-2ex ", -1_310_722),
    ] {
        reads(&rt, false, text, size, 0, 0);
    }
}

#[test]
fn mu_is_a_unit_of_its_own(rt: HostRuntime) {
    for (text, size, back, troubles) in [
        ("-2.5mu~", -163_840, 1, 0),
        ("3MU ", 196_608, 0, 0),
        ("2!", 524_288, 0, 0),
        ("!", 262_144, 0, 0),
        ("1pt~", 65536, 1, 1),
        ("1mm~", 65536, 2, 1),
    ] {
        reads(&rt, true, text, size, back, troubles);
    }
}

#[test]
fn glue_of_the_other_kind_is_no_dimension(rt: HostRuntime) {
    for (mu, text) in [
        (false, "!"),
        (false, "2!"),
        (true, "$"),
        (true, "2&"),
        (true, "2@"),
    ] {
        let mut scan = DimenScan::new(mu, false);
        assert_eq!(rt; dimension(&mut scan, text.as_bytes()), None);
    }
}

#[test]
fn troubles_that_are_passed_over(rt: HostRuntime) {
    for (text, size, back, troubles) in [
        ("16384pt~", 1_073_741_823, 1, 1),
        ("-16384pt ", -1_073_741_823, 0, 1),
        ("99999999999sp~", 1_073_741_823, 1, 2),
        ("2147483648\"~", 1_073_741_823, 1, 3),
        ("pt~", 0, 1, 1),
        ("-2  trub", -131_072, 4, 1),
        ("1trueem", 32768, 1, 1),
        ("1 .5pt", 65536, 1, 1),
        ("'8", 0, 1, 2),
    ] {
        reads(&rt, false, text, size, back, troubles);
    }
}

#[test]
fn further_letters_raise_the_order(rt: HostRuntime) {
    for (text, size, order, back) in [
        ("1fil~", 65536, Order::Fil, 1),
        ("-1.5FiLL~", -98304, Order::Fill, 1),
        ("1fIL l  Lx", 65536, Order::Filll, 1),
        ("1fILLl~", 65536, Order::Filll, 1),
        ("1fillll~", 65536, Order::Filll, 1),
        ("1pt ", 65536, Order::Normal, 0),
    ] {
        stretches(&rt, text, size, order, back);
    }
}
