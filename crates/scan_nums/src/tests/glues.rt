//! Glue with the values that TeX gives.

use super::driver::{Reading, glue};
use crate::{GlueScan, Number};
use scaled::{Glue, Order};
use std::process::Abort;

fn of(width: i32, stretch: i32, stretch_order: Order, shrink: i32, shrink_order: Order) -> Glue {
    Glue {
        width,
        stretch,
        stretch_order,
        shrink,
        shrink_order,
    }
}

/// The glue, the number of tokens that are given back, and that of troubles.
fn reads(rt: &impl Abort, text: &str, wanted: Glue, back: u8, troubles: u8) {
    let mut scan = GlueScan::new(false);
    assert_eq!(rt;
        glue(&mut scan, text.as_bytes()),
        Some(Reading {
            number: Number::Glue(wanted),
            back,
            troubles
        })
    );
}

/// The same of glue in mu.
fn mu_reads(rt: &impl Abort, text: &str, wanted: Glue, back: u8, troubles: u8) {
    let mut scan = GlueScan::new(true);
    assert_eq!(rt;
        glue(&mut scan, text.as_bytes()),
        Some(Reading {
            number: Number::MuGlue(wanted),
            back,
            troubles
        })
    );
}

#[test]
fn parts_of_glue(rt: HostRuntime) {
    for (text, wanted, back) in [
        (
            "1pt plus 2pt minus 3pt~",
            of(65_536, 131_072, Order::Normal, 196_608, Order::Normal),
            1,
        ),
        (
            "1ptplus2ptminus3pt~",
            of(65_536, 131_072, Order::Normal, 196_608, Order::Normal),
            1,
        ),
        (
            "&",
            of(212_992, 98_304, Order::Normal, 131_072, Order::Fil),
            0,
        ),
        (
            "-&",
            of(-212_992, -98_304, Order::Normal, -131_072, Order::Fil),
            0,
        ),
        (
            "2$ plus 1fil~",
            of(1_638_400, 65_536, Order::Fil, 0, Order::Normal),
            1,
        ),
        (
            "0pt plus 1fill minus 2filll~",
            of(0, 65_536, Order::Fill, 131_072, Order::Filll),
            1,
        ),
        (
            "3pt minus 1fil~",
            of(196_608, 0, Order::Normal, 65_536, Order::Fil),
            1,
        ),
        (
            "1pt plus -1.5FiLL~",
            of(65_536, -98_304, Order::Fill, 0, Order::Normal),
            1,
        ),
        (
            "1pt plus 2fil lminus 1pt~",
            of(65_536, 131_072, Order::Fill, 65_536, Order::Normal),
            1,
        ),
        (
            "$ plus .5$~",
            of(819_200, 409_600, Order::Normal, 0, Order::Normal),
            1,
        ),
        (
            "-1pt plus 2pt~",
            of(-65_536, 131_072, Order::Normal, 0, Order::Normal),
            1,
        ),
        (
            "- 1pt plus - 2pt~",
            of(-65_536, -131_072, Order::Normal, 0, Order::Normal),
            1,
        ),
        (
            "1pt plus 1.5 fil~",
            of(65_536, 98_304, Order::Fil, 0, Order::Normal),
            1,
        ),
    ] {
        reads(&rt, text, wanted, back, 0);
    }
}

#[test]
fn glue_in_mu(rt: HostRuntime) {
    for (text, wanted, back) in [
        ("1mu~", of(65_536, 0, Order::Normal, 0, Order::Normal), 1),
        (
            "-2.5mu plus 1mu~",
            of(-163_840, 65_536, Order::Normal, 0, Order::Normal),
            1,
        ),
        (
            "!",
            of(262_144, 65_536, Order::Fil, 65_536, Order::Normal),
            0,
        ),
        (
            "3mu plus 1fil minus 2mu~",
            of(196_608, 65_536, Order::Fil, 131_072, Order::Normal),
            1,
        ),
        ("2!~", of(524_288, 0, Order::Normal, 0, Order::Normal), 1),
        (
            "-!",
            of(-262_144, -65_536, Order::Fil, -65_536, Order::Normal),
            0,
        ),
    ] {
        mu_reads(&rt, text, wanted, back, 0);
    }
}

#[test]
fn broken_keywords_are_given_back(rt: HostRuntime) {
    for (text, back, troubles) in [
        ("1pt plu~", 4, 0),
        ("1pt   minu~", 5, 0),
        ("1pt p m", 2, 0),
        ("1mu~", 2, 1),
    ] {
        reads(
            &rt,
            text,
            of(65_536, 0, Order::Normal, 0, Order::Normal),
            back,
            troubles,
        );
    }
    mu_reads(
        &rt,
        "1pt~",
        of(65_536, 0, Order::Normal, 0, Order::Normal),
        2,
        1,
    );
}

#[test]
fn other_units_are_incompatible(rt: HostRuntime) {
    for (mu, text) in [
        (false, "!"),
        (true, "&"),
        (true, "$"),
        (false, "1pt plus !"),
    ] {
        let mut scan = GlueScan::new(mu);
        assert_eq!(rt; glue(&mut scan, text.as_bytes()), None);
    }
}
