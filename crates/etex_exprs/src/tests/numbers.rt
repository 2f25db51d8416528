//! Whole numbers and dimensions.

use super::Item::{self, Dimen, Int, Relax, Sign, Space};
use super::{gives, outcome};
use crate::{Phrase, Verdict};
use std::alloc::Global;
use std::process::Abort;
use tokens::Kind;

/// Behind `\numexpr`. An operand's own sign belongs to it.
const NUMBERS: &[(&[Item], i32)] = &[
    (&[Int(7), Sign(b'/'), Int(2)], 4),
    (&[Int(-7), Sign(b'/'), Int(2)], -4),
    (&[Int(7), Sign(b'/'), Int(-2)], -4),
    (&[Int(8), Sign(b'/'), Int(3)], 3),
    (&[Int(-8), Sign(b'/'), Int(3)], -3),
    (&[Int(1), Sign(b'/'), Int(2)], 1),
    (&[Int(-1), Sign(b'/'), Int(2)], -1),
    (&[Int(5), Sign(b'/'), Int(2)], 3),
    (
        &[Int(2147483647), Sign(b'*'), Int(3), Sign(b'/'), Int(3)],
        2147483647,
    ),
    (
        &[
            Int(1000000),
            Sign(b'*'),
            Int(1000000),
            Sign(b'/'),
            Int(1000000),
        ],
        1000000,
    ),
    (&[Int(2), Sign(b'+'), Int(3), Sign(b'*'), Int(4)], 14),
    (
        &[
            Sign(b'('),
            Int(2),
            Sign(b'+'),
            Int(3),
            Sign(b')'),
            Sign(b'*'),
            Int(4),
        ],
        20,
    ),
    (
        &[
            Int(2),
            Sign(b'*'),
            Sign(b'('),
            Int(3),
            Sign(b'+'),
            Int(4),
            Sign(b')'),
            Sign(b'*'),
            Int(5),
        ],
        70,
    ),
    (&[Int(10), Sign(b'-'), Int(2), Sign(b'-'), Int(3)], 5),
    (&[Int(100), Sign(b'/'), Int(3), Sign(b'/'), Int(3)], 11),
    (
        &[
            Int(7),
            Sign(b'*'),
            Int(7),
            Sign(b'/'),
            Int(2),
            Sign(b'*'),
            Int(2),
        ],
        50,
    ),
    (
        &[
            Sign(b'('),
            Sign(b'('),
            Sign(b'('),
            Sign(b'('),
            Int(1),
            Sign(b')'),
            Sign(b')'),
            Sign(b')'),
            Sign(b')'),
        ],
        1,
    ),
    (&[Int(1234), Sign(b'*'), Int(2)], 2468),
    (&[Int(2), Sign(b'*'), Int(1234), Sign(b'/'), Int(3)], 823),
    (
        &[
            Int(1),
            Space,
            Sign(b'+'),
            Space,
            Int(2),
            Space,
            Sign(b'*'),
            Space,
            Int(3),
        ],
        7,
    ),
    (&[Int(7), Sign(b'*'), Int(2)], 14),
    (&[Int(6), Sign(b'/'), Int(4), Sign(b'*'), Int(2)], 4),
    (&[Int(3), Sign(b'*'), Int(5), Sign(b'/'), Int(2)], 8),
    (&[Int(-3), Sign(b'*'), Int(5), Sign(b'/'), Int(2)], -8),
    (
        &[
            Sign(b'('),
            Int(1),
            Sign(b'+'),
            Int(2),
            Sign(b')'),
            Sign(b'/'),
            Sign(b'('),
            Int(1),
            Sign(b'-'),
            Int(3),
            Sign(b')'),
        ],
        -2,
    ),
    (
        &[Int(2147483647), Sign(b'-'), Int(1), Sign(b'+'), Int(1)],
        2147483647,
    ),
    (&[Int(15), Sign(b'+'), Int(10), Sign(b'+'), Int(97)], 122),
];

#[test]
fn numbers_have_the_values_of_tex(rt: HostRuntime) {
    for (items, value) in NUMBERS {
        assert!(rt;
            gives(outcome(rt.alloc(), Phrase::Int, items, Relax), Int(*value)),
            "{value}"
        );
    }
}

/// Behind `\dimexpr`.
const DIMENSIONS: &[(&[Item], i32)] = &[
    (&[Dimen(65536), Sign(b'+'), Dimen(131072)], 196608),
    (
        &[Dimen(65536), Sign(b'*'), Int(3), Sign(b'/'), Int(2)],
        98304,
    ),
    (
        &[
            Sign(b'('),
            Dimen(65536),
            Sign(b'+'),
            Dimen(1),
            Sign(b')'),
            Sign(b'/'),
            Int(2),
        ],
        32769,
    ),
    (&[Dimen(65536), Sign(b'/'), Int(3)], 21845),
    (
        &[Dimen(655360), Sign(b'/'), Int(3), Sign(b'*'), Int(3)],
        655359,
    ),
    (&[Dimen(131072), Sign(b'-'), Dimen(229376)], -98304),
    (&[Dimen(819200), Sign(b'*'), Int(2)], 1638400),
    (
        &[
            Sign(b'('),
            Dimen(819200),
            Sign(b'+'),
            Dimen(65536),
            Sign(b')'),
            Sign(b'*'),
            Int(2),
            Sign(b'/'),
            Int(3),
        ],
        589824,
    ),
    (&[Dimen(-65536), Sign(b'/'), Int(2)], -32768),
    (
        &[Dimen(4736286), Sign(b'*'), Int(5), Sign(b'/'), Int(7)],
        3383061,
    ),
    (&[Dimen(131072), Sign(b'/'), Int(3)], 43691),
    (&[Dimen(1), Sign(b'*'), Int(3), Sign(b'/'), Int(2)], 2),
    (&[Dimen(1), Sign(b'/'), Int(2)], 1),
    (&[Dimen(-1), Sign(b'/'), Int(2)], -1),
    (
        &[Dimen(65536), Sign(b'*'), Int(65536), Sign(b'/'), Int(6)],
        715827883,
    ),
];

#[test]
fn dimensions_have_the_values_of_tex(rt: HostRuntime) {
    for (items, value) in DIMENSIONS {
        assert!(rt;
            gives(
                outcome(rt.alloc(), Phrase::Dimen, items, Relax),
                Dimen(*value)
            ),
            "{value}"
        );
    }
}

fn overflows(rt: &impl Abort, verdict: Option<Verdict>) {
    assert!(rt; matches!(verdict, Some(Verdict::Trouble(Kind::ArithOverflow))));
}

/// Up to a token at which an operation has no value.
const OVERFLOWS: &[(&[Item], Item)] = &[
    (&[Int(7), Sign(b'/'), Int(0)], Relax),
    (&[Int(7), Sign(b'/'), Int(0)], Sign(b'+')),
    (&[Int(2147483647), Sign(b'+'), Int(1)], Sign(b'-')),
    (&[Int(46341), Sign(b'*'), Int(46341)], Sign(b'*')),
    (
        &[Sign(b'('), Int(-2147483647), Sign(b'-'), Int(1)],
        Sign(b')'),
    ),
];

fn overflows_at(rt: &impl Abort, alloc: Global, items: &[Item], last: Item) {
    overflows(rt, outcome(alloc, Phrase::Int, items, last));
}

#[test]
fn an_operation_beyond_its_bound_is_a_trouble_at_once(rt: HostRuntime) {
    for (items, last) in OVERFLOWS {
        overflows_at(&rt, rt.alloc(), items, *last);
    }
    let items = &[Dimen(65536), Sign(b'*'), Int(65536), Sign(b'/'), Int(3)];
    overflows(&rt, outcome(rt.alloc(), Phrase::Dimen, items, Relax));
}
