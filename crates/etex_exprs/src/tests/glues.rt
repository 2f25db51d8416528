//! Glue.

use super::Item::{self, Int, MuSpread, Relax, Sign, Spread};
use super::{NONE, Spread as Parts, gives, outcome};
use crate::{Phrase, Verdict};
use scaled::Order::{Fil, Fill, Normal};
use tokens::Kind;

/// 3.25pt plus 1.5pt minus 2fil, and its negative.
const SKIP: Item = Spread(Parts(212_992, (98_304, Normal), (131_072, Fil)));

const MINUS_SKIP: Item = Spread(Parts(-212_992, (-98_304, Normal), (-131_072, Fil)));

/// Behind `\glueexpr`.
const GLUES: &[(&[Item], Item)] = &[
    (
        &[
            Spread(Parts(65_536, (131_072, Fil), NONE)),
            Sign(b'+'),
            Spread(Parts(196_608, (65_536, Fil), NONE)),
        ],
        Spread(Parts(262_144, (196_608, Fil), NONE)),
    ),
    (
        &[
            Sign(b'('),
            Spread(Parts(65_536, (65_536, Fil), NONE)),
            Sign(b')'),
            Sign(b'*'),
            Int(2),
        ],
        Spread(Parts(131_072, (131_072, Fil), NONE)),
    ),
    (
        &[
            Spread(Parts(65_536, (65_536, Fil), NONE)),
            Sign(b'+'),
            Spread(Parts(65_536, (65_536, Fill), NONE)),
        ],
        Spread(Parts(131_072, (65_536, Fill), NONE)),
    ),
    (
        &[
            Sign(b'('),
            Spread(Parts(262_144, (131_072, Normal), (65_536, Normal))),
            Sign(b')'),
            Sign(b'/'),
            Int(3),
        ],
        Spread(Parts(87_381, (43_691, Normal), (21_845, Normal))),
    ),
    (
        &[SKIP, Sign(b'*'), Int(2)],
        Spread(Parts(425_984, (196_608, Normal), (262_144, Fil))),
    ),
    (&[SKIP, Sign(b'-'), SKIP], Spread(Parts(0, NONE, NONE))),
    (&[MINUS_SKIP], MINUS_SKIP),
    (
        &[
            Spread(Parts(65_536, (196_608, Fil), NONE)),
            Sign(b'-'),
            Spread(Parts(131_072, (65_536, Fil), NONE)),
        ],
        Spread(Parts(-65_536, (131_072, Fil), NONE)),
    ),
    (
        &[
            Sign(b'('),
            Spread(Parts(65_536, NONE, (327_680, Fil))),
            Sign(b')'),
            Sign(b'*'),
            Int(3),
            Sign(b'/'),
            Int(2),
        ],
        Spread(Parts(98_304, NONE, (491_520, Fil))),
    ),
];

#[test]
fn glues_have_the_values_of_tex(rt: HostRuntime) {
    for (items, value) in GLUES {
        assert!(rt; gives(outcome(rt.alloc(), Phrase::Glue, items, Relax), *value));
    }
}

#[test]
fn units_of_glue_do_not_mix(rt: HostRuntime) {
    let mu = MuSpread(Parts(65_536, NONE, NONE));
    for (kind, item) in [(Phrase::Glue, mu), (Phrase::MuGlue, SKIP)] {
        let verdict = outcome(rt.alloc(), kind, &[], item);
        assert!(rt; matches!(verdict, Some(Verdict::Trouble(Kind::IncompatibleGlue))));
    }
}
