//! The values of entries that were never assigned.
ghost use Rattle.std.specs.Prelude.{◌≡◌};

use crate::heap_box::HeapBox;
use scaled::{Glue, Order};
use tokens::{Meaning, TokenList};

/// A kind of value with the one that stands in a table where nothing was assigned.
pub trait Initial: Drop {
    ghost start: { Self };

    fn initial() -> Self
        ensures { result ≡ start };
}

impl Initial for i32 {
    ghost use Rattle.std.specs.Prelude.{pos};

    ghost start = { pos 0 };

    fn initial() -> i32 {
        0
    }
}

impl Initial for Glue {
    ghost use Rattle.save_groups.specs.StartValues.{zero_glue};

    ghost start = { zero_glue };

    fn initial() -> Glue {
        Glue {
            width: 0,
            stretch: 0,
            stretch_order: Order::Normal,
            shrink: 0,
            shrink_order: Order::Normal,
        }
    }
}

impl Initial for TokenList {
    ghost use Rattle.std.specs.Prelude.{[]};

    ghost start = { [] };

    fn initial() -> TokenList {
        TokenList::empty()
    }
}

impl Initial for Option<HeapBox> {
    ghost use Rattle.std.specs.Prelude.{None};

    ghost start = { None };

    fn initial() -> Option<HeapBox> {
        None
    }
}

impl Initial for Meaning {
    ghost use Rattle.tokens.specs.declared.meaning.Meaning.TheVariants.{Undefined};

    ghost start = { Undefined };

    fn initial() -> Meaning {
        Meaning::Undefined
    }
}
