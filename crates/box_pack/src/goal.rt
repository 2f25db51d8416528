//! What size a box is to have (`tex.web`, section 645).

ghost use Rattle.std.specs.Prelude.{◌≡◌};

/// How wide an hbox is to be, or how high a vbox, in sp.
#[derive(Clone, Copy, Debug, PartialEq, Eq)]
pub enum Goal {
    /// As its list is.
    Natural,
    /// So wide or high.
    To(i32),
    /// By so much more than its list.
    Spread(i32),
}

impl Goal {
    ghost use Rattle.box_pack.specs.PackingBoxes.{size_for};

    /// The size for a list of this natural size.
    pub(crate) fn size_for(self, natural: i32) -> i64
        ensures { result ≡ size_for self natural }
    {
        match self {
            Goal::Natural => i64::from(natural),
            Goal::To(size) => i64::from(size),
            Goal::Spread(more) => i64::from(natural) + i64::from(more),
        }
    }
}
