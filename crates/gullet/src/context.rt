//! What stands around a phrase.

/// What stands around a phrase while it is read.
#[derive(Clone, Copy, Debug)]
pub struct Context {
    /// How many phrases that count are unfinished, this one included.
    pub depth: u32,
    /// Whether the name of a file is being read.
    pub naming: bool,
    /// Whether no file may end here, and no outer macro may stand here.
    pub closed: bool,
}

/// Nothing stands around.
pub const OUTERMOST: Context = Context {
    depth: 0,
    naming: false,
    closed: false,
};
