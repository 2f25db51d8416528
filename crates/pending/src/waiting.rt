//! A token that waits to be read.
use tokens::Token;

/// A token with two flags.
#[derive(Clone, Copy, Debug)]
pub struct Waiting {
    pub token: Token,
    /// That it isn't to be expanded.
    pub noexpand: bool,
    /// That its step was spent when it was taken before.
    pub paid: bool,
}
