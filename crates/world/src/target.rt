//! Where a print goes (tex.web 54: the selector).

/// The places that one print reaches.
#[derive(Clone, Copy, Debug, PartialEq, Eq)]
pub enum Target {
    /// Terminal and log.
    Both,
    /// The log alone.
    Log,
    /// A write stream, by its number. It must be open.
    Stream(u8),
}
