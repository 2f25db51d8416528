//! The fonts of a file (`tex.web`, section 602).

use sqlite_items::Items;

/// A font as the file names it.
#[derive(Debug, Drop)]
pub struct FontDef {
    /// Its number in the nodes, 1 and above. Its number in the file is one less.
    pub number: u8,
    pub checksum: u32,
    /// The size at which it is used, in sp.
    pub size: i32,
    /// The size for which it was designed, in sp.
    pub design: i32,
    /// At most 255 bytes.
    pub name: Items<u8>,
}
