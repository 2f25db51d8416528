//! What a font does where two characters meet (tex.web sections 545 and 1040).

/// What a font does where two characters meet.
#[derive(Clone, Copy, Debug, PartialEq, Eq)]
pub enum Action {
    Nothing,
    /// This much space, in sp, comes between the two.
    Kern(i32),
    /// The character `byte` comes between the two. The left one stays where `keep_left` holds, the right one where
    /// `keep_right` holds; then the cursor passes over `skip` characters.
    Lig {
        byte: u8,
        keep_left: bool,
        keep_right: bool,
        skip: u8,
    },
}
