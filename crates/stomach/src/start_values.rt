//! The values with which a run begins (The TeXbook, page 345; `tex.web` 240).

/// The character that stands in front of a name where one is shown, `\escapechar`.
pub const ESCAPE_CHARACTER: i32 = 92;

/// The character at the end of each line, `\endlinechar`.
pub const END_LINE_CHARACTER: i32 = 13;

/// The character that ends a line where it is printed, `\newlinechar`.
pub const NEW_LINE_CHARACTER: i32 = 0;
