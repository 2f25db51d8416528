//! The places of parameters: first the integer parameters, then dimensions, glues and token lists, in the order
//! of the tables of primitives, then the integer parameters that e-TeX adds, and `\everyeof`.

/// The first place of a dimension parameter.
pub const FIRST_DIMENSION: u8 = 55;

/// The first place of a glue parameter.
pub const FIRST_GLUE: u8 = 76;

/// The first place of a token parameter.
pub const FIRST_TOKENS: u8 = 94;

/// The first place of a parameter that only e-TeX has.
pub const FIRST_EXTENDED: u8 = 103;

/// The place of `\everyeof`, a token parameter of e-TeX, and the last one.
pub const EVERY_EOF: u8 = 110;

/// How many parameters there are.
pub const PARAMETER_COUNT: u8 = 111;

/// The places of the integer parameters that aren't 0 at the start.
pub const TOLERANCE: u8 = 1;

pub const MAG: u8 = 17;

pub const TIME: u8 = 20;

pub const DAY: u8 = 21;

pub const MONTH: u8 = 22;

pub const YEAR: u8 = 23;

pub const MAX_DEAD_CYCLES: u8 = 40;

pub const HANG_AFTER: u8 = 41;

pub const ESCAPE_CHAR: u8 = 45;

pub const END_LINE_CHAR: u8 = 48;
