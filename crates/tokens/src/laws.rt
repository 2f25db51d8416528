//! Laws over the tables of primitives: the contract of each function is the law, and its body is empty.
ghost use Rattle.std.specs.Prelude.{◌≡◌};
ghost use Rattle.tokens.specs.NamedCodes.{CodesAreCountedThrough};
ghost use Rattle.tokens.specs.Parameters.{PlacesAreCountedThrough, KindsOfParametersFollow};
ghost use Rattle.tokens.specs.Primitives.{TablesHaveTheirLengths, compatibility_count, all_count};

use crate::primitives::{COMPATIBILITY_COUNT, PRIMITIVE_COUNT};

/// The code of each primitive is the place of its name in the tables.
pub fn codes_are_places()
    ensures { CodesAreCountedThrough }
{}

/// The tables are as long as they are said to be, by the definitions and by the constants.
pub fn tables_have_their_lengths()
    ensures tables { TablesHaveTheirLengths }
    ensures constants { (COMPATIBILITY_COUNT ≡ compatibility_count) × (PRIMITIVE_COUNT ≡ all_count) }
{}

/// Each parameter has its place, and each kind of parameters follows the one before it.
pub fn parameters_have_their_places()
    ensures places { PlacesAreCountedThrough }
    ensures kinds { KindsOfParametersFollow }
{}
