//! Laws of the environments, over any list of calls, and of the places of parameters.
ghost use Rattle.std.specs.Prelude.{◌≡◌};
ghost use Rattle.save_groups.specs.Calls.{CallsLaw, SavesLaw, LevelsLaw, GivenLaw};
ghost use Rattle.save_groups.specs.Examples.{NodesAreCounted};
ghost use Rattle.save_groups.specs.Nodes.{FurtherKeysLaw, GivenKeysLaw};
ghost use Rattle.tokens.specs.Parameters.{first_dimension_place, first_glue_place, first_token_place, first_extended_place, everyeof_place, all_parameter_count, tolerance_place, mag_place, time_place, day_place, month_place, year_place, maxdeadcycles_place, hangafter_place, escapechar_place, endlinechar_place};

use crate::parameters::{
    DAY, END_LINE_CHAR, ESCAPE_CHAR, EVERY_EOF, FIRST_DIMENSION, FIRST_EXTENDED, FIRST_GLUE,
    FIRST_TOKENS, HANG_AFTER, MAG, MAX_DEAD_CYCLES, MONTH, PARAMETER_COUNT, TIME, TOLERANCE, YEAR,
};

/// What the calls on new environments make of them is what the accepted ones make, one after another, and each call
/// tells what the definitions say. A call that was refused is left out.
pub fn calls_law()
    ensures law { CallsLaw }
{}

/// How many saves an assignment makes: one at most, and none where it is global.
pub fn saves_law()
    ensures law { SavesLaw }
{}

/// How environments stand in one another: an entry belongs to its own group, or is what it is outside.
pub fn levels_law()
    ensures law { LevelsLaw }
{}

/// An entry that no call gave a value is what it was at the start.
pub fn given_law()
    ensures { GivenLaw }
{}

/// How many nodes the registers from 256 on take: on examples, and that keys in the list whose entries have their
/// values of the start, as those that no call gave a value, change nothing.
pub fn nodes_law()
    ensures counted { NodesAreCounted }
    ensures further { FurtherKeysLaw }
    ensures given { GivenKeysLaw }
{}

/// The places of parameters are those of their names (`tokens`, `parameters_have_their_places`).
pub fn places_law()
    ensures first_dimension { FIRST_DIMENSION ≡ first_dimension_place }
    ensures first_glue { FIRST_GLUE ≡ first_glue_place }
    ensures first_tokens { FIRST_TOKENS ≡ first_token_place }
    ensures first_extended { FIRST_EXTENDED ≡ first_extended_place }
    ensures every_eof { EVERY_EOF ≡ everyeof_place }
    ensures all_parameters { PARAMETER_COUNT ≡ all_parameter_count }
    ensures tolerance { TOLERANCE ≡ tolerance_place }
    ensures mag { MAG ≡ mag_place }
    ensures time { TIME ≡ time_place }
    ensures day { DAY ≡ day_place }
    ensures month { MONTH ≡ month_place }
    ensures year { YEAR ≡ year_place }
    ensures max_dead_cycles { MAX_DEAD_CYCLES ≡ maxdeadcycles_place }
    ensures hang_after { HANG_AFTER ≡ hangafter_place }
    ensures escape_char { ESCAPE_CHAR ≡ escapechar_place }
    ensures end_line_char { END_LINE_CHAR ≡ endlinechar_place }
{}
