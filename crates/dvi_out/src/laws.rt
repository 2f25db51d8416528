//! Laws of the definitions: functions that do nothing and promise them.
ghost use Rattle.dvi_out.specs.Examples.{WorkedFiles};

/// Files and places, worked out by the definitions.
pub fn worked_files()
    ensures { WorkedFiles }
{}
