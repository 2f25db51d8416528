//! Worked runs, computed by the definitions alone.
ghost use Rattle.stomach.specs.Example.{WorkedRun};

/// A file with one message, in 35 steps; a file that is opened within a number; a file that is named while another
/// name is read.
pub fn worked_run()
    ensures worked { WorkedRun }
{}
