//! Laws of the definitions.
ghost use Rattle.scan_nums.specs.Starts.{AskedByName};

/// Which names stand at the ends of the ranges of codes that have values.
pub fn asked_by_name()
    ensures { AskedByName }
{}
