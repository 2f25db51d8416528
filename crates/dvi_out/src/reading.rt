//! What a device reads: laws of the definitions, as functions that do nothing and promise them.
ghost use Rattle.dvi_out.specs.Obeying.{CommandsAreReadBack};
ghost use Rattle.dvi_out.specs.ReadIsSet.{WhatIsReadIsWhatWasSet};
ghost use Rattle.dvi_out.specs.WalksSet.{WalksSetPlaces};

/// The bytes of a page's commands, read as a device reads them, do what the commands say.
pub fn commands_are_read_back()
    ensures { CommandsAreReadBack }
{}

/// The commands of the walk through a page set each thing where it stands.
pub fn walks_set_places()
    ensures { WalksSetPlaces }
{}

/// A device that reads the file of some pages finds on each what stands in its box, where it stands.
pub fn what_is_read_is_what_was_set()
    ensures { WhatIsReadIsWhatWasSet }
{}
