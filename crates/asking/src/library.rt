//! How files are handed out to what reads them: what was printed is shown before each.
ghost use Rattle.std.specs.Prelude.{◌≡◌, OnOk, OnErr};
ghost use Rattle.world.specs.Name.{IsGoodName};
ghost use Rattle.world.specs.Output.{flushed};
ghost use Rattle.asking.specs.Library.{fetching, bytes_found, ShowsBeside};
ghost use Rattle.asking.specs.Seen.{DoesBesideBy};

use std::alloc::Global;
use tokens::Stop;
use world::{Printer, WorldError};

/// Files by name, handed out one after the other, and a terminal. What a call says of it is said of
/// what stands outside and of what was seen of it; no clause names the world behind it.
pub trait Library {
    ghost use Rattle.asking.specs.Seen.{Outside, Seen};

    /// The files that stand outside.
    ghost outside: { Outside };

    /// What was done outside up to now.
    ghost seen: { Self → Seen };

    /// Shows what was printed, and then reads a whole file: None where no file has this name.
    fn fetch(
        &mut self,
        alloc: Global,
        printer: &mut Printer,
        name: &[u8],
    ) -> Result<Option<Vec<u8>>, Stop>
        requires good { IsGoodName name.now }
        ensures does { DoesBesideBy bytes_found outside (seen self.old) (seen self.new) result printer.new (fetching outside name.now printer.old) };

    /// Shows what was printed, and forgets it.
    fn show(&mut self, printer: &mut Printer) -> Result<(), WorldError>
        ensures shows { ShowsBeside outside printer.old.unflushed (seen self.old) (seen self.new) result }
        ensures ok { OnOk result (printer.new ≡ flushed printer.old) }
        ensures err { OnErr result (printer.new ≡ printer.old) };
}
