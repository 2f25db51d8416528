//! What is printed of a run besides its pages: files that are opened and closed, messages, and its ending
//! (`tex.web` 537, 1280 and 1333).
ghost use Rattle.std.specs.Prelude.{◌≡◌, OnOk, OnErr, length};
ghost use Rattle.stomach.specs.Report.{shown, with_gap, spaced, file_begun, file_over, told_why, no_pages, without_pages};

use crate::start_values::NEW_LINE_CHARACTER;
use std::alloc::AllocError;
use world::{Printer, Target};

/// The last column of the terminal that a text may reach where no line is ended in front of it.
const LAST_COLUMN: usize = 77;

/// Shows bytes on terminal and log.
pub fn show(printer: &mut Printer, bytes: &[u8]) -> Result<(), AllocError>
    ensures ok { OnOk result (printer.new ≡ shown bytes.now printer.old) }
    ensures err { OnErr result (printer.new ≡ printer.old) }
{
    printer.print(Target::Both, bytes, NEW_LINE_CHARACTER)
}

/// Makes room for a text of some bytes: ends the line where the text would pass the last column, and else
/// puts a space in front of it, unless terminal and log are at the beginning of a line.
fn make_gap(printer: &mut Printer, size: usize) -> Result<(), AllocError>
    ensures ok { OnOk result (printer.new ≡ with_gap size printer.old) }
    ensures err { OnErr result (printer.new ≡ printer.old) }
{
    let (terminal, log) = printer.columns();
    if size > LAST_COLUMN || terminal as usize + size > LAST_COLUMN {
        return printer.end_line(Target::Both);
    }
    if terminal != 0 || log != 0 {
        return show(printer, b" ");
    }
    Ok(())
}

/// Shows a message with room in front of it.
pub fn show_spaced(printer: &mut Printer, text: &[u8]) -> Result<(), AllocError>
    ensures ok { OnOk result (printer.new ≡ spaced text.now printer.old) }
{
    make_gap(printer, text.len())?;
    show(printer, text)
}

/// Shows that a file is opened.
pub fn show_begun(printer: &mut Printer, name: &[u8]) -> Result<(), AllocError>
    ensures ok { OnOk result (printer.new ≡ file_begun name.now printer.old) }
{
    make_gap(printer, name.len())?;
    show(printer, b"(")?;
    show(printer, name)
}

/// Shows that the lines of a file are used up.
pub fn show_over(printer: &mut Printer) -> Result<(), AllocError>
    ensures ok { OnOk result (printer.new ≡ file_over printer.old) }
{
    show(printer, b")")
}

/// Tells why a run is ended early.
pub fn show_reason(printer: &mut Printer, reason: &[u8]) -> Result<(), AllocError>
    ensures ok { OnOk result (printer.new ≡ told_why reason.now printer.old) }
{
    printer.fresh_line(Target::Both)?;
    show(printer, b"! ")?;
    show(printer, reason)?;
    show(printer, b".")
}

/// Shows the last line of a run without pages.
pub fn show_no_pages(printer: &mut Printer) -> Result<(), AllocError>
    ensures ok { OnOk result (printer.new ≡ without_pages printer.old) }
{
    printer.fresh_line(Target::Both)?;
    show(printer, no_pages())?;
    printer.end_line(Target::Both)
}

#[tactic(auto, unfolding(crate::specs::Report::no_pages))]
fn no_pages() -> &'static [u8]
    ensures { result.now ≡ no_pages }
{
    b"No pages of output."
}
