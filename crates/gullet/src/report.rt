//! What expansion prints: files that are opened and closed, and troubles that are passed over (`tex.web` 73, 362 and
//! 537).
#![tactic(auto, unfolding(crate::specs::Report::file_begun, crate::specs::Report::file_over, crate::specs::Report::trouble_told))]

ghost use Rattle.std.specs.Prelude.{◌≡◌, OnOk, OnErr, length};
ghost use Rattle.gullet.specs.Report.{shown, with_gap, file_begun, file_over, trouble_told};

use std::alloc::AllocError;
use world::{Printer, Target};

/// The last column of the terminal that a text may reach where no line is ended in front of it.
const LAST_COLUMN: usize = 77;

/// Shows bytes on terminal and log.
pub fn show(printer: &mut Printer, bytes: &[u8], newline: i32) -> Result<(), AllocError>
    ensures ok { OnOk result (printer.new ≡ shown bytes.now newline printer.old) }
    ensures err { OnErr result (printer.new ≡ printer.old) }
{
    printer.print(Target::Both, bytes, newline)
}

/// Makes room for a text of some bytes: ends the line where the text would pass the last column, and else
/// puts a space in front of it, unless terminal and log are at the beginning of a line.
pub fn make_gap(printer: &mut Printer, size: usize, newline: i32) -> Result<(), AllocError>
    ensures ok { OnOk result (printer.new ≡ with_gap size newline printer.old) }
    ensures err { OnErr result (printer.new ≡ printer.old) }
{
    let (terminal, log) = printer.columns();
    if size > LAST_COLUMN || terminal as usize + size > LAST_COLUMN {
        return printer.end_line(Target::Both);
    }
    if terminal != 0 || log != 0 {
        return show(printer, b" ", newline);
    }
    Ok(())
}

/// Shows that a file is opened.
pub fn show_begun(printer: &mut Printer, name: &[u8], newline: i32) -> Result<(), AllocError>
    ensures ok { OnOk result (printer.new ≡ file_begun name.now newline printer.old) }
{
    make_gap(printer, name.len(), newline)?;
    show(printer, b"(", newline)?;
    show(printer, name, newline)
}

/// Shows that the lines of a file are used up.
pub fn show_over(printer: &mut Printer, newline: i32) -> Result<(), AllocError>
    ensures ok { OnOk result (printer.new ≡ file_over newline printer.old) }
{
    show(printer, b")", newline)
}

/// Tells a trouble that is passed over.
pub fn show_trouble(printer: &mut Printer, text: &[u8], newline: i32) -> Result<(), AllocError>
    ensures ok { OnOk result (printer.new ≡ trouble_told text.now newline printer.old) }
{
    printer.fresh_line(Target::Both)?;
    show(printer, b"! ", newline)?;
    show(printer, text, newline)?;
    show(printer, b".", newline)?;
    printer.end_line(Target::Both)
}
