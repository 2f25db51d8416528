//! Whole runs of which the values at the start decide the text, and runs with long messages and long names: each
//! compares the terminal's whole text and the exit.
use super::{push_times, runs};
use std::alloc::Global;
use std::test::Fail;
use stomach::Exit;

/// What stands behind the line of categories, and the exit and the terminal's text of the run.
const ROWS: &[(&str, Exit, &str)] = &[
    // byte 0 is passed over
    (
        "\\message{a^^@b}\\end\n",
        Exit::Done,
        "(a.tex ab )\nNo pages of output.\n",
    ),
    // in another category it is shown, as the end of a line
    (
        "\\catcode`\\^^@=12 \\message{a^^@b}\\end\n",
        Exit::Done,
        "(a.tex a\nb )\nNo pages of output.\n",
    ),
    // an empty line, behind the blank of the line's end
    (
        "\\message{a\n\nb}\\end\n",
        Exit::Done,
        "(a.tex a \\par b )\nNo pages of output.\n",
    ),
    // the end of a line that is written out, behind which the rest of the line is dropped
    (
        "\\message{a^^Mdropped}\nb}\\end\n",
        Exit::Done,
        "(a.tex a b )\nNo pages of output.\n",
    ),
    (
        "\\message{a^^M\nb}\\end\n",
        Exit::Done,
        "(a.tex a b )\nNo pages of output.\n",
    ),
    // the byte at the line's end, 13, stands behind the doubled superscript: 13 + 64 is `M`
    (
        "\\message{a^^\nb}\\end\n",
        Exit::Done,
        "(a.tex aMb )\nNo pages of output.\n",
    ),
    (
        "\\x^^\n",
        Exit::Trouble,
        "(a.tex\n! Undefined control sequence: \\xM.\nNo pages of output.\n",
    ),
    // a single superscript stays
    (
        "\\message{a^\nb}\\end\n",
        Exit::Done,
        "(a.tex a^ b )\nNo pages of output.\n",
    ),
];

#[test]
fn bytes_that_end_lines(rt: HostRuntime) -> Result<(), Fail> {
    for (place, row) in ROWS.iter().enumerate() {
        assert!(rt;
            runs(rt.alloc(), "a", "a.tex", row.0, row.1, row.2)?,
            "row {place}"
        );
    }
    Ok(())
}

/// A message of so many bytes.
fn message_of(alloc: Global, bytes: u32) -> Result<String, Fail> {
    let mut lines = String::from_str(alloc, "\\message{")?;
    push_times(&mut lines, bytes)?;
    lines.push_str("}\\end\n")?;
    Ok(lines)
}

/// The terminal's text of a message of 5,000 bytes: 63 lines of 79 bytes, and 23 bytes.
fn text_of_5000_bytes(alloc: Global) -> Result<String, Fail> {
    let mut text = String::from_str(alloc, "(a.tex\n")?;
    for _ in 0..63 {
        push_times(&mut text, 79)?;
        text.push_str("\n")?;
    }
    push_times(&mut text, 23)?;
    text.push_str(" )\nNo pages of output.\n")?;
    Ok(text)
}

#[test]
fn message_of_5000_bytes(rt: HostRuntime) -> Result<(), Fail> {
    let alloc = rt.alloc();
    let lines = message_of(alloc, 5_000)?;
    let text = text_of_5000_bytes(alloc)?;
    assert!(rt;
        runs(
            alloc,
            "a",
            "a.tex",
            lines.as_str(),
            Exit::Done,
            text.as_str()
        )?
    );
    Ok(())
}

#[test]
fn undefined_name_of_60_letters(rt: HostRuntime) -> Result<(), Fail> {
    let alloc = rt.alloc();
    let mut lines = String::from_str(alloc, "\\")?;
    push_times(&mut lines, 60)?;
    // 31 bytes stand in front of the letters on their line, so 48 letters end it
    let mut text = String::from_str(alloc, "(a.tex\n! Undefined control sequence: \\")?;
    push_times(&mut text, 48)?;
    text.push_str("\n")?;
    push_times(&mut text, 12)?;
    text.push_str(".\nNo pages of output.\n")?;
    assert!(rt;
        runs(
            alloc,
            "a",
            "a.tex",
            lines.as_str(),
            Exit::Trouble,
            text.as_str()
        )?
    );
    Ok(())
}
