//! Whole runs in which `\input` opens files: each compares the terminal's whole text and the exit.
use crate::top::etex_main;
use std::alloc::Global;
use std::test::Fail;
use stomach::Exit;
use world::HonestWorld;

/// A run: its first line, the files that stand outside, its exit and the terminal's text.
struct Row {
    line: &'static str,
    files: &'static [(&'static str, &'static str)],
    exit: Exit,
    text: &'static str,
}

/// Whether the run ends and shows as the row says.
fn runs(alloc: Global, row: &Row) -> Result<bool, Fail> {
    let mut world = HonestWorld::new(alloc);
    for (name, lines) in row.files {
        world.put(name.as_bytes(), lines.as_bytes())?;
    }
    let mut words = Vec::new(alloc);
    words.push(String::from_str(alloc, row.line)?)?;
    let ended = etex_main(alloc, words.as_slice(), &mut world);
    Ok(ended == row.exit && world.shown() == row.text.as_bytes())
}

/// `\input` within the operands of `\catcode`.
const IN_NUMBERS: &[Row] = &[
    Row {
        line: "\\catcode`\\{=\\input n \\catcode`\\}=2 \\message{x}\\end",
        files: &[("n.tex", "1%\n")],
        exit: Exit::Done,
        text: "(n.tex) x\nNo pages of output.\n",
    },
    // two files in front of one digit
    Row {
        line: "\\catcode`\\{=\\input m \\input n \\catcode`\\}=2 \\message{x}\\end",
        files: &[("m.tex", "%\n"), ("n.tex", "1%\n")],
        exit: Exit::Done,
        text: "(m.tex) (n.tex) x\nNo pages of output.\n",
    },
    // the end of a file between the digits
    Row {
        line: "\\catcode`\\~=\\input n 3 ~\\end",
        files: &[("n.tex", "1%\n")],
        exit: Exit::Trouble,
        text: "(n.tex)\n! Undefined control sequence: ~.\nNo pages of output.\n",
    },
    // behind a grave accent no file is opened
    Row {
        line: "\\catcode`\\input n \\end",
        files: &[("n.tex", "1%\n")],
        exit: Exit::Trouble,
        text: "! Left out: operand.\nNo pages of output.\n",
    },
];

/// `\input` within a message's text, and in front of it.
const IN_TEXTS: &[Row] = &[
    // the file closes the brace
    Row {
        line: "\\catcode`\\{=1 \\catcode`\\}=2 \\message{a\\input t \\end",
        files: &[("t.tex", "b}\n")],
        exit: Exit::Done,
        text: "(t.tex ab)\nNo pages of output.\n",
    },
    // it ends within the text
    Row {
        line: "\\catcode`\\{=1 \\catcode`\\}=2 \\message{a\\input t }\\end",
        files: &[("t.tex", "b\n")],
        exit: Exit::Trouble,
        text: "(t.tex)\n! File ended while scanning.\nNo pages of output.\n",
    },
    // a brace is left over
    Row {
        line: "\\catcode`\\{=1 \\catcode`\\}=2 \\message{a\\input t \\end",
        files: &[("t.tex", "b}}\n")],
        exit: Exit::Trouble,
        text: "(t.tex ab\n! Left out: character.\nNo pages of output.\n",
    },
    // the brace itself stands in a file
    Row {
        line: "\\catcode`\\{=1 \\catcode`\\}=2 \\message\\input t \\end",
        files: &[("t.tex", "{b}%\n")],
        exit: Exit::Done,
        text: "(t.tex b)\nNo pages of output.\n",
    },
    // no brace stands in the file
    Row {
        line: "\\catcode`\\{=1 \\catcode`\\}=2 \\message\\input t {b}\\end",
        files: &[("t.tex", "%\n")],
        exit: Exit::Trouble,
        text: "(t.tex)\n! File ended while scanning.\nNo pages of output.\n",
    },
];

/// Files that open files.
const IN_FILES: &[Row] = &[
    Row {
        line: "a",
        files: &[
            ("a.tex", "\\input b \\relax\n\\end\n"),
            ("b.tex", "\\input c \n"),
            ("c.tex", "\\relax\n"),
        ],
        exit: Exit::Done,
        text: "(a.tex (b.tex (c.tex)) )\nNo pages of output.\n",
    },
    Row {
        line: "a",
        files: &[
            ("a.tex", "\\input b \\end\n"),
            ("b.tex", "\\input nope \\relax\n"),
        ],
        exit: Exit::Trouble,
        text: "(a.tex (b.tex\n! File not found: nope.tex.\nNo pages of output.\n",
    },
    // the same file twice
    Row {
        line: "\\input a \\input a \\end",
        files: &[("a.tex", "\\relax\n")],
        exit: Exit::Done,
        text: "(a.tex) (a.tex)\nNo pages of output.\n",
    },
    // fifteen files are open when the next one is opened
    Row {
        line: "f",
        files: &[("f.tex", "\\input f \n")],
        exit: Exit::Capacity,
        text: concat!(
            "(f.tex (f.tex (f.tex (f.tex (f.tex (f.tex (f.tex (f.tex (f.tex (f.tex (f.tex\n",
            "(f.tex (f.tex (f.tex (f.tex (f.tex\n",
            "! TeX capacity exceeded, sorry [text input levels=15].\nNo pages of output.\n",
        ),
    },
];

/// `\input`, and the end of a file, while a name is read.
const IN_NAMES: &[Row] = &[
    Row {
        line: "\\input a\\input b \\end",
        files: &[("a.tex", "\\relax\n"), ("b.tex", "\\relax\n")],
        exit: Exit::Done,
        text: "(a.tex) (b.tex)\nNo pages of output.\n",
    },
    Row {
        line: "a\\input b \\end",
        files: &[("a.tex", "\\relax\n"), ("b.tex", "\\relax\n")],
        exit: Exit::Done,
        text: "(a.tex) (b.tex)\nNo pages of output.\n",
    },
    Row {
        line: "a",
        files: &[
            ("a.tex", "\\input b d \\end\n"),
            ("b.tex", "\\input c%\n"),
            ("cd.tex", "\\relax\n"),
        ],
        exit: Exit::Done,
        text: "(a.tex (b.tex) (cd.tex) )\nNo pages of output.\n",
    },
];

#[test]
fn files_in_numbers(rt: HostRuntime) -> Result<(), Fail> {
    for (place, row) in IN_NUMBERS.iter().enumerate() {
        assert!(rt; runs(rt.alloc(), row)?, "row {place}");
    }
    Ok(())
}

#[test]
fn files_in_texts(rt: HostRuntime) -> Result<(), Fail> {
    for (place, row) in IN_TEXTS.iter().enumerate() {
        assert!(rt; runs(rt.alloc(), row)?, "row {place}");
    }
    Ok(())
}

#[test]
fn files_in_files(rt: HostRuntime) -> Result<(), Fail> {
    for (place, row) in IN_FILES.iter().enumerate() {
        assert!(rt; runs(rt.alloc(), row)?, "row {place}");
    }
    Ok(())
}

#[test]
fn files_in_names(rt: HostRuntime) -> Result<(), Fail> {
    for (place, row) in IN_NAMES.iter().enumerate() {
        assert!(rt; runs(rt.alloc(), row)?, "row {place}");
    }
    Ok(())
}
