//! Whole runs over a world in memory: each compares the terminal's whole text and the status.
use crate::top::etex_main;
use std::alloc::Global;
use std::test::Fail;
use stomach::{Exit, Machine, Start};
use world::{HonestWorld, World, WorldError};

mod faults;
mod inputs;
mod messages;
mod turns;

/// The line that gives braces, `#` and `^` their categories.
const LINE: &str = "\\catcode`\\{=1 \\catcode`\\}=2 \\catcode`\\#=6 \\catcode`\\^=7\n";

/// Runs a word over one file, and tells whether the exit and the terminal's text are these.
fn shows(
    alloc: Global,
    word: &str,
    name: &str,
    lines: &str,
    exit: Exit,
    text: &str,
) -> Result<bool, Fail> {
    let mut world = HonestWorld::new(alloc);
    if !name.is_empty() {
        world.put(name.as_bytes(), lines.as_bytes())?;
    }
    let mut words = Vec::new(alloc);
    words.push(String::from_str(alloc, word)?)?;
    let ended = etex_main(alloc, words.as_slice(), &mut world);
    Ok(ended == exit && world.shown() == text.as_bytes())
}

/// The same of a file with the line of categories in front.
fn runs(
    alloc: Global,
    word: &str,
    name: &str,
    lines: &str,
    exit: Exit,
    text: &str,
) -> Result<bool, Fail> {
    let mut all = String::from_str(alloc, LINE)?;
    all.push_str(lines)?;
    shows(alloc, word, name, all.as_str(), exit, text)
}

#[test]
fn message_of_one_file(rt: HostRuntime) -> Result<(), Fail> {
    let alloc = rt.alloc();
    let text = "(a.tex hi )\nNo pages of output.\n";
    assert!(rt;
        runs(
            alloc,
            "*a",
            "a.tex",
            "\\message{hi}\\end\n",
            Exit::Done,
            text
        )?
    );
    assert!(rt;
        runs(
            alloc,
            "a.tex",
            "a.tex",
            "\\message{hi}\\end\n",
            Exit::Done,
            text
        )?
    );
    let nested = "(a.tex {x}##\\relax \\par y )\nNo pages of output.\n";
    assert!(rt;
        runs(
            alloc,
            "a",
            "a.tex",
            "\\message \\relax{{x}#\\relax\\par y}\\relax\\end",
            Exit::Done,
            nested
        )?
    );
    Ok(())
}

#[test]
fn words_that_are_no_first_line(rt: HostRuntime) -> Result<(), Fail> {
    let alloc = rt.alloc();
    let usage = "usage: etex_cli [--steps N] [--stamp YYYYMMDDHHMM] [--generate N] [WORD ...]\n";
    let mut words = Vec::new(alloc);
    let mut world = HonestWorld::new(alloc);
    assert_eq!(rt; etex_main(alloc, words.as_slice(), &mut world), Exit::Usage);
    assert_eq!(rt; world.shown(), usage.as_bytes());
    words.push(String::from_str(alloc, "a")?)?;
    words.push(String::from_str(alloc, "b")?)?;
    let mut world = HonestWorld::new(alloc);
    assert_eq!(rt; etex_main(alloc, words.as_slice(), &mut world), Exit::Usage);
    assert_eq!(rt; world.shown(), usage.as_bytes());
    Ok(())
}

#[test]
fn first_lines_that_end_the_run(rt: HostRuntime) -> Result<(), Fail> {
    let alloc = rt.alloc();
    let no_end = "! No \\end found.\nNo pages of output.\n";
    assert!(rt; shows(alloc, "", "", "", Exit::Trouble, no_end)?);
    assert!(rt; shows(alloc, "*", "", "", Exit::Trouble, no_end)?);
    assert!(rt; shows(alloc, "   ", "", "", Exit::Trouble, no_end)?);
    assert!(rt; shows(alloc, "a%", "", "", Exit::Trouble, no_end)?);
    assert!(rt; shows(alloc, "\\relax", "", "", Exit::Trouble, no_end)?);
    assert!(rt; shows(alloc, "\\catcode`", "", "", Exit::Trouble, no_end)?);
    assert!(rt; shows(alloc, "\\catcode%", "", "", Exit::Trouble, no_end)?);
    assert!(rt; shows(alloc, "\\catcode`a=1%", "", "", Exit::Trouble, no_end)?);
    assert!(rt; shows(alloc, "\\end", "", "", Exit::Done, "No pages of output.\n")?);
    Ok(())
}

#[test]
fn files_that_are_not_found(rt: HostRuntime) -> Result<(), Fail> {
    let alloc = rt.alloc();
    let missing = "! File not found: missing.tex.\nNo pages of output.\n";
    assert!(rt; shows(alloc, "missing", "", "", Exit::Trouble, missing)?);
    assert!(rt;
        shows(
            alloc,
            "../x",
            "",
            "",
            Exit::Trouble,
            "! File not found: ../x.\nNo pages of output.\n"
        )?
    );
    assert!(rt;
        shows(
            alloc,
            "/x",
            "",
            "",
            Exit::Trouble,
            "! File not found: /x.tex.\nNo pages of output.\n"
        )?
    );
    let undefined = "! Undefined control sequence: \\x.\nNo pages of output.\n";
    assert!(rt; shows(alloc, "a\\x", "a.tex", "\\end", Exit::Trouble, undefined)?);
    assert!(rt;
        shows(
            alloc,
            "a\\end",
            "a.tex",
            "\\relax",
            Exit::Done,
            "(a.tex)\nNo pages of output.\n"
        )?
    );
    assert!(rt;
        shows(
            alloc,
            " \\end",
            "",
            "",
            Exit::Trouble,
            "! File not found: .tex.\nNo pages of output.\n"
        )?
    );
    Ok(())
}

#[test]
fn files_that_end(rt: HostRuntime) -> Result<(), Fail> {
    let alloc = rt.alloc();
    assert!(rt;
        shows(
            alloc,
            "e",
            "e.tex",
            "",
            Exit::Trouble,
            "(e.tex)\n! No \\end found.\nNo pages of output.\n"
        )?
    );
    let passed = "(a.tex)\n! No \\end found.\nNo pages of output.\n";
    assert!(rt; shows(alloc, "a", "a.tex", "\\catcode", Exit::Trouble, passed)?);
    assert!(rt; shows(alloc, "a", "a.tex", "\\catcode`a=1%", Exit::Trouble, passed)?);
    assert!(rt;
        shows(
            alloc,
            "a",
            "a.tex",
            "\\catcode`a=12%",
            Exit::Trouble,
            passed
        )?
    );
    let ended = "(a.tex)\n! File ended while scanning.\nNo pages of output.\n";
    assert!(rt; runs(alloc, "a", "a.tex", "\\message{x", Exit::Trouble, ended)?);
    Ok(())
}

#[test]
fn operands_of_another_form(rt: HostRuntime) -> Result<(), Fail> {
    let alloc = rt.alloc();
    let left_out = "(a.tex\n! Left out: operand.\nNo pages of output.\n";
    assert!(rt; shows(alloc, "a", "a.tex", "\\catcode 1", Exit::Trouble, left_out)?);
    assert!(rt;
        shows(
            alloc,
            "a",
            "a.tex",
            "\\catcode`\\xy=1",
            Exit::Trouble,
            left_out
        )?
    );
    assert!(rt;
        shows(
            alloc,
            "a",
            "a.tex",
            "\\catcode`a=b",
            Exit::Trouble,
            left_out
        )?
    );
    assert!(rt; shows(alloc, "a", "a.tex", "\\message x", Exit::Trouble, left_out)?);
    assert!(rt; shows(alloc, "a", "a.tex", "\\message\\x", Exit::Trouble, left_out)?);
    let character = "(a.tex\n! Left out: character.\nNo pages of output.\n";
    assert!(rt; shows(alloc, "a", "a.tex", "x", Exit::Trouble, character)?);
    assert!(rt;
        shows(
            alloc,
            "a",
            "a.tex",
            "\\catcode`a=16",
            Exit::Trouble,
            character
        )?
    );
    Ok(())
}

#[test]
fn names_without_a_meaning(rt: HostRuntime) -> Result<(), Fail> {
    let alloc = rt.alloc();
    let hbox = "(a.tex\n! Undefined control sequence: \\hbox.\nNo pages of output.\n";
    assert!(rt; shows(alloc, "*a", "a.tex", "\\hbox", Exit::Trouble, hbox)?);
    let inside = "(a.tex\n! Undefined control sequence: \\foo.\nNo pages of output.\n";
    assert!(rt;
        runs(
            alloc,
            "a",
            "a.tex",
            "\\message{x\\foo}",
            Exit::Trouble,
            inside
        )?
    );
    let active = "(a.tex\n! Undefined control sequence: ~.\nNo pages of output.\n";
    assert!(rt;
        shows(
            alloc,
            "a",
            "a.tex",
            "\\catcode`~=13 ~",
            Exit::Trouble,
            active
        )?
    );
    let invalid = "(a.tex\n! Text line contains an invalid character.\nNo pages of output.\n";
    assert!(rt; shows(alloc, "a", "a.tex", "\u{7f}", Exit::Trouble, invalid)?);
    Ok(())
}

#[test]
fn long_lines(rt: HostRuntime) -> Result<(), Fail> {
    let alloc = rt.alloc();
    let mut lines = String::new(alloc);
    for _ in 0..65_535 {
        lines.push_str("%")?;
    }
    let mut longer = lines.clone()?;
    lines.push_str("\n\\end\n")?;
    longer.push_str("%\n\\end\n")?;
    assert!(rt;
        shows(
            alloc,
            "y",
            "y.tex",
            lines.as_str(),
            Exit::Done,
            "(y.tex )\nNo pages of output.\n"
        )?
    );
    let full = "(y.tex\n! TeX capacity exceeded, sorry [buffer size=65535].\nNo pages of output.\n";
    assert!(rt; shows(alloc, "y", "y.tex", longer.as_str(), Exit::Capacity, full)?);
    Ok(())
}

#[test]
fn messages_are_broken_behind_79_bytes(rt: HostRuntime) -> Result<(), Fail> {
    let alloc = rt.alloc();
    let lines = concat!(
        "\\message{",
        "aaaaaaaaaabbbbbbbbbbccccccccccddddddddddeeeeeeeeeeffffffffffgggggggggghhhhhhhhh}\\end\n",
    );
    let broken = concat!(
        "(a.tex\n",
        "aaaaaaaaaabbbbbbbbbbccccccccccddddddddddeeeeeeeeeeffffffffffgggggggggghhhhhhhhh\n",
        " )\nNo pages of output.\n",
    );
    assert!(rt; runs(alloc, "a", "a.tex", lines, Exit::Done, broken)?);
    Ok(())
}

/// A world in memory that counts how often it is asked for a file.
#[derive(Drop)]
struct AskedWorld {
    inner: HonestWorld,
    asked: u64,
}

impl World for AskedWorld {
    ghost use Rattle.std.specs.Prelude.{Some};

    ghost told = { λ w. Some w.inner };

    ghost which = { λ _. 0 };

    ghost read_faults = { λ _. 0 };

    ghost write_faults = { λ _. 0 };

    fn fetch(&mut self, alloc: Global, name: &[u8]) -> Result<Option<Vec<u8>>, WorldError> {
        self.asked = self.asked.saturating_add(1);
        self.inner.fetch(alloc, name)
    }

    fn create(&mut self, name: &[u8]) -> Result<(), WorldError> {
        self.inner.create(name)
    }

    fn append(&mut self, name: &[u8], bytes: &[u8]) -> Result<(), WorldError> {
        self.inner.append(name, bytes)
    }

    fn show(&mut self, bytes: &[u8]) -> Result<(), WorldError> {
        self.inner.show(bytes)
    }
}

/// Runs a word where the only file is `a.tex`, and tells the exit and how many files were asked for.
fn asks(alloc: Global, word: &str, text: &str) -> Result<Option<(Exit, u64)>, Fail> {
    let mut inner = HonestWorld::new(alloc);
    inner.put(b"a.tex", b"\\end\n")?;
    let mut world = AskedWorld { inner, asked: 0 };
    let mut words = Vec::new(alloc);
    words.push(String::from_str(alloc, word)?)?;
    let exit = etex_main(alloc, words.as_slice(), &mut world);
    if world.inner.shown() == text.as_bytes() {
        Ok(Some((exit, world.asked)))
    } else {
        Ok(None)
    }
}

/// Adds a byte some times.
fn push_times(text: &mut String, times: u32) -> Result<(), Fail> {
    for _ in 0..times {
        text.push_str("a")?;
    }
    Ok(())
}

#[test]
fn files_are_asked_for_once_and_refused_names_never(rt: HostRuntime) -> Result<(), Fail> {
    let alloc = rt.alloc();
    let found = "(a.tex )\nNo pages of output.\n";
    assert_eq!(rt; asks(alloc, "a", found)?, Some((Exit::Done, 1)));
    let missing = "! File not found: missing.tex.\nNo pages of output.\n";
    assert_eq!(rt; asks(alloc, "missing", missing)?, Some((Exit::Trouble, 1)));
    let above = "! File not found: ../x.\nNo pages of output.\n";
    assert_eq!(rt; asks(alloc, "../x", above)?, Some((Exit::Trouble, 0)));
    let outside = "! File not found: /x.tex.\nNo pages of output.\n";
    assert_eq!(rt; asks(alloc, "/x", outside)?, Some((Exit::Trouble, 0)));
    let no_end = "! No \\end found.\nNo pages of output.\n";
    assert_eq!(rt; asks(alloc, "", no_end)?, Some((Exit::Trouble, 0)));
    Ok(())
}

#[test]
fn names_of_201_bytes_are_refused(rt: HostRuntime) -> Result<(), Fail> {
    let alloc = rt.alloc();
    // with `.tex`, these are names of 200 and of 201 bytes
    for (letters, asked) in [(196, 1), (197, 0)] {
        let mut word = String::new(alloc);
        push_times(&mut word, letters)?;
        let mut text = String::from_str(alloc, "! File not found: ")?;
        push_times(&mut text, 61)?;
        text.push_str("\n")?;
        push_times(&mut text, 79)?;
        text.push_str("\n")?;
        push_times(&mut text, letters - 140)?;
        text.push_str(".tex.\nNo pages of output.\n")?;
        assert_eq!(rt;
            asks(alloc, word.as_str(), text.as_str())?,
            Some((Exit::Trouble, asked)),
            "at {letters}"
        );
    }
    Ok(())
}

#[test]
fn names_with_a_dot_get_no_tex(rt: HostRuntime) -> Result<(), Fail> {
    let alloc = rt.alloc();
    let text = "(a.b )\nNo pages of output.\n";
    assert!(rt; shows(alloc, "a.b", "a.b", "\\end\n", Exit::Done, text)?);
    let missing = "! File not found: a.b.\nNo pages of output.\n";
    assert!(rt; shows(alloc, "a.b", "a.b.tex", "\\end\n", Exit::Trouble, missing)?);
    Ok(())
}

#[test]
fn exits_are_statuses(rt: HostRuntime) {
    assert_eq!(rt; Exit::Done as u8, 0);
    assert_eq!(rt; Exit::Trouble as u8, 1);
    assert_eq!(rt; Exit::Usage as u8, 2);
    assert_eq!(rt; Exit::Capacity as u8, 3);
    assert_eq!(rt; Exit::Spent as u8, 4);
    assert_eq!(rt; Exit::ReadFault as u8, 5);
    assert_eq!(rt; Exit::WriteFault as u8, 6);
    assert_eq!(rt; Exit::OutOfMemory as u8, 7);
}

/// The exit, the steps and the fetches of the run on `a` of so many steps, where its text is this.
fn budgeted(alloc: Global, budget: u64, text: &str) -> Result<Option<(Exit, u64, u64)>, Fail> {
    let mut world = HonestWorld::new(alloc);
    let mut lines = String::from_str(alloc, LINE)?;
    lines.push_str("\\message{hi}\\end\n")?;
    world.put(b"a.tex", lines.as_bytes())?;
    let start = Start {
        line: b"a".to_vec(alloc)?,
        budget,
    };
    let ended = Machine::new(alloc, start)?.run(&mut world);
    if world.shown() == text.as_bytes() {
        Ok(Some((ended.exit, ended.steps, ended.fetches)))
    } else {
        Ok(None)
    }
}

#[test]
fn budget_ends_the_run_at_each_step(rt: HostRuntime) -> Result<(), Fail> {
    let alloc = rt.alloc();
    // the line, the letter and the blank behind it are taken before the file is asked for
    let unopened = "! Step budget spent.\nNo pages of output.\n";
    for budget in 0..3 {
        assert_eq!(rt;
            budgeted(alloc, budget, unopened)?,
            Some((Exit::Spent, budget, 0)),
            "at {budget}"
        );
    }
    let opened = "(a.tex\n! Step budget spent.\nNo pages of output.\n";
    for budget in 3..34 {
        assert_eq!(rt;
            budgeted(alloc, budget, opened)?,
            Some((Exit::Spent, budget, 1)),
            "at {budget}"
        );
    }
    // the message is shown with its right brace, the last token but one
    let told = "(a.tex hi\n! Step budget spent.\nNo pages of output.\n";
    assert_eq!(rt; budgeted(alloc, 34, told)?, Some((Exit::Spent, 34, 1)));
    let done = "(a.tex hi )\nNo pages of output.\n";
    assert_eq!(rt; budgeted(alloc, 35, done)?, Some((Exit::Done, 35, 1)));
    assert_eq!(rt; budgeted(alloc, 36, done)?, Some((Exit::Done, 35, 1)));
    Ok(())
}
