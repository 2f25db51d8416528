//! Runs with four files of which one call of the world fails, each call in turn.
use crate::top::etex_main;
use std::alloc::Global;
use std::test::Fail;
use stomach::Exit;
use world::MemWorld;

/// A call's number, and the exit and the terminal's text of the run in which it fails.
const ROWS: &[(u64, Exit, &str)] = &[
    (1, Exit::WriteFault, ""),
    (
        2,
        Exit::ReadFault,
        "! Read fault: a.tex.\nNo pages of output.\n",
    ),
    (3, Exit::WriteFault, ""),
    (
        4,
        Exit::ReadFault,
        "(a.tex\n! Read fault: b.tex.\nNo pages of output.\n",
    ),
    (5, Exit::WriteFault, "(a.tex"),
    (
        6,
        Exit::ReadFault,
        "(a.tex (b.tex)\n! Read fault: c.tex.\nNo pages of output.\n",
    ),
    (7, Exit::WriteFault, "(a.tex (b.tex)"),
    (
        8,
        Exit::ReadFault,
        "(a.tex (b.tex) (c.tex)\n! Read fault: d.tex.\nNo pages of output.\n",
    ),
    (9, Exit::WriteFault, "(a.tex (b.tex) (c.tex)"),
    (
        10,
        Exit::Done,
        "(a.tex (b.tex) (c.tex) (d.tex) )\nNo pages of output.\n",
    ),
];

/// Whether the run in which this call fails ends and shows so.
fn fails(alloc: Global, call: u64, exit: Exit, text: &str) -> Result<bool, Fail> {
    let mut world = MemWorld::new(alloc);
    world.put(b"a.tex", b"\\input b \\input c \\input d \\end\n")?;
    world.put(b"b.tex", b"\\relax\n")?;
    world.put(b"c.tex", b"\\relax\n")?;
    world.put(b"d.tex", b"\\relax\n")?;
    world.fail(call)?;
    let mut words = Vec::new(alloc);
    words.push(String::from_str(alloc, "a")?)?;
    let ended = etex_main(alloc, words.as_slice(), &mut world);
    Ok(ended == exit && world.shown() == text.as_bytes())
}

#[test]
fn each_call_fails_in_turn(rt: HostRuntime) -> Result<(), Fail> {
    for (call, exit, text) in ROWS {
        assert!(rt; fails(rt.alloc(), *call, *exit, text)?, "call {call}");
    }
    Ok(())
}
