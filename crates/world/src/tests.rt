//! Rows of printed text, worked out by hand from tex.web 54 to 62, and the two worlds at work.
use super::*;
use std::alloc::Global;
use std::fs;
use std::process::Abort;
use std::test::Fail;

/// No byte is this \newlinechar.
const NO_NEWLINE: i32 = -1;

/// What the terminal shows of prints that follow each other, and the columns after them.
fn shown_by(
    rt: &impl Abort,
    alloc: Global,
    prints: &[(&[u8], i32)],
    want: &[u8],
    columns: (u8, u8),
) -> Result<(), Fail> {
    let mut printer = Printer::new(alloc);
    let mut world = HonestWorld::new(alloc);
    for print in prints {
        printer.print(Target::Both, print.0, print.1)?;
    }
    printer.flush(&mut world)?;
    assert_eq!(rt; world.shown(), want);
    assert_eq!(rt; printer.columns(), columns);
    Ok(())
}

#[test]
fn line_ends_inside_a_form(rt: HostRuntime) -> Result<(), Fail> {
    let alloc = rt.alloc();
    let line = [b'a'; 78];
    let mut want = Vec::from_slice(alloc, &line)?;
    want.extend_from_slice(b"^\n^M!")?;
    shown_by(
        &rt,
        alloc,
        &[(&line, NO_NEWLINE), (b"\r!", NO_NEWLINE)],
        &want,
        (3, 3),
    )
}

#[test]
fn newlinechar_ends_lines(rt: HostRuntime) -> Result<(), Fail> {
    let alloc = rt.alloc();
    shown_by(&rt, alloc, &[(b"hi!there", 33)], b"hi\nthere", (5, 5))?;
    shown_by(
        &rt,
        alloc,
        &[(b"\x01", 94), (b"\n", 266)],
        b"^^A^^J",
        (6, 6),
    )?;
    shown_by(
        &rt,
        alloc,
        &[(b"\x7f\x80\xff", -1), (b"\xff", 255)],
        b"^^?^^80^^ff\n",
        (0, 0),
    )
}

#[test]
fn fresh_line_looks_at_both_columns(rt: HostRuntime) -> Result<(), Fail> {
    let alloc = rt.alloc();
    let mut printer = Printer::new(alloc);
    let mut world = HonestWorld::new(alloc);
    printer.fresh_line(Target::Both)?;
    printer.print(Target::Log, b"log", NO_NEWLINE)?;
    assert_eq!(rt; printer.columns(), (0, 3));
    printer.fresh_line(Target::Both)?;
    printer.print(Target::Both, b"text", NO_NEWLINE)?;
    printer.fresh_line(Target::Log)?;
    assert_eq!(rt; printer.columns(), (4, 0));
    printer.end_line(Target::Both)?;
    printer.flush(&mut world)?;
    assert_eq!(rt; world.shown(), b"\ntext\n".as_slice());
    printer.print(Target::Both, b"more", NO_NEWLINE)?;
    printer.flush(&mut world)?;
    assert_eq!(rt; world.shown(), b"\ntext\nmore".as_slice());
    Ok(())
}

#[test]
fn honest_world_keeps_files(rt: HostRuntime) -> Result<(), Fail> {
    let alloc = rt.alloc();
    let mut world = HonestWorld::new(alloc);
    world.put(b"b.tex", b"two")?;
    world.put(b"a.tex", b"one")?;
    world.append(b"b.tex", b" three")?;
    world.append(b"c.log", b"log")?;
    world.create(b"a.tex")?;
    assert_eq!(rt; world.file(b"b.tex"), Some(b"two three".as_slice()));
    assert_eq!(rt; world.file(b"a.tex"), Some(b"".as_slice()));
    assert_eq!(rt; world.file(b"d.tex"), None);
    assert_eq!(rt; world.name(0), Some(b"a.tex".as_slice()));
    assert_eq!(rt; world.name(2), Some(b"c.log".as_slice()));
    assert_eq!(rt; world.name(3), None);
    let fetched = world.fetch(alloc, b"c.log")?.ok_or("absent")?;
    assert_eq!(rt; fetched.as_slice(), b"log".as_slice());
    assert!(rt; world.fetch(alloc, b"d.tex")?.is_none());
    Ok(())
}

#[test]
fn names_stay_in_the_folder(rt: HostRuntime) -> Result<(), Fail> {
    for (name, good) in [
        (b"a.tex".as_slice(), true),
        (b"sub/a.tex", true),
        (b"", false),
        (b"/a.tex", false),
        (b"../a.tex", false),
        (b"a..tex", false),
        (b"a b.tex", false),
        (b"a\x7f", false),
        (&[b'x'; 200], true),
        (&[b'x'; 201], false),
    ] {
        assert_eq!(rt; is_good_name(name), good, "at {name:?}");
    }
    Ok(())
}

#[test]
fn folder_keeps_files(rt: HostRuntime) -> Result<(), Fail> {
    let alloc = rt.alloc();
    let mut world = DirWorld::new(rt.clone()?, alloc);
    let name = b"folder-keeps-files.tmp";
    world.create(name)?;
    world.append(name, b"one")?;
    world.append(name, b" two")?;
    let fetched = world.fetch(alloc, name)?.ok_or("absent")?;
    assert_eq!(rt; fetched.as_slice(), b"one two".as_slice());
    assert!(rt;
        world
            .fetch(alloc, b"folder-keeps-files.tmp/a.tex")?
            .is_none()
    );
    assert!(rt; world.fetch(alloc, b"no-such-folder/a.tex")?.is_none());
    assert!(rt; world.fetch(alloc, b".").is_err());
    fs::remove_file(&rt, "folder-keeps-files.tmp")?;
    world.show(b"shown")?;
    Ok(())
}
