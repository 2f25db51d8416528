//! Phrases inside one another, to the limit.
use super::macros::Definition;
use super::reading::expanded;
use super::tex::with_macros;
use std::alloc::{AllocError, Global};
use std::test::Fail;
use world::HonestWorld;

/// The name without letters, which stands for nothing.
const MACROS: &[Definition] = &[(b"", b"", b"")];

/// A file with so many names inside one another.
fn nested(alloc: Global, depth: u32) -> Result<Vec<u8>, AllocError> {
    let mut file = Vec::new(alloc);
    for _ in 0..depth {
        file.extend_from_slice(b"\\csname\n")?;
    }
    for _ in 0..depth {
        file.extend_from_slice(b"\\endcsname\n")?;
    }
    file.extend_from_slice(b"xy")?;
    Ok(file)
}

/// What expansion leaves of such a file.
fn leaves(alloc: Global, depth: u32) -> Result<Vec<u8>, Fail> {
    let mut tex = with_macros(alloc, MACROS, b"\\input deep z")?;
    let mut world = HonestWorld::new(alloc);
    let file = nested(alloc, depth)?;
    world.put(b"deep.tex", &file)?;
    Ok(expanded(&mut tex, &mut world)?)
}

/// How many phrases are open in one another, and what expansion leaves.
const ROWS: &[(u32, &[u8])] = &[
    (1, b"xyz"),
    (10_000, b"xyz"),
    (10_001, b"! expansion frames=10000"),
];

#[test]
fn ten_thousand_phrases_stand_inside_one_another(rt: HostRuntime) -> Result<(), Fail> {
    for (depth, left) in ROWS {
        let text = leaves(rt.alloc(), *depth)?;
        assert_eq!(rt; text.as_slice(), *left);
    }
    Ok(())
}
