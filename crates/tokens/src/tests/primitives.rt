//! The places of the primitives.
use crate::{
    COMPATIBILITY_COUNT, Meaning, NameId, PRIMITIVE_COUNT, codes, primitive_code,
    primitive_meaning, primitive_name, primitive_table, start_meaning,
};
use std::process::Abort;
use std::test::Fail;

fn means(id: NameId, extended: bool, wanted: &Meaning) -> bool {
    start_meaning(id, extended).is_same(wanted)
}

fn is_first(code: u16, wanted: &Meaning) -> bool {
    primitive_meaning(code).is_same(wanted)
}

#[test]
fn a_code_names_its_primitive(rt: HostRuntime) {
    assert_eq!(rt; primitive_name(codes::INPUT), "input");
    assert_eq!(rt; primitive_name(codes::CONTROL_SPACE), " ");
    assert_eq!(rt; primitive_name(codes::ETEX_VERSION), "eTeXversion");
    assert_eq!(rt; primitive_name(codes::SHOWIFS), "showifs");
}

#[test]
fn both_tables_are_entered_in_order(rt: HostRuntime) -> Result<(), Fail> {
    let mut names = primitive_table(rt.alloc())?;
    assert_eq!(rt; names.len(), u64::from(PRIMITIVE_COUNT));
    assert_eq!(rt; names.intern(b"input")?.0, 0);
    assert_eq!(rt; names.intern(b"relax")?.0, u64::from(codes::RELAX));
    assert_eq!(rt; names.intern(b" ")?.0, u64::from(codes::CONTROL_SPACE));
    assert_eq!(rt; names.intern(b"showifs")?.0, 390);
    assert_eq!(rt; names.intern(b"foo")?.0, 391);
    Ok(())
}

#[test]
fn names_have_their_meanings(rt: HostRuntime) {
    assert_eq!(rt; primitive_code(b"unexpanded"), Some(COMPATIBILITY_COUNT));
    assert_eq!(rt; primitive_code(b"foo"), None);
    assert!(rt; is_first(codes::NULLFONT, &Meaning::Font(0)));
    assert!(rt; is_first(codes::SHOWBOX, &Meaning::Primitive(codes::SHOWBOX)));
    let extended = NameId(u64::from(codes::NUMEXPR));
    assert!(rt; means(extended, true, &Meaning::Primitive(codes::NUMEXPR)));
    assert!(rt; means(extended, false, &Meaning::Undefined));
    assert!(rt; means(NameId(391), true, &Meaning::Undefined));
}
