//! Ids of names, past several sizes of the hash table.
use crate::NameTable;
use std::test::Fail;

#[test]
fn an_id_for_each_name(rt: HostRuntime) -> Result<(), Fail> {
    let mut names = NameTable::new(rt.alloc());
    assert!(rt; names.is_empty());
    assert_eq!(rt; names.intern(b"relax")?.0, 0);
    assert_eq!(rt; names.intern(b"")?.0, 1);
    assert_eq!(rt; names.intern(b"par")?.0, 2);
    assert_eq!(rt; names.intern(b"relax")?.0, 0);
    let empty = names.intern(b"")?;
    assert_eq!(rt; empty.0, 1);
    assert_eq!(rt; names.len(), 3);
    assert!(rt; empty.0 < names.len());
    assert_eq!(rt; names.text(empty), b"".as_slice());
    Ok(())
}

#[test]
fn ids_stay_while_the_table_grows(rt: HostRuntime) -> Result<(), Fail> {
    let mut names = NameTable::new(rt.alloc());
    for i in 0..5000u16 {
        let id = names.intern(&i.to_be_bytes())?;
        assert_eq!(rt; id.0, u64::from(i));
    }
    for i in 0..5000u16 {
        let id = names.intern(&i.to_be_bytes())?;
        assert_eq!(rt; id.0, u64::from(i));
        assert!(rt; id.0 < names.len());
        assert_eq!(rt; names.text(id), i.to_be_bytes().as_slice());
    }
    assert_eq!(rt; names.len(), 5000);
    Ok(())
}

#[test]
fn a_name_of_sixty_letters(rt: HostRuntime) -> Result<(), Fail> {
    let mut names = NameTable::new(rt.alloc());
    let long = [b'x'; 60];
    assert_eq!(rt; names.intern(&long)?.0, 0);
    assert_eq!(rt; names.intern(&long[1..])?.0, 1);
    let again = names.intern(&long)?;
    assert_eq!(rt; again.0, 0);
    assert!(rt; again.0 < names.len());
    assert_eq!(rt; names.text(again), long.as_slice());
    Ok(())
}
