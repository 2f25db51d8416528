//! Conditions that are opened, decided and closed.
use crate::IfStack;
use std::test::Fail;

#[test]
fn an_inner_condition_leaves_the_outer_one(rt: HostRuntime) -> Result<(), Fail> {
    let mut stack = IfStack::new(rt.alloc());
    assert_eq!(rt; (stack.level(), stack.kind(), stack.branch()), (0, 0, 0));
    stack.open(17, 3)?;
    stack.chosen(false);
    stack.open(-13, 4)?;
    assert_eq!(rt; (stack.level(), stack.kind(), stack.branch()), (2, -13, 0));
    stack.chosen(true);
    assert_eq!(rt; stack.branch(), -1);
    stack.close();
    assert_eq!(rt; (stack.level(), stack.kind(), stack.branch()), (1, 17, 1));
    Ok(())
}

#[test]
fn a_thousand_conditions_are_open_at_once(rt: HostRuntime) -> Result<(), Fail> {
    let mut stack = IfStack::new(rt.alloc());
    for line in 0..1000u32 {
        stack.open(17, line)?;
    }
    assert_eq!(rt; stack.level(), 1000);
    Ok(())
}
