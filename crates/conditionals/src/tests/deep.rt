//! A condition that is decided while others are open inside it.
use crate::IfStack;
use std::test::Fail;

#[test]
fn an_outer_condition_is_decided_behind_an_inner_one(rt: HostRuntime) -> Result<(), Fail> {
    let mut stack = IfStack::new(rt.alloc());
    assert_eq!(rt; stack.innermost().is_none(), true);
    stack.open(3, 1)?;
    stack.open(15, 1)?;
    stack.chosen(false);
    stack.chosen_at(1, true);
    stack.chosen_at(3, true);
    assert_eq!(rt; (stack.kind(), stack.branch()), (15, 1));
    stack.close();
    assert_eq!(rt; (stack.kind(), stack.branch()), (3, -1));
    Ok(())
}
