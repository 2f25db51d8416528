//! Where expressions end, and parentheses.
ghost use Rattle.std.specs.Prelude.{OnSome};
ghost use Rattle.etex_exprs.specs.Standing.{WantsToken};

use super::Item::{self, ActiveRelax, Int, NamedRelax, Relax, Sign};
use super::{gives, go_on, outcome, take_item, take_more};
use crate::{ExprScan, Number, Phrase, Verdict};
use std::alloc::Global;
use tokens::Kind;

const SUM: &[Item] = &[Int(3), Sign(b'+'), Int(4)];

fn is_before(verdict: Option<Verdict>, value: i32) -> bool {
    match verdict {
        Some(
            Verdict::DoneBefore {
                number: Number::Int(number),
                back: 1,
            },
        ) => number == value,
        _ => false,
    }
}

#[test]
fn a_relax_behind_an_expression_belongs_to_it_by_its_meaning(rt: HostRuntime) {
    for last in [Relax, ActiveRelax] {
        assert!(rt; gives(outcome(rt.alloc(), Phrase::Int, SUM, last), Int(7)));
    }
    assert!(rt; is_before(outcome(rt.alloc(), Phrase::Int, SUM, NamedRelax), 7));
}

#[test]
fn another_token_behind_an_expression_is_given_back(rt: HostRuntime) {
    for last in [Sign(b'x'), Sign(b')'), Sign(b'('), Sign(b'1')] {
        assert!(rt; is_before(outcome(rt.alloc(), Phrase::Int, SUM, last), 7));
    }
}

// Opens or closes so many parentheses.
fn take_signs(scan: &mut ExprScan, byte: u8, count: u32) -> Option<()>
    requires { WantsToken scan.old }
    ensures { OnSome result (WantsToken scan.new) }
{
    'signs: for _ in 0..count {
        take_more(scan, Sign(byte))?;
    }
    Some(())
}

fn close_all(scan: &mut ExprScan, depth: u32, last: Item) -> Option<Verdict>
    requires { WantsToken scan.old }
{
    take_signs(scan, b')', depth)?;
    take_item(scan, last)
}

/// A sum in parentheses that nest so deep.
fn nested(alloc: Global, depth: u32, closed: u32, last: Item) -> Option<Verdict> {
    let mut scan = ExprScan::new(alloc, Phrase::Int);
    take_signs(&mut scan, b'(', depth)?;
    go_on(&mut scan, SUM)?;
    close_all(&mut scan, closed, last)
}

#[test]
fn parentheses_nest_to_any_depth(rt: HostRuntime) {
    for depth in [1u32, 4, 5, 30] {
        assert!(rt; gives(nested(rt.alloc(), depth, depth, Relax), Int(7)));
        assert!(rt; is_before(nested(rt.alloc(), depth, depth, Sign(b')')), 7));
    }
}

#[test]
fn a_parenthesis_that_is_not_closed_is_a_trouble(rt: HostRuntime) {
    for last in [Relax, Sign(b'x'), Sign(b'('), NamedRelax] {
        let verdict = nested(rt.alloc(), 30, 29, last);
        assert!(rt; matches!(verdict, Some(Verdict::Trouble(Kind::MissingParenthesis))));
    }
}

/// In `-(3-5)` the sign isn't the expression's: it begins an operand, in which a number is missing at `(`.
#[test]
fn a_sign_in_front_of_a_parenthesis_begins_an_operand(rt: HostRuntime) {
    let verdict = outcome(rt.alloc(), Phrase::Int, &[], Sign(b'-'));
    assert!(rt; matches!(verdict, Some(Verdict::Sub(Phrase::Int))));
}
