//! What a font does where two elements of a word meet (`tex.web`, sections 1034, 1038 and 1039).
ghost use Rattle.std.specs.Prelude.{◌≡◌};
ghost use Rattle.lig_kern.specs.Elements.{right_code, behind, between};

use crate::element::Element;
use tfm::{Action, Metrics};

/// The character for which a program is asked: the font says which one stands for a boundary.
fn right_code(metrics: &Metrics, next: &Element) -> Option<u8>
    ensures { result ≡ right_code metrics.now next.now }
{
    match next {
        Element::Start => None,
        Element::Boundary => metrics.boundary(),
        Element::Character(byte) => Some(*byte),
        Element::Ligature { byte, .. } => Some(*byte),
    }
}

/// What happens behind a character.
fn behind(metrics: &Metrics, left: u8, next: &Element) -> Action
    ensures { result ≡ behind metrics.now left (right_code metrics.now next.now) }
{
    match right_code(metrics, next) {
        None => Action::Nothing,
        Some(right) => metrics.action(Some(left), right),
    }
}

/// What happens where two elements meet.
#[tactic(auto, unfolding(crate::specs::Elements::between))]
pub(crate) fn action_between(metrics: &Metrics, here: &Element, next: &Element) -> Action
    ensures { result ≡ between metrics.now here.now next.now }
{
    match here {
        Element::Start => Action::Nothing,
        Element::Boundary => match next {
            Element::Start => Action::Nothing,
            Element::Boundary => Action::Nothing,
            Element::Character(right) => metrics.action(None, *right),
            Element::Ligature { byte, .. } => metrics.action(None, *byte),
        },
        Element::Character(left) => behind(metrics, *left, next),
        Element::Ligature { byte, .. } => behind(metrics, *byte, next),
    }
}
