//! The arithmetic of expressions. A number or a dimension is a glue that neither stretches nor shrinks.
ghost use Rattle.std.specs.Prelude.{◌≡◌, ◌+ℤ◌, ◌*ℤ◌, neg_ℤ, option_and_then};
ghost use Rattle.std.specs.Option.{is_some};
ghost use Rattle.scaled.specs.ArithmeticQuotients.{within, nearest_quotient, fraction_of};
ghost use Rattle.etex_exprs.specs.TermTreeParts.{order_of, glue_of, with_parts, of_parts, quotient_of, multiplied, divided, scaled_by, negated, is_below, part_sum, glue_sum, glue_difference, checked, is_mixed};

use scaled::{Glue, Order, fraction, nearest};
use scan_nums::{Number, Phrase};

// A number that is at most `bound` in absolute value.
fn within(bound: i32, number: i128) -> Option<i32>
    ensures { result ≡ within bound number }
{
    let bound = i128::from(bound);
    if -bound <= number && number <= bound {
        Some(number as i32)
    } else {
        None
    }
}

fn product(bound: i32, x: i32, y: i32) -> Option<i32>
    ensures { result ≡ within bound (x *ℤ y) }
{
    within(bound, i128::from(x) * i128::from(y))
}

#[tactic(auto, unfolding(crate::specs::TermTreeParts::quotient_of))]
fn quotient(bound: i32, x: i32, divisor: i32) -> Option<i32>
    ensures { result ≡ quotient_of bound x divisor }
{
    match nearest(i128::from(x), i128::from(divisor)) {
        Some(number) => within(bound, number),
        None => None,
    }
}

fn sum(bound: i32, x: i32, y: i32) -> Option<i32>
    ensures { result ≡ within bound (x +ℤ y) }
{
    within(bound, i128::from(x) + i128::from(y))
}

fn negative(bound: i32, x: i32) -> Option<i32>
    ensures { result ≡ within bound (neg_ℤ x) }
{
    within(bound, -i128::from(x))
}

// The order of infinity of a stretch or a shrink: a zero one has none.
fn order_of(amount: i32, order: Order) -> Order
    ensures { result ≡ order_of amount order }
{
    if amount == 0 { Order::Normal } else { order }
}

fn glue_of(width: i32, stretch: i32, stretch_order: Order, shrink: i32, shrink_order: Order) -> Glue
    ensures { result ≡ glue_of width stretch stretch_order shrink shrink_order }
{
    Glue {
        width,
        stretch,
        stretch_order: order_of(stretch, stretch_order),
        shrink,
        shrink_order: order_of(shrink, shrink_order),
    }
}

// The glue of these parts, with the orders of another.
#[tactic(auto, unfolding(crate::specs::TermTreeParts::with_parts))]
fn with_parts(
    glue: Glue,
    width: Option<i32>,
    stretch: Option<i32>,
    shrink: Option<i32>,
) -> Option<Glue>
    ensures { result ≡ with_parts glue width stretch shrink }
{
    let width = width?;
    let stretch = stretch?;
    let shrink = shrink?;
    Some(glue_of(
        width,
        stretch,
        glue.stretch_order,
        shrink,
        glue.shrink_order,
    ))
}

/// The product of a glue and a whole number, where each part is within the bound.
#[tactic(auto, unfolding(crate::specs::TermTreeParts::multiplied))]
pub fn multiplied(bound: i32, glue: Glue, n: i32) -> Option<Glue>
    ensures { result ≡ multiplied bound glue n }
{
    let width = product(bound, glue.width, n);
    let stretch = product(bound, glue.stretch, n);
    let shrink = product(bound, glue.shrink, n);
    with_parts(glue, width, stretch, shrink)
}

/// The quotient of a glue by a whole number, rounded to the nearest, halves away from zero. It is `None`
/// where the divisor is 0.
#[tactic(auto, unfolding(crate::specs::TermTreeParts::divided))]
pub fn divided(bound: i32, glue: Glue, divisor: i32) -> Option<Glue>
    ensures { result ≡ divided bound glue divisor }
{
    let width = quotient(bound, glue.width, divisor);
    let stretch = quotient(bound, glue.stretch, divisor);
    let shrink = quotient(bound, glue.shrink, divisor);
    with_parts(glue, width, stretch, shrink)
}

/// The product of a glue and `n` divided by `divisor`, rounded once from the exact product.
#[tactic(auto, unfolding(crate::specs::TermTreeParts::scaled_by))]
pub fn scaled_by(bound: i32, glue: Glue, n: i32, divisor: i32) -> Option<Glue>
    ensures { result ≡ scaled_by bound glue n divisor }
{
    let width = fraction(glue.width, n, divisor, bound);
    let stretch = fraction(glue.stretch, n, divisor, bound);
    let shrink = fraction(glue.shrink, n, divisor, bound);
    with_parts(glue, width, stretch, shrink)
}

#[tactic(auto, unfolding(crate::specs::TermTreeParts::negated))]
fn negated(bound: i32, glue: Glue) -> Option<Glue>
    ensures { result ≡ negated bound glue }
{
    let width = negative(bound, glue.width);
    let stretch = negative(bound, glue.stretch);
    let shrink = negative(bound, glue.shrink);
    with_parts(glue, width, stretch, shrink)
}

fn is_below(order: Order, other: Order) -> bool
    ensures { result ≡ is_below order other }
{
    match (order, other) {
        (Order::Normal, Order::Fil | Order::Fill | Order::Filll) => true,
        (Order::Fil, Order::Fill | Order::Filll) => true,
        (Order::Fill, Order::Filll) => true,
        _ => false,
    }
}

// The sum of two stretches or shrinks: where their orders differ, the higher one stays alone.
#[tactic(auto, unfolding(crate::specs::TermTreeParts::part_sum))]
fn part_sum(bound: i32, x: i32, order: Order, y: i32, other: Order) -> Option<(i32, Order)>
    ensures { result ≡ part_sum bound x order y other }
{
    let order = order_of(x, order);
    let other = order_of(y, other);
    if is_below(order, other) {
        return Some((y, other));
    }
    if is_below(other, order) {
        return Some((x, order));
    }
    let amount = sum(bound, x, y)?;
    Some((amount, order_of(amount, order)))
}

#[tactic(auto, unfolding(crate::specs::TermTreeParts::of_parts))]
fn of_parts(
    width: Option<i32>,
    stretch: Option<(i32, Order)>,
    shrink: Option<(i32, Order)>,
) -> Option<Glue>
    ensures { result ≡ of_parts width stretch shrink }
{
    let width = width?;
    let stretch = stretch?;
    let shrink = shrink?;
    Some(Glue {
        width,
        stretch: stretch.0,
        stretch_order: stretch.1,
        shrink: shrink.0,
        shrink_order: shrink.1,
    })
}

/// The sum of two glues.
#[tactic(auto, unfolding(crate::specs::TermTreeParts::glue_sum))]
pub fn glue_sum(bound: i32, glue: Glue, other: Glue) -> Option<Glue>
    ensures { result ≡ glue_sum bound glue other }
{
    let width = sum(bound, glue.width, other.width);
    let stretch = part_sum(
        bound,
        glue.stretch,
        glue.stretch_order,
        other.stretch,
        other.stretch_order,
    );
    let shrink = part_sum(
        bound,
        glue.shrink,
        glue.shrink_order,
        other.shrink,
        other.shrink_order,
    );
    of_parts(width, stretch, shrink)
}

/// The sum of a glue and the negative of another.
#[tactic(auto, unfolding(crate::specs::TermTreeParts::glue_difference))]
pub fn glue_difference(bound: i32, glue: Glue, other: Glue) -> Option<Glue>
    ensures { result ≡ glue_difference bound glue other }
{
    glue_sum(bound, glue, negated(bound, other)?)
}

fn is_within(bound: i32, number: i32) -> bool
    ensures { result ≡ is_some (within bound number) }
{
    within(bound, i128::from(number)).is_some()
}

/// The glue, where each part is within the bound.
#[tactic(auto, unfolding(crate::specs::TermTreeParts::checked))]
pub fn checked(bound: i32, glue: Glue) -> Option<Glue>
    ensures { result ≡ checked bound glue }
{
    if is_within(bound, glue.width)
        && is_within(bound, glue.stretch)
        && is_within(bound, glue.shrink)
    {
        Some(glue)
    } else {
        None
    }
}

/// Whether an answer has mu units where others are wanted, or the other way round.
pub fn is_mixed(phrase: Phrase, number: Number) -> bool
    ensures { result ≡ is_mixed phrase number }
{
    match (phrase, number) {
        (Phrase::Glue, Number::MuGlue(_)) => true,
        (Phrase::MuGlue, Number::Glue(_)) => true,
        _ => false,
    }
}
