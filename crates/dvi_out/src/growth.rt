//! How the glue of a box is set, and copies of leader boxes (`tex.web`, sections 625 to 628 and 634 to 637).
ghost use Rattle.std.specs.Prelude.{◌≡◌, ◌^◌, ◌<◌, ◌≤◌, ◌<ℤ◌, ◌*ℤ◌, pos, unsigned_abs};
ghost use Rattle.dvi_out.specs.SpellingWalk.{growth, share, held, part_of, copies_of, aligned, centred, expanded};
ghost use Rattle.dvi_out.specs.CopiesOf.{counted};

use nodes::GlueSet;
use scaled::{Glue, nearest};

/// By how much the glue of a list grew, of which so much takes part in the setting of its box: rounded once for all of
/// it, and held within 1,000,000,000sp either way.
#[tactic(auto, unfolding(crate::specs::SpellingWalk::growth))]
pub(crate) fn growth(set: &GlueSet, sum: i64) -> i32
    ensures { result ≡ growth set.now sum }
{
    if set.sign == 0 {
        return 0;
    }
    held(share(set, sum))
}

/// The share of the excess, rounded to the nearest.
fn share(set: &GlueSet, sum: i64) -> i128
    ensures { result ≡ share set.now sum }
{
    nearest(product(set.excess, sum), i128::from(set.total)).unwrap_or(0)
}

fn product(x: i64, y: i64) -> i128
    ensures value { result ≡ x *ℤ y }
    ensures bound { unsigned_abs result ≤ 2 ^ 126 }
{
    i128::from(x) * i128::from(y)
}

/// A growth, or the bound that it passes.
fn held(growth: i128) -> i32
    ensures { result ≡ held growth }
{
    if growth <= -1_000_000_000 {
        -1_000_000_000
    } else if 1_000_000_000 <= growth {
        1_000_000_000
    } else {
        growth as i32
    }
}

/// How much of a glue takes part in the setting of its box.
#[tactic(auto, unfolding(crate::specs::SpellingWalk::part_of))]
pub(crate) fn part_of(set: &GlueSet, glue: &Glue) -> i32
    ensures { result ≡ part_of set.now glue.now }
{
    if set.sign > 0 {
        if glue.stretch_order.is_same(set.order) {
            glue.stretch
        } else {
            0
        }
    } else if set.sign < 0 && glue.shrink_order.is_same(set.order) {
        glue.shrink
    } else {
        0
    }
}

/// Where copies of a leader box stand in a space.
#[derive(Clone, Copy)]
pub(crate) struct Spread {
    /// How far from the beginning of the space the first copy stands.
    pub(crate) first: u32,
    pub(crate) count: u32,
    /// The space between two copies.
    pub(crate) between: u32,
}

/// Where copies of a size stand in a space that begins at an offset from the edge of the box around. Space and size are
/// above 0.
#[tactic(auto, unfolding(crate::specs::SpellingWalk::copies_of))]
pub(crate) fn copies_of(how: u8, offset: i32, space: i32, size: i32) -> Spread
    requires { pos 0 <ℤ size }
    ensures { counted result ≡ copies_of how offset space size }
{
    match how {
        0 => aligned(
            offset.rem_euclid(size).unsigned_abs(),
            space.unsigned_abs(),
            size.unsigned_abs(),
        ),
        1 => centred(space.unsigned_abs(), size.unsigned_abs()),
        _ => expanded(space.unsigned_abs(), size.unsigned_abs()),
    }
}

#[tactic(auto, unfolding(crate::specs::SpellingWalk::aligned))]
fn aligned(rest: u32, space: u32, size: u32) -> Spread
    requires { 0 < size }
    ensures { counted result ≡ aligned rest space size }
{
    let first = size.saturating_sub(rest) % size;
    Spread {
        first,
        count: space.saturating_sub(first) / size,
        between: 0,
    }
}

#[tactic(auto, unfolding(crate::specs::SpellingWalk::centred))]
fn centred(space: u32, size: u32) -> Spread
    requires { 0 < size }
    ensures { counted result ≡ centred space size }
{
    Spread {
        first: space % size / 2,
        count: space / size,
        between: 0,
    }
}

#[tactic(auto, unfolding(crate::specs::SpellingWalk::expanded))]
fn expanded(space: u32, size: u32) -> Spread
    requires { 0 < size }
    ensures { counted result ≡ expanded space size }
{
    let count = space / size;
    let rest = u64::from(space % size);
    let part = rest / (u64::from(count) + 1);
    let inside = u64::from(count.saturating_sub(1)) * part;
    Spread {
        first: (rest.saturating_sub(inside) / 2) as u32,
        count,
        between: part as u32,
    }
}
