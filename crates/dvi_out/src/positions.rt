//! Sums of positions and dimensions, modulo 2^32.
ghost use Rattle.std.specs.Prelude.{◌≡◌, pos};
ghost use Rattle.dvi_out.specs.SpellingWalk.{plus, minus};

/// The place that is so far to the right or down.
pub(crate) fn plus(place: i32, by: i32) -> i32
    ensures { result ≡ plus place by }
{
    place.wrapping_add(by)
}

/// The place that is so far to the left or up.
pub(crate) fn minus(place: i32, by: i32) -> i32
    ensures { result ≡ minus place by }
{
    place.wrapping_sub(by)
}

/// The place that is so far to the right or down.
pub(crate) fn onward(place: i32, by: u32) -> i32
    ensures { result ≡ plus place (pos by) }
{
    place.wrapping_add_unsigned(by)
}
