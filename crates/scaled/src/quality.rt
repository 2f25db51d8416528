//! How good or bad a setting of glue is: `tex.web`, section 108; The TeXbook, chapter 14.

ghost use Rattle.std.specs.Prelude.{◌≡◌, ◌<◌, ◌≤◌, pos, ◌≤ℤ◌};
ghost use Rattle.scaled.specs.ArithmeticBadness.{badness_of, badness_of_ratio, ratio_of};

/// The badness of glue that stretches or shrinks by `t` sp where its total is `s` sp: about
/// 100 (t/s)^3, and at most 10000, which stands for infinitely bad.
pub fn badness(t: i128, s: i128) -> u16
    requires not_negative { pos 0 ≤ℤ t }
    ensures value { result ≡ badness_of t s }
    ensures bound { result ≤ 10000 }
{
    if t == 0 {
        return 0;
    }
    if s <= 0 {
        return 10000;
    }
    let ratio = ratio(t.unsigned_abs(), s.unsigned_abs());
    badness_at(ratio)
}

// About 297 times `t / s`; anything above 1290 where that is large.
fn ratio(t: u128, s: u128) -> u128
    requires divisor { 0 < s }
    ensures value { result ≡ ratio_of t s }
{
    if t <= 7_230_584 {
        297 * t / s
    } else if s >= 1_663_497 {
        t / (s / 297)
    } else {
        t
    }
}

fn badness_at(ratio: u128) -> u16
    ensures value { result ≡ badness_of_ratio ratio }
    ensures bound { result ≤ 10000 }
{
    if ratio > 1290 {
        10000
    } else {
        ((ratio * ratio * ratio + 131_072) / 262_144) as u16
    }
}
