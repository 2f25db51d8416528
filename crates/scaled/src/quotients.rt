//! Quotients of whole numbers: `tex.web`, sections 105 to 107, and the fractions of `etex.ch`.

ghost use Rattle.std.specs.Prelude.{◌≡◌, ◌+◌, ◌*◌, ◌/◌, ◌^◌, ◌<◌, ◌≤◌, ◌⊎◌, ◌↔◌, ℤ, pos, ◌*ℤ◌, ◌<ℤ◌, unsigned_abs, int_div, int_rem, IsNone, IfSome};
ghost use Rattle.scaled.specs.ArithmeticQuotients.{IsTruncated, multiple_of, IsNearest, nearest_whole, nearest_of, nearest_quotient, within, fraction_of};

/// `x` times `n` divided by `d`, truncated, and the remainder, which has the sign of `x`. It is `None`
/// where the quotient is 2^30 or more in absolute value, and so no dimension.
pub fn xn_over_d(x: i32, n: u32, d: u32) -> Option<(i32, i32)>
    requires factor { n ≤ 65536 }
    requires divisor { 1 ≤ d }
    requires small_divisor { d ≤ 65536 }
    ensures value { result ≡ multiple_of x n d }
    ensures none { IsNone result ↔ (2 ^ 30 ≤ unsigned_abs (int_div (x *ℤ pos n) (pos d))) }
    ensures truncated { IfSome result (λ r. IsTruncated (x *ℤ pos n) d r.0 r.1) }
{
    let (quotient, rest) = truncated(multiple(x, n), d);
    if quotient.unsigned_abs() < 1 << 30 {
        Some((quotient as i32, rest as i32))
    } else {
        None
    }
}

// The exact product of a number and a factor.
fn multiple(x: i32, n: u32) -> i64
    requires factor { n ≤ 65536 }
    ensures value { result ≡ x *ℤ pos n }
{
    i64::from(x) * i64::from(n)
}

// The quotient of `n` by `d`, rounded toward 0, and what it leaves.
fn truncated(n: i64, d: u32) -> (i64, i64)
    requires divisor { 1 ≤ d }
    ensures quotient { result.0 ≡ int_div n (pos d) }
    ensures rest { result.1 ≡ int_rem n (pos d) }
    ensures truncated { IsTruncated n d result.0 result.1 }
{
    let d = i64::from(d);
    (n / d, n % d)
}

// The nearest whole number to `n / d`, a half counting up.
fn rounded(n: u128, d: u128) -> u128
    requires number { n ≤ 2 ^ 126 }
    requires divisor { d ≤ 2 ^ 126 }
    requires not_zero { 0 < d }
    ensures value { result ≡ nearest_whole n d }
    ensures bound { result ≤ 2 ^ 126 }
{
    (2 * n + d) / (2 * d)
}

/// The whole number nearest to `n / d`, a half rounded away from 0. It is `None` exactly where `d` is 0.
pub fn nearest(n: i128, d: i128) -> Option<i128>
    requires number { unsigned_abs n ≤ 2 ^ 126 }
    requires divisor { unsigned_abs d ≤ 2 ^ 126 }
    ensures value { result ≡ nearest_quotient n d }
    ensures none { IsNone result ↔ (d ≡ pos 0) }
    ensures nearest { IfSome result (IsNearest n d) }
    ensures alone { IfSome result (λ q. (p : ℤ) → IsNearest n d p → p ≡ q) }
{
    if d == 0 {
        return None;
    }
    let magnitude = rounded(n.unsigned_abs(), d.unsigned_abs()) as i128;
    Some(if (n < 0) == (d < 0) {
        magnitude
    } else {
        -magnitude
    })
}

/// The nearest whole number to `x` times `y` divided by `z`, rounded once from the exact product, a half
/// away from 0. It is `None` where `z` is 0, and where the number is beyond `max` in absolute value.
pub fn fraction(x: i32, y: i32, z: i32, max: i32) -> Option<i32>
    ensures value { result ≡ fraction_of x y z max }
    ensures none { IsNone result ↔ ((z ≡ pos 0) ⊎ (max <ℤ pos (unsigned_abs (nearest_of (x *ℤ y) z)))) }
    ensures nearest { IfSome result (λ q. IsNearest (x *ℤ y) z q) }
{
    match nearest(product(x, y), i128::from(z)) {
        Some(quotient) => within(max, quotient),
        None => None,
    }
}

// The exact product of two numbers.
fn product(x: i32, y: i32) -> i128
    ensures value { result ≡ x *ℤ y }
    ensures bound { unsigned_abs result ≤ 2 ^ 62 }
{
    i128::from(x) * i128::from(y)
}

// A number that is at most `max` in absolute value.
fn within(max: i32, number: i128) -> Option<i32>
    ensures value { result ≡ within max number }
{
    let max = i128::from(max);
    if -max <= number && number <= max {
        Some(number as i32)
    } else {
        None
    }
}
