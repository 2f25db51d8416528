//! Sums of numbers of 32 bits, and maxima.

ghost use Rattle.std.specs.Prelude.{◌≡◌, ℕ, ◌+◌, ◌^◌, ◌+ℤ◌, neg_ℤ};
ghost use Rattle.std.specs.Int.{int_max};
ghost use Rattle.box_pack.specs.GlueSums.{IsWithin};

/// A sum with one number more.
pub(crate) fn plus(sum: i64, more: i32) -> i64
    requires { IsWithin (2 ^ 62) sum }
    ensures value { result ≡ sum +ℤ more }
    ensures range { (n : ℕ) → IsWithin n sum → IsWithin (n + 2 ^ 31) result }
{
    sum + i64::from(more)
}

/// The greater one of two numbers.
pub(crate) fn greater(most: i64, other: i64) -> i64
    ensures { result ≡ int_max most other }
{
    most.max(other)
}

/// A sum with the other sign.
pub(crate) fn negated(sum: i64) -> i64
    requires { IsWithin (2 ^ 61) sum }
    ensures { result ≡ neg_ℤ sum }
{
    -sum
}
