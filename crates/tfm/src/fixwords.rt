//! The numbers of a TFM file at a size (tex.web sections 571, 572 and 575).

ghost use Rattle.std.specs.Prelude.{◌≡◌, ◌*◌, ◌<◌, ◌≤◌, ◌^◌, pos};
ghost use Rattle.tfm.specs.FontMetricsFixwords.{fixword_at, fraction_at, sixteenfold, slant_of, halvings, weighed};

use crate::quarters::Quarters;

/// How often a size is halved until it is below 2^23.
fn halvings(size: u32) -> u32
    requires { size < 2 ^ 27 }
    ensures value { result ≡ halvings size }
{
    if size < 1 << 23 {
        0
    } else if size < 1 << 24 {
        1
    } else if size < 1 << 25 {
        2
    } else if size < 1 << 26 {
        3
    } else {
        4
    }
}

/// The lower three bytes as a binary fraction of 256 times the halved size.
fn weighed(halved: u32, word: Quarters) -> u64
    requires { halved < 2 ^ 23 }
    ensures value { result ≡ weighed halved word }
    ensures bound { result ≤ 256 * halved }
{
    let halved = u64::from(halved);
    (u64::from(word.b3) * halved / 256 + u64::from(word.b2) * halved) / 256
        + u64::from(word.b1) * halved
}

#[tactic(auto, unfolding(crate::specs::FontMetricsFixwords::fraction_at))]
fn fraction(size: u32, word: Quarters) -> i32
    requires { size < 2 ^ 27 }
    ensures value { result ≡ pos (fraction_at size word) }
{
    let halvings = halvings(size);
    (weighed(size >> halvings, word) / (16 >> halvings)) as i32
}

#[tactic(auto, unfolding(crate::specs::FontMetricsFixwords::sixteenfold))]
fn sixteenfold(size: u32) -> i32
    requires { size < 2 ^ 27 }
    ensures value { result ≡ pos (sixteenfold size) }
{
    let halvings = halvings(size);
    ((16 << halvings) * (size >> halvings)) as i32
}

/// A number in units of the size times 2^-20, in sp.
#[tactic(auto, unfolding(crate::specs::FontMetricsFixwords::fixword_at))]
pub(crate) fn fixword(size: u32, word: Quarters) -> i32
    requires { size < 2 ^ 27 }
    ensures value { result ≡ fixword_at size word }
{
    let fraction = fraction(size, word);
    if word.b0 == 255 {
        fraction - sixteenfold(size)
    } else {
        fraction
    }
}

/// A slant: a signed number in units of 2^-20, in units of 2^-16, rounded down.
#[tactic(auto, unfolding(crate::specs::FontMetricsFixwords::slant_of))]
pub(crate) fn slant(word: Quarters) -> i32
    ensures value { result ≡ slant_of word }
{
    i32::from_be_bytes([word.b0, word.b1, word.b2, word.b3]) >> 4
}

impl Quarters {
    ghost use Rattle.std.specs.Prelude.{◌≡◌, ◌<◌, ◌≤◌, ◌^◌};
    ghost use Rattle.tfm.specs.FontMetricsBytes.{word_of};
    ghost use Rattle.tfm.specs.FontMetricsFixwords.{points_of};

    /// The number in the four bytes.
    pub(crate) fn number(self) -> u32
        ensures value { result ≡ word_of self }
    {
        u32::from_be_bytes([self.b0, self.b1, self.b2, self.b3])
    }

    /// A number of units of 1pt/2^20, in sp.
    pub(crate) fn points(self) -> u32
        ensures value { result ≡ points_of self }
        ensures bound { self.b0 ≤ 127 → result < 2 ^ 27 }
    {
        self.number() / 16
    }
}
