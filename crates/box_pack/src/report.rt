//! What is to be told of a box whose glue doesn't suffice, or barely does (`tex.web`, sections 660, 666, 667, 674, 677
//! and 678).

/// What whoever packed a box may report of it. `Loose`, `Under` and `Tight` are reported where their badness is above
/// `\hbadness`, or for a vbox `\vbadness`; `Over` is where its size is above `\hfuzz` or `\vfuzz`, or where that bound of
/// badness is below 100.
#[derive(Clone, Copy, Debug, PartialEq, Eq)]
pub enum Report {
    /// Nothing.
    None,
    /// Its glue stretches, with this badness, at most 100.
    Loose(u16),
    /// Its glue stretches too far, with this badness, above 100.
    Under(u16),
    /// Its glue shrinks, with this badness.
    Tight(u16),
    /// It is too large by so many sp, all shrink used up; 2147483647 also stands for more.
    Over(i32),
}
