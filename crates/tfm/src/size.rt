//! The size at which a font is asked for (The TeXbook, chapter 12; tex.web sections 568 and 1258).

ghost use Rattle.std.specs.Prelude.{◌≡◌};
ghost use Rattle.tfm.specs.FontMetricsFixwords.{IsSize, asked_size};

/// The size that a font is loaded at.
#[derive(Clone, Copy, Debug, PartialEq, Eq)]
pub enum Size {
    /// its design size
    Design,
    /// this size, in sp
    At(i32),
    /// its design size times this number of thousandths
    Scaled(u16),
}

/// The size asked for, in sp, of a font with this design size in sp.
pub(crate) fn asked_size(design: u32, size: Size) -> u64
    requires { IsSize size }
    ensures { result ≡ asked_size design size }
{
    match size {
        Size::Design => u64::from(design),
        Size::At(asked) => u64::from(asked.unsigned_abs()),
        Size::Scaled(thousandths) => u64::from(design) * u64::from(thousandths) / 1000,
    }
}
