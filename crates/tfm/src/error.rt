//! The ways in which a TFM file is refused (tex.web section 561).

use std::alloc::AllocError;
use thiserror::Error;

/// Why no metrics were read. A place is the offset, in bytes from the file's start, of the four-byte
/// word at fault.
#[derive(Clone, Copy, Debug, PartialEq, Eq, Error)]
pub enum TfmError {
    #[error("the file is shorter than it says")]
    TooShort,
    #[error("the lengths of the tables disagree")]
    LengthsDisagree,
    #[error("an index leaves its table at byte {0}")]
    BadIndex(u32),
    #[error("a number is out of range at byte {0}")]
    BadFixword(u32),
    #[error("the size is out of range")]
    BadSize,
    #[error("larger characters come back at byte {0}")]
    Loop(u32),
    #[error("memory ran out")]
    OutOfMemory,
}

impl TfmError {
    ghost use Rattle.std.specs.Prelude.{◌≡◌};
    ghost use Rattle.tfm.specs.FontMetricsErrors.{error_number};

    /// The number of the answer, 1 to 7, in the order of the variants.
    pub fn number(&self) -> u8
        ensures { result ≡ error_number self.now }
    {
        match self {
            TfmError::TooShort => 1,
            TfmError::LengthsDisagree => 2,
            TfmError::BadIndex(_) => 3,
            TfmError::BadFixword(_) => 4,
            TfmError::BadSize => 5,
            TfmError::Loop(_) => 6,
            TfmError::OutOfMemory => 7,
        }
    }
}

impl From<AllocError> for TfmError {
    ghost use Rattle.tfm.specs.declared.error.TfmError.TheVariants.{OutOfMemory};
    ghost use Rattle.std.specs.Prelude.{◌≡◌};

    ghost from_gives = { λ _ e. e ≡ OutOfMemory };

    fn from(_error: AllocError) -> TfmError {
        TfmError::OutOfMemory
    }
}
