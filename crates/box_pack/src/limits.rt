//! The limit of sizes, and what sizes a box is to have.

ghost use Rattle.std.specs.Prelude.{◌≡◌, ◌-ℤ◌, ◌^◌};
ghost use Rattle.box_pack.specs.PackingLimits.{limited, limited_extent};
ghost use Rattle.box_pack.specs.GlueSums.{IsWithin};

use crate::extent::Extent;
use tokens::{Cap, Stop};

/// What size a box is to have.
#[derive(Clone, Copy)]
pub(crate) struct Plan {
    pub(crate) extent: Extent,
    /// By how much it is larger than its list, in sp.
    pub(crate) excess: i64,
}

/// A size of a box, in sp.
pub(crate) fn limited(size: i64) -> Result<i32, Stop>
    ensures { result ≡ limited size }
{
    if size < -1_073_741_823 || size > 1_073_741_823 {
        return Err(Stop::Capacity(Cap::BoxSize));
    }
    Ok(size as i32)
}

/// The sizes of a box, in sp.
pub(crate) fn limited_extent(width: i64, height: i64, depth: i64) -> Result<Extent, Stop>
    ensures { result ≡ limited_extent (record { width = width; height = height; depth = depth }) }
{
    let width = limited(width)?;
    let height = limited(height)?;
    let depth = limited(depth)?;
    Ok(Extent {
        width,
        height,
        depth,
    })
}

/// By how much a size is larger than the natural one.
pub(crate) fn excess(size: i32, natural: i32) -> i64
    ensures value { result ≡ size -ℤ natural }
    ensures range { IsWithin (2 ^ 32) result }
{
    i64::from(size) - i64::from(natural)
}
