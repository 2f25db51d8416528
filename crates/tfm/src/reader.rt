//! The reader of TFM files (tex.web sections 560 to 576).

ghost use Rattle.std.specs.Prelude.{IfOk, IfErr};
ghost use Rattle.tfm.specs.FontMetricsFixwords.{IsSize};
ghost use Rattle.tfm.specs.FontMetricsFaults.{Refuses};
ghost use Rattle.tfm.specs.FontMetrics.{HasCharactersOf, StandsFor};

use crate::checks::{check_lengths, check_size, check_tables};
use crate::error::TfmError;
use crate::metrics::Metrics;
use crate::size::Size;
use std::alloc::Global;

/// The metrics that a TFM file stands for at a size. Bytes after the length that the file tells are ignored.
///
/// The file is checked whole before memory is taken, so a file with a fault is refused as that fault, however little
/// memory is left.
#[tactic(auto, unfolding(crate::specs::FontMetricsFaults::fault_of, crate::specs::FontMetrics::metrics_of, crate::specs::FontMetricsLengths::file_of))]
pub fn read_tfm(alloc: Global, bytes: &[u8], size: Size) -> Result<Metrics, TfmError>
    requires { IsSize size }
    ensures accepted { IfOk result (StandsFor bytes.now size) }
    ensures characters { IfOk result (HasCharactersOf bytes.now size) }
    ensures refused { IfErr result (Refuses bytes.now size) }
{
    let lengths = check_lengths(bytes)?;
    let file = &bytes[..4 * usize::from(lengths.file)];
    let sizes = check_size(file, size)?;
    check_tables(file, lengths)?;
    Ok(Metrics::decode(alloc, file, lengths, sizes)?)
}
