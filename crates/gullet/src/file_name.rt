//! The names of files and of the job (The TeXbook, chapter 25; `tex.web` 515 to 537).
ghost use Rattle.std.specs.Prelude.{◌≡◌, IfOk};
ghost use Rattle.gullet.specs.FileName.{has_dot, file_of, job_of, has_log, before_dot, dvi_of};

use std::alloc::{AllocError, Global};
use world::is_good_name;

/// The file that a name asks for.
pub fn file_of(alloc: Global, name: &[u8]) -> Result<Vec<u8>, AllocError>
    ensures value { IfOk result (λ file. file.items ≡ file_of name.now) }
{
    let mut file = name.to_vec(alloc)?;
    if !has_dot(name) {
        file.extend_from_slice(b".tex")?;
    }
    Ok(file)
}

/// Whether a dot stands in the name.
fn has_dot(name: &[u8]) -> bool
    ensures { result ≡ has_dot name.now }
{
    name.iter().any(|byte| *byte == b'.')
}

/// The job that a run is named by its first file.
pub fn job_of(alloc: Global, file: &[u8]) -> Result<Vec<u8>, AllocError>
    ensures value { IfOk result (λ job. job.items ≡ job_of file.now) }
{
    let job = before_dot(alloc, file)?;
    if has_log(alloc, &job)? {
        Ok(job)
    } else {
        b"texput".to_vec(alloc)
    }
}

/// Whether the log of a job may be written.
fn has_log(alloc: Global, job: &[u8]) -> Result<bool, AllocError>
    ensures value { IfOk result (λ has. has ≡ has_log job.now) }
{
    let mut log = job.to_vec(alloc)?;
    log.extend_from_slice(b".log")?;
    Ok(!job.is_empty() && is_good_name(&log))
}

/// What stands before the first dot.
fn before_dot(alloc: Global, file: &[u8]) -> Result<Vec<u8>, AllocError>
    ensures value { IfOk result (λ v. v.items ≡ before_dot file.now) }
{
    file.iter()
        .copied()
        .take_while(|byte| *byte != b'.')
        .collect(alloc)
}

/// The DVI file of a job.
pub fn dvi_of(alloc: Global, job: &[u8]) -> Result<Vec<u8>, AllocError>
    ensures value { IfOk result (λ file. file.items ≡ dvi_of job.now) }
{
    let mut file = job.to_vec(alloc)?;
    file.extend_from_slice(b".dvi")?;
    Ok(file)
}
