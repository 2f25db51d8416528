//! The sources that are open, the innermost in a place of its own (`tex.web` 303 to 304 and 328 to 331).
ghost use Rattle.std.specs.Prelude.{◌≡◌, ◌∷◌, ◌+◌, ◌<◌, ◌≤◌, ◌^◌, length, reverse, OnOk, OnErr};
ghost use Rattle.pending.specs.Levels.{all_sources};
ghost use Rattle.pending.specs.Pending.{ended_source};
ghost use Rattle.pending.specs.Origin.{count_from, counted, is_input, is_file};

use crate::source::Source;
use std::alloc::AllocError;
use std::mem;

/// Opens a source in front of the others.
pub fn push_source(
    innermost: &mut Option<Source>,
    outer: &mut Vec<Source>,
    source: Source,
) -> Result<(), AllocError>
    ensures ok { OnOk result (all_sources innermost.new outer.new.items ≡ source ∷ all_sources innermost.old outer.old.items) }
    ensures err { OnErr result (innermost.new ≡ innermost.old) }
    ensures kept { OnErr result (outer.new.items ≡ outer.old.items) }
{
    match innermost {
        None => {
            outer.clear();
            *innermost = Some(source);
        }
        Some(place) => put_outside(place, outer, source)?,
    }
    Ok(())
}

fn put_outside(
    innermost: &mut Source,
    outer: &mut Vec<Source>,
    source: Source,
) -> Result<(), AllocError>
    ensures ok { OnOk result (innermost.new ≡ source) }
    ensures outer { OnOk result (reverse outer.new.items ≡ innermost.old ∷ reverse outer.old.items) }
    ensures err { OnErr result (innermost.new ≡ innermost.old) }
    ensures kept { OnErr result (outer.new.items ≡ outer.old.items) }
{
    let last = outer.len();
    outer.push(source)?;
    mem::swap(innermost, &mut outer[last]);
    Ok(())
}

/// Closes the innermost source.
pub fn pop_source(innermost: &mut Option<Source>, outer: &mut Vec<Source>)
    ensures { all_sources innermost.new outer.new.items ≡ reverse outer.old.items }
{
    *innermost = outer.pop();
}

/// The innermost source takes no further line.
pub fn end_source(innermost: &mut Option<Source>)
    ensures { innermost.new ≡ ended_source innermost.old }
{
    let Some(source) = innermost else {
        return;
    };
    source.is_ending = true;
}

/// How many files and pseudo-files are open.
pub fn open_inputs(innermost: &Option<Source>, outer: &[Source]) -> usize
    ensures { result ≡ count_from is_input (all_sources innermost.now outer.now) }
{
    match innermost {
        None => 0,
        Some(source) => one_more(source.origin.is_input(), inputs_in(outer)),
    }
}

/// How many files are open.
pub fn open_files(innermost: &Option<Source>, outer: &[Source]) -> usize
    ensures { result ≡ count_from is_file (all_sources innermost.now outer.now) }
{
    match innermost {
        None => 0,
        Some(source) => one_more(source.origin.is_file(), files_in(outer)),
    }
}

fn inputs_in(sources: &[Source]) -> usize
    ensures count { result ≡ count_from is_input (reverse sources.now) }
    ensures within { result ≤ length sources.now }
{
    let mut count = 0;
    for source in sources {
        count = one_more(source.origin.is_input(), count);
    }
    count
}

fn files_in(sources: &[Source]) -> usize
    ensures count { result ≡ count_from is_file (reverse sources.now) }
    ensures within { result ≤ length sources.now }
{
    let mut count = 0;
    for source in sources {
        count = one_more(source.origin.is_file(), count);
    }
    count
}

fn one_more(is_counted: bool, count: usize) -> usize
    requires { count + 1 < 2 ^ 64 }
    ensures { result ≡ counted is_counted count }
{
    if is_counted { count + 1 } else { count }
}
