//! Files in memory: a map from names to bytes, with what a world asks of it.
ghost use Rattle.std.specs.Prelude.{◌≡◌, ℕ, ◌++◌, [], OnOk, OnErr, option_copied, slice_get, unwrap_or};
ghost use Rattle.std.specs.FinMap as tree;
ghost use Rattle.std.specs.BTreeMap.{IsOrdered, keys};
ghost use Rattle.std.specs.Ordering.{nat_cmp};
ghost use Rattle.std.specs.Cmp.Lexicographic.{slice_cmp};
ghost use Rattle.world.specs.Memory.{files_of};

use std::alloc::{AllocError, Global};
use std::collections::BTreeMap;

/// Names with the bytes that they stand for.
pub type Files = BTreeMap<Vec<u8>, Vec<u8>>;

/// The bytes that a name stands for.
pub fn find<'a>(files: &'a Files, name: &[u8]) -> Option<&'a [u8]>
    ensures { option_copied result ≡ tree.get (files_of files.now.entries) name.now }
{
    match files.get(name) {
        Some(bytes) => Some(bytes.as_slice()),
        None => None,
    }
}

/// Makes a name stand for these bytes.
pub fn put(files: &mut Files, alloc: Global, name: &[u8], bytes: &[u8]) -> Result<(), AllocError>
    ensures ok { OnOk result (files_of files.new.entries ≡ tree.insert (files_of files.old.entries) name.now bytes.now) }
    ensures err { OnErr result (files_of files.new.entries ≡ files_of files.old.entries) }
{
    let name = Vec::from_slice(alloc, name)?;
    let bytes = Vec::from_slice(alloc, bytes)?;
    files.insert(name, bytes)?;
    Ok(())
}

/// Adds bytes behind those that a name stands for, or behind none where it is absent.
pub fn add(files: &mut Files, alloc: Global, name: &[u8], bytes: &[u8]) -> Result<(), AllocError>
    ensures ok { OnOk result (files_of files.new.entries ≡ tree.insert (files_of files.old.entries) name.now (unwrap_or (tree.get (files_of files.old.entries) name.now) [] ++ bytes.now)) }
    ensures err { OnErr result (files_of files.new.entries ≡ files_of files.old.entries) }
{
    match files.get_mut(name) {
        Some(kept) => {
            kept.extend_from_slice(bytes)?;
            Ok(())
        }
        None => put(files, alloc, name, bytes),
    }
}

/// The name with exactly n names before it in the order of bytes.
pub fn nth_name(files: &Files, n: usize) -> Option<&[u8]>
    ensures { option_copied result ≡ slice_get (tree.keys (files_of files.now.entries)) n }
{
    match nth_key(files, n) {
        Some(name) => Some(name.as_slice()),
        None => None,
    }
}

fn nth_key(files: &Files, n: usize) -> Option<&Vec<u8>>
    ensures key { option_copied result ≡ slice_get (keys files.now) n }
    ensures ordered { IsOrdered (λ x y. slice_cmp nat_cmp x.items y.items) files.now }
{
    files.keys().nth(n)
}
