//! The hash table under the table of names: buckets with chains that lead from a bucket's newest name to
//! the older ones (`tex.web`, part 18).
ghost use Rattle.std.specs.Prelude.{◌≡◌, ℕ, ◌<◌, ◌≤◌, ◌∷◌, [], ◌++◌, length, vec_len, slice_index, OnOk, OnErr};
ghost use Rattle.tokens.specs.Names.{IsPlace};
ghost use Rattle.tokens.specs.Buckets.{IsTable, bucket_of, name_hash, names_of, links_of};

use std::alloc::{AllocError, Global};

/// A name with the place of the next older name in its bucket: one more than that name's id, or 0.
#[derive(Drop)]
pub struct Entry {
    pub name: Vec<u8>,
    pub link: u64,
}

#[tactic(auto, unfolding(crate::specs::Buckets::name_hash))]
fn hash(name: &[u8]) -> u32
    ensures { result ≡ name_hash name.now }
{
    name.iter().fold(
        0,
        |hash: u32, byte| hash.wrapping_mul(31).wrapping_add(u32::from(*byte)),
    )
}

#[tactic(auto, unfolding(crate::specs::Buckets::bucket_of))]
fn bucket(name: &[u8], buckets: usize) -> usize
    requires { 0 < buckets }
    ensures value { result ≡ bucket_of buckets name.now }
    ensures bound { result < buckets }
{
    hash(name) as usize % buckets
}

/// The id of a name, if it is there.
pub fn find(entries: &[Entry], heads: &[u64], name: &[u8]) -> Option<u64>
    requires table { IsTable (names_of entries.now) (links_of entries.now) heads.now }
    requires room { length entries.now ≤ length heads.now }
    ensures { IsPlace name.now (names_of entries.now) result }
{
    if heads.is_empty() {
        return None;
    }
    let mut place = heads[bucket(name, heads.len())];
    while place > 0 {
        let entry = &entries[(place - 1) as usize];
        if entry.name.as_slice() == name {
            return Some(place - 1);
        }
        place = entry.link;
    }
    None
}

/// Makes the chains of all entries in buckets that are empty.
fn link_all(entries: &mut [Entry], heads: &mut [u64])
    requires some { 0 < length heads.old }
    requires blank { (bucket : ℕ) → bucket < length heads.old → slice_index heads.old bucket ≡ 0 }
    ensures table { IsTable (names_of entries.new) (links_of entries.new) heads.new }
    ensures names { names_of entries.new ≡ names_of entries.old }
{
    let buckets = heads.len();
    for i in 0..entries.len() {
        let entry = &mut entries[i];
        let at = bucket(entry.name.as_slice(), buckets);
        entry.link = heads[at];
        heads[at] = i as u64 + 1;
    }
}

/// Makes room for one more name, where there is none.
fn grow(alloc: Global, entries: &mut [Entry], heads: &mut Vec<u64>) -> Result<(), AllocError>
    requires { IsTable (names_of entries.old) (links_of entries.old) heads.old.items }
    ensures table { IsTable (names_of entries.new) (links_of entries.new) heads.new.items }
    ensures names { names_of entries.new ≡ names_of entries.old }
    ensures ok { OnOk result (length entries.new < vec_len heads.new) }
    ensures err { OnErr result (vec_len heads.new ≡ vec_len heads.old) }
{
    if entries.len() < heads.len() {
        return Ok(());
    }
    let size = entries.len().checked_mul(2).ok_or(AllocError)?.max(1024);
    let mut larger = vec![in alloc; 0; size]?;
    link_all(entries, &mut larger);
    *heads = larger;
    Ok(())
}

/// Puts a name behind the others.
fn append(entries: &mut Vec<Entry>, heads: &mut [u64], name: Vec<u8>) -> Result<(), AllocError>
    requires table { IsTable (names_of entries.old.items) (links_of entries.old.items) heads.old }
    requires room { vec_len entries.old < length heads.old }
    ensures table { IsTable (names_of entries.new.items) (links_of entries.new.items) heads.new }
    ensures ok { OnOk result (names_of entries.new.items ≡ names_of entries.old.items ++ name.items ∷ []) }
    ensures err { OnErr result (names_of entries.new.items ≡ names_of entries.old.items) }
    ensures bound { vec_len entries.new ≤ length heads.new }
{
    let at = bucket(name.as_slice(), heads.len());
    let link = heads[at];
    let count = entries.len() as u64;
    entries.push(Entry { name, link })?;
    heads[at] = count + 1;
    Ok(())
}

/// Adds a name. Where there is no memory, the names stay as they were.
pub fn add(
    alloc: Global,
    entries: &mut Vec<Entry>,
    heads: &mut Vec<u64>,
    name: Vec<u8>,
) -> Result<(), AllocError>
    requires table { IsTable (names_of entries.old.items) (links_of entries.old.items) heads.old.items }
    requires room { vec_len entries.old ≤ vec_len heads.old }
    ensures table { IsTable (names_of entries.new.items) (links_of entries.new.items) heads.new.items }
    ensures room { vec_len entries.new ≤ vec_len heads.new }
    ensures ok { OnOk result (names_of entries.new.items ≡ names_of entries.old.items ++ name.items ∷ []) }
    ensures err { OnErr result (names_of entries.new.items ≡ names_of entries.old.items) }
{
    grow(alloc, entries, heads)?;
    append(entries, heads, name)
}
