//! Tables of entries by their place. A table grows as far as something is assigned; behind its end each entry has
//! the value of the start.
ghost use Rattle.std.specs.Prelude.{◌≡◌, ℕ, ◌<◌, ◌≤◌, length, vec_len, slice_index_or, slice_set, OnOk};
ghost use Rattle.save_groups.specs.Entries.{fresh};
ghost use Rattle.save_groups.specs.Table.{ReadsAlike};

use crate::entry::Entry;
use crate::initial::Initial;
use std::alloc::AllocError;
use std::mem;

/// Makes a table reach a place.
pub fn reserve<V: Initial>(table: &mut Vec<Entry<V>>, place: usize) -> Result<(), AllocError>
    ensures same { ReadsAlike (fresh V.start) table.old.items table.new.items }
    ensures longer { vec_len table.old ≤ vec_len table.new }
    ensures room { OnOk result (place < vec_len table.new) }
{
    'growing: while table.len() <= place {
        table.push(Entry {
            value: V::initial(),
            level: 1,
        })?;
    }
    Ok(())
}

/// Puts an entry at a place, and gives the one that stood there.
pub fn replace<V>(table: &mut [Entry<V>], place: usize, entry: Entry<V>) -> Entry<V>
    requires { place < length table.old }
    ensures old { (rest : Entry V) → slice_index_or table.old place rest ≡ result }
    ensures new { table.new ≡ slice_set table.old place entry }
{
    mem::replace(&mut table[place], entry)
}

/// The value at a place, or the one that stands behind the end.
pub fn value_at<'a, V>(table: &'a [Entry<V>], place: usize, start: &'a V) -> &'a V
    ensures { result.now ≡ (slice_index_or table.now place (fresh start.now)).value }
{
    match table.get(place) {
        Some(entry) => &entry.value,
        None => start,
    }
}

/// The level at a place.
pub fn level_at<V>(table: &[Entry<V>], place: usize) -> u16
    ensures { (start : V) → result ≡ (slice_index_or table.now place (fresh start)).level }
{
    match table.get(place) {
        Some(entry) => entry.level,
        None => 1,
    }
}
