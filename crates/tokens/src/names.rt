//! The table of names: each name that stands behind an escape character has one number, its id, for the
//! whole run (`tex.web`, part 18).
ghost use Rattle.std.specs.Prelude.{◌≡◌, ◌↔◌, ◌<◌, [], ◌∷◌, ◌++◌, length, IsTrue, IfOk, OnErr, OnOk};
ghost use Rattle.tokens.specs.Names.{name_at, interned, AreDistinct, IsPlace, Interned};

use crate::buckets;
use crate::buckets::Entry;
use crate::token::NameId;
use std::alloc::{AllocError, Global};
use std::marker::Model;

/// The names of a run. Contracts see their list, in which the id of a name is its place.
#[derive(Drop)]
pub struct NameTable {
    alloc: Global,
    entries: Vec<Entry>,
    heads: Vec<u64>,
}

impl Model for NameTable {
    ghost use Rattle.std.specs.Prelude.{ℕ, List};
    ghost use Rattle.tokens.specs.Buckets.{names_of, IsNameTable};

    ghost Value = { List (List ℕ) };

    ghost view = { λ table. names_of table.entries.items };

    ghost invariant = { λ table. IsNameTable table.entries.items table.heads.items };
}

impl NameTable {
    pub fn new(alloc: Global) -> NameTable
        ensures { result ≡ [] }
    {
        NameTable {
            alloc,
            entries: Vec::new(alloc),
            heads: Vec::new(alloc),
        }
    }

    /// How many names there are. Their ids are the numbers below.
    pub fn len(&self) -> u64
        ensures { result ≡ length self.now }
    {
        self.entries.len() as u64
    }

    pub fn is_empty(&self) -> bool
        ensures { IsTrue result ↔ (self.now ≡ []) }
    {
        self.entries.is_empty()
    }

    /// The id of a name, which is the same for the same bytes. A new name comes behind the others.
    pub fn intern(&mut self, name: &[u8]) -> Result<NameId, AllocError>
        ensures ok { IfOk result (λ id. interned self.old name.now ≡ record { names = self.new; id = id.0 }) }
        ensures err { OnErr result (self.new ≡ self.old) }
        ensures distinct { AreDistinct self.new }
    {
        match self.find(name) {
            Some(id) => Ok(NameId(id)),
            None => self.put(name),
        }
    }

    /// The text of a name that was looked up here.
    pub fn text(&self, id: NameId) -> &[u8]
        requires { id.0 < length self.now }
        ensures text { result.now ≡ name_at self.now id.0 }
        ensures distinct { AreDistinct self.now }
    {
        self.entries[id.0 as usize].name.as_slice()
    }

    fn find(&self, name: &[u8]) -> Option<u64>
        ensures place { IsPlace name.now self.now result }
        ensures distinct { AreDistinct self.now }
    {
        buckets::find(self.entries.as_slice(), self.heads.as_slice(), name)
    }

    /// Puts a new name behind the others.
    fn put(&mut self, name: &[u8]) -> Result<NameId, AllocError>
        requires { IsPlace name.now self.old None }
        ensures ok { IfOk result (λ id. interned self.old name.now ≡ record { names = self.new; id = id.0 }) }
        ensures err { OnErr result (self.new ≡ self.old) }
        ensures distinct { AreDistinct self.new }
    {
        let id = self.entries.len() as u64;
        let name = Vec::from_slice(self.alloc, name)?;
        self.add(name)?;
        Ok(NameId(id))
    }

    fn add(&mut self, name: Vec<u8>) -> Result<(), AllocError>
        requires { IsPlace name.items self.old None }
        ensures ok { OnOk result (self.new ≡ self.old ++ name.items ∷ []) }
        ensures err { OnErr result (self.new ≡ self.old) }
        ensures distinct { AreDistinct self.new }
    {
        buckets::add(self.alloc, &mut self.entries, &mut self.heads, name)
    }
}
