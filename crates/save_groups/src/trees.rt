//! Registers 256 to 32767 (the e-TeX manual, on additional registers): one tree for each kind.
ghost use Rattle.std.specs.Prelude.{◌≡◌, ℕ, ◌+◌, ◌<◌, ◌^◌, ◌||◌, not, true, [], ◌∷◌, None, IsTrue, OnOk, OnErr};
ghost use Rattle.std.specs.Option.{option_copied};
ghost use Rattle.tokens.specs.declared.meaning.RegKind.{RegKind};
ghost use Rattle.tokens.specs.declared.meaning.RegKind.TheVariants as variants;
ghost use Rattle.sparse_regs.specs.Registers.{register_at, is_kept, updated, with_holder, without_holder, with_value};
ghost use Rattle.save_groups.specs.declared.key.Key.{Key};
ghost use Rattle.save_groups.specs.declared.key.Key.TheVariants.{Register};
ghost use Rattle.save_groups.specs.declared.value.Value.TheVariants as value;
ghost use Rattle.save_groups.specs.InPlace.{box_in, is_box};
ghost use Rattle.save_groups.specs.Keys.{holds_number, holds_glue, holds_tokens, holds_box};
ghost use Rattle.save_groups.specs.Values.{fits};
ghost use Rattle.save_groups.specs.Entries.{as_value, fresh};
ghost use Rattle.save_groups.specs.InTrees.{cell, with_cell, with_sized, entry_or, no_trees, is_in_tree, holders_of, count_of, same_box_entry};

use crate::entry::Entry;
use crate::heap_box::HeapBox;
use crate::initial::Initial;
use crate::key::Key;
use crate::value::Value;
use nodes::BoxNode;
use scaled::Glue;
use sparse_regs::Tree;
use std::alloc::{AllocError, Global};
use std::marker::Brand;
use std::sync::ledger::{Blank, Ledger};
use steps::Steps;
use tokens::{RegKind, TokenList};

/// The trees of the six kinds.
#[derive(Drop)]
pub struct Trees {
    pub count: Tree<Entry<i32>>,
    pub dimen: Tree<Entry<i32>>,
    pub skip: Tree<Entry<Glue>>,
    pub muskip: Tree<Entry<Glue>>,
    pub boxes: Tree<Entry<Option<HeapBox>>>,
    pub toks: Tree<Entry<TokenList>>,
}

/// The value of an entry, or the one of the start.
fn value_or<'a, V>(found: Option<&'a Entry<V>>, start: &'a V) -> &'a V
    ensures { result.now ≡ (entry_or start.now (option_copied found.entry)).value }
{
    match found {
        Some(entry) => &entry.value,
        None => start,
    }
}

/// The level of an entry, or that of the start.
fn level_or<V>(found: Option<&Entry<V>>) -> u16
    ensures { (start : V) → result ≡ (entry_or start (option_copied found.entry)).level }
{
    match found {
        Some(entry) => entry.level,
        None => 1,
    }
}

/// The box of an entry, if it isn't void.
fn box_or(found: Option<&Entry<Option<HeapBox>>>) -> Option<&BoxNode>
    ensures { option_copied result ≡ (entry_or None (option_copied found.entry)).value }
{
    match found {
        Some(entry) => lent(&entry.value),
        None => None,
    }
}

fn lent(content: &Option<HeapBox>) -> Option<&BoxNode>
    ensures { option_copied result ≡ content.now }
{
    match content {
        Some(content) => Some(content.get()),
        None => None,
    }
}

impl Trees {
    /// No register is held, and each has the value of the start.
    pub(crate) fn new(alloc: Global) -> Trees
        ensures { result ≡ no_trees }
    {
        Trees {
            count: Tree::new(alloc),
            dimen: Tree::new(alloc),
            skip: Tree::new(alloc),
            muskip: Tree::new(alloc),
            boxes: Tree::new(alloc),
            toks: Tree::new(alloc),
        }
    }

    /// A number.
    pub(crate) fn number(&self, kind: RegKind, n: u16) -> i32
        requires { IsTrue (holds_number (Register kind n)) }
        ensures { (cell self.now kind n).value.value ≡ value.Number result }
    {
        match kind {
            RegKind::Count => *value_or(self.count.get(n), &0),
            RegKind::Dimen => *value_or(self.dimen.get(n), &0),
            _ => unreachable!(),
        }
    }

    /// A glue.
    pub(crate) fn glue(&self, kind: RegKind, n: u16) -> Glue
        requires { IsTrue (holds_glue (Register kind n)) }
        ensures { (cell self.now kind n).value.value ≡ value.Glue result }
    {
        match kind {
            RegKind::Skip => *value_or(self.skip.get(n), &Glue::initial()),
            RegKind::Muskip => *value_or(self.muskip.get(n), &Glue::initial()),
            _ => unreachable!(),
        }
    }

    /// A list of tokens, which is lent from elsewhere where it is that of the start.
    pub(crate) fn tokens<'a>(&'a self, n: u16, empty: &'a TokenList) -> &'a TokenList
        requires { empty.now ≡ [] }
        ensures { (cell self.now variants.Toks n).value.value ≡ value.Tokens result.now }
    {
        value_or(self.toks.get(n), empty)
    }

    /// A box, if it isn't void.
    pub(crate) fn box_ref(&self, n: u16) -> Option<&BoxNode>
        ensures { (cell self.now variants.Box n).value.value ≡ value.Boxed (option_copied result) }
    {
        box_or(self.boxes.get(n))
    }

    /// The level of an entry.
    pub(crate) fn level(&self, kind: RegKind, n: u16) -> u16
        ensures { result ≡ (cell self.now kind n).value.level }
    {
        match kind {
            RegKind::Count => level_or(self.count.get(n)),
            RegKind::Dimen => level_or(self.dimen.get(n)),
            RegKind::Skip => level_or(self.skip.get(n)),
            RegKind::Muskip => level_or(self.muskip.get(n)),
            RegKind::Box => level_or(self.boxes.get(n)),
            RegKind::Toks => level_or(self.toks.get(n)),
        }
    }

    /// One more holder for a register.
    pub(crate) fn hold<L: Ledger>(
        &mut self,
        kind: RegKind,
        n: u16,
        steps: &mut Steps<L>,
    ) -> Result<(), AllocError>
        requires few { (cell self.old kind n).holders < 2 ^ 127 }
        ensures held { OnOk result ((k : RegKind) (m : ℕ) → cell self.new k m ≡ with_cell kind n (with_holder (cell self.old kind n)) (cell self.old) k m) }
        ensures err { OnErr result (self.new ≡ self.old) }
        ensures steps { steps.new ≡ steps.old + 1 }
    {
        match kind {
            RegKind::Count => self.count.hold(n, steps),
            RegKind::Dimen => self.dimen.hold(n, steps),
            RegKind::Skip => self.skip.hold(n, steps),
            RegKind::Muskip => self.muskip.hold(n, steps),
            RegKind::Box => self.boxes.hold(n, steps),
            RegKind::Toks => self.toks.hold(n, steps),
        }
    }

    /// One holder fewer.
    pub(crate) fn release<L: Ledger>(&mut self, kind: RegKind, n: u16, steps: &mut Steps<L>)
        requires held { 0 < (cell self.old kind n).holders }
        ensures released { (k : RegKind) (m : ℕ) → cell self.new k m ≡ with_cell kind n (without_holder (cell self.old kind n)) (cell self.old) k m }
        ensures steps { steps.new ≡ steps.old + 1 }
    {
        match kind {
            RegKind::Count => self.count.release(n, steps),
            RegKind::Dimen => self.dimen.release(n, steps),
            RegKind::Skip => self.skip.release(n, steps),
            RegKind::Muskip => self.muskip.release(n, steps),
            RegKind::Box => self.boxes.release(n, steps),
            RegKind::Toks => self.toks.release(n, steps),
        }
    }

    /// One more holder for a register from 256 on.
    pub(crate) fn hold_key<L: Ledger>(
        &mut self,
        key: Key,
        steps: &mut Steps<L>,
    ) -> Result<(), AllocError>
        requires tree { IsTrue (is_in_tree key) }
        requires few { holders_of self.old key < 2 ^ 127 }
        ensures same { (k : RegKind) (m : ℕ) → (cell self.new k m).value ≡ (cell self.old k m).value }
        ensures held { OnOk result ((other : Key) → holders_of self.new other ≡ holders_of self.old other + count_of other (key ∷ [])) }
        ensures err { OnErr result (self.new ≡ self.old) }
        ensures steps { steps.new ≡ steps.old + 1 }
    {
        match key {
            Key::Register { kind, number } => self.hold(kind, number, steps),
            _ => unreachable!(),
        }
    }

    /// One holder fewer.
    pub(crate) fn release_key<L: Ledger>(&mut self, key: Key, steps: &mut Steps<L>)
        requires tree { IsTrue (is_in_tree key) }
        requires held { 0 < holders_of self.old key }
        ensures same { (k : RegKind) (m : ℕ) → (cell self.new k m).value ≡ (cell self.old k m).value }
        ensures released { (other : Key) → holders_of self.new other + count_of other (key ∷ []) ≡ holders_of self.old other }
        ensures steps { steps.new ≡ steps.old + 1 }
    {
        match key {
            Key::Register { kind, number } => self.release(kind, number, steps),
            _ => unreachable!(),
        }
    }

    fn replace_number<L: Ledger>(
        &mut self,
        kind: RegKind,
        n: u16,
        entry: Entry<i32>,
        steps: &mut Steps<L>,
    ) -> Entry<i32>
        requires held { 0 < (cell self.old kind n).holders }
        requires kind { IsTrue (holds_number (Register kind n)) }
        ensures old { as_value value.Number result ≡ (cell self.old kind n).value }
        ensures new { (k : RegKind) (m : ℕ) → cell self.new k m ≡ with_cell kind n (with_value (as_value value.Number entry) (cell self.old kind n)) (cell self.old) k m }
        ensures steps { steps.new ≡ steps.old + 1 }
    {
        match kind {
            RegKind::Count => self.count.replace(n, entry, steps),
            RegKind::Dimen => self.dimen.replace(n, entry, steps),
            _ => unreachable!(),
        }
    }

    fn replace_glue<L: Ledger>(
        &mut self,
        kind: RegKind,
        n: u16,
        entry: Entry<Glue>,
        steps: &mut Steps<L>,
    ) -> Entry<Glue>
        requires held { 0 < (cell self.old kind n).holders }
        requires kind { IsTrue (holds_glue (Register kind n)) }
        ensures old { as_value value.Glue result ≡ (cell self.old kind n).value }
        ensures new { (k : RegKind) (m : ℕ) → cell self.new k m ≡ with_cell kind n (with_value (as_value value.Glue entry) (cell self.old kind n)) (cell self.old) k m }
        ensures steps { steps.new ≡ steps.old + 1 }
    {
        match kind {
            RegKind::Skip => self.skip.replace(n, entry, steps),
            RegKind::Muskip => self.muskip.replace(n, entry, steps),
            _ => unreachable!(),
        }
    }

    fn replace_tokens<L: Ledger>(
        &mut self,
        kind: RegKind,
        n: u16,
        entry: Entry<TokenList>,
        steps: &mut Steps<L>,
    ) -> Entry<TokenList>
        requires held { 0 < (cell self.old kind n).holders }
        requires kind { IsTrue (holds_tokens (Register kind n)) }
        ensures old { as_value value.Tokens result ≡ (cell self.old kind n).value }
        ensures new { (k : RegKind) (m : ℕ) → cell self.new k m ≡ with_cell kind n (with_value (as_value value.Tokens entry) (cell self.old kind n)) (cell self.old) k m }
        ensures steps { steps.new ≡ steps.old + 1 }
    {
        match kind {
            RegKind::Toks => self.toks.replace(n, entry, steps),
            _ => unreachable!(),
        }
    }

    fn replace_box<L: Ledger>(
        &mut self,
        kind: RegKind,
        n: u16,
        entry: Entry<Option<HeapBox>>,
        steps: &mut Steps<L>,
    ) -> Entry<Option<HeapBox>>
        requires held { 0 < (cell self.old kind n).holders }
        requires kind { IsTrue (holds_box (Register kind n)) }
        ensures old { as_value value.Boxed result ≡ (cell self.old kind n).value }
        ensures new { (k : RegKind) (m : ℕ) → cell self.new k m ≡ with_cell kind n (with_value (as_value value.Boxed entry) (cell self.old kind n)) (cell self.old) k m }
        ensures steps { steps.new ≡ steps.old + 1 }
    {
        match kind {
            RegKind::Box => self.boxes.replace(n, entry, steps),
            _ => unreachable!(),
        }
    }

    /// Puts a value into a register that is held, and gives what stood there.
    pub(crate) fn replace<L: Ledger>(
        &mut self,
        kind: RegKind,
        n: u16,
        entry: Entry<Value>,
        steps: &mut Steps<L>,
    ) -> Entry<Value>
        requires held { 0 < (cell self.old kind n).holders }
        requires kind { IsTrue (fits (Register kind n) entry.value) }
        ensures old { result ≡ (cell self.old kind n).value }
        ensures fits { IsTrue (fits (Register kind n) result.value) }
        ensures new { (k : RegKind) (m : ℕ) → cell self.new k m ≡ with_cell kind n (with_value entry (cell self.old kind n)) (cell self.old) k m }
        ensures steps { steps.new ≡ steps.old + 1 }
    {
        let Entry { value, level } = entry;
        match value {
            Value::Number(value) => {
                let old = self.replace_number(kind, n, Entry { value, level }, steps);
                Entry {
                    value: Value::Number(old.value),
                    level: old.level,
                }
            }
            Value::Glue(value) => {
                let old = self.replace_glue(kind, n, Entry { value, level }, steps);
                Entry {
                    value: Value::Glue(old.value),
                    level: old.level,
                }
            }
            Value::Tokens(value) => {
                let old = self.replace_tokens(kind, n, Entry { value, level }, steps);
                Entry {
                    value: Value::Tokens(old.value),
                    level: old.level,
                }
            }
            Value::Boxed(value) => {
                let old = self.replace_box(kind, n, Entry { value, level }, steps);
                Entry {
                    value: Value::Boxed(old.value),
                    level: old.level,
                }
            }
            _ => unreachable!(),
        }
    }

    /// Puts a box, or void, into a register at the level that it has, where what is put there is void or a box stands
    /// there, and gives what stood there.
    pub(crate) fn swap_box(&mut self, n: u16, content: Option<HeapBox>) -> Option<HeapBox>
        requires { IsTrue (is_box (box_in (cell self.old variants.Box n).value.value) || not (is_box content)) }
        ensures old { (cell self.old variants.Box n).value.value ≡ value.Boxed result }
        ensures new { (k : RegKind) (m : ℕ) → cell self.new k m ≡ with_cell variants.Box n (with_value (record { value = value.Boxed content; level = (cell self.old variants.Box n).value.level }) (cell self.old variants.Box n)) (cell self.old) k m }
    {
        if self.box_ref(n).is_none() {
            return None;
        }
        let level = self.level(RegKind::Box, n);
        let entry = Entry {
            value: content,
            level,
        };
        replace_alone::<Brand>(&mut self.boxes, n, entry, Blank::new(1)).value
    }

    /// Changes a size of a box that isn't void.
    pub(crate) fn set_box_size(&mut self, n: u16, part: u8, size: i32) -> bool
        ensures told { result ≡ is_box (box_in (cell self.old variants.Box n).value.value) }
        ensures new { (k : RegKind) (m : ℕ) → cell self.new k m ≡ with_cell variants.Box n (with_sized part size (cell self.old variants.Box n)) (cell self.old) k m }
    {
        if self.box_ref(n).is_none() {
            return false;
        }
        self.boxes.resize(n, part, size);
        true
    }
}

/// Puts a value into a register that has a leaf, with a count of steps of its own.
fn replace_alone<L: Ledger>(
    tree: &mut Tree<Entry<Option<HeapBox>>>,
    n: u16,
    entry: Entry<Option<HeapBox>>,
    blank: Blank,
) -> Entry<Option<HeapBox>>
    requires name { blank.name ≡ L.name }
    requires parts { blank.parts ≡ L.parts }
    requires some { 0 < L.parts }
    requires leaf { is_kept (λ x. same_box_entry x (fresh None)) (register_at (fresh None) tree.old n) ≡ true }
    ensures old { result ≡ (register_at (fresh None) tree.old n).value }
    ensures replaced { (m : ℕ) → register_at (fresh None) tree.new m ≡ updated n (with_value entry (register_at (fresh None) tree.old n)) (register_at (fresh None) tree.old) m }
{
    let mut steps = Steps::<L>::new(blank);
    tree.replace(n, entry, &mut steps)
}
