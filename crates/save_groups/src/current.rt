//! The environment that is in force: a register below 256, a parameter, a code and a meaning stand in tables, and the
//! other registers in trees.
ghost use Rattle.std.specs.Prelude.{◌≡◌, ℕ, ◌+◌, ◌<◌, ◌≤◌, ◌∷◌, ◌^◌, [], true, None, IsTrue, IfOk, OnOk, OnErr};
ghost use Rattle.std.specs.Option.{option_copied};
ghost use Rattle.tokens.specs.declared.meaning.RegKind.TheVariants as RegKind;
ghost use Rattle.save_groups.specs.Environments.{start_environment, updated};
ghost use Rattle.save_groups.specs.Keys.{is_key, holds_number, holds_glue, holds_tokens, holds_meaning, holds_box, holds_table};
ghost use Rattle.save_groups.specs.InPlace.{refilled, can_swap, box_in, has_box, resized_here};
ghost use Rattle.save_groups.specs.Values.{same_value, are_void, fits};
ghost use Rattle.save_groups.specs.InTrees.{is_in_tree, holders_of};
ghost use Rattle.save_groups.specs.InForce.{at, has_room};
ghost use Rattle.save_groups.specs.Holding.{first_in_tree, needed_register, with_needed, named_count, IsHeldBy, Holds, HasFewHolders};
ghost use Rattle.save_groups.specs.Nodes.{named_by, named_by_meaning};
ghost use Rattle.save_groups.specs.declared.key.Key.{Key};
ghost use Rattle.save_groups.specs.declared.value.Value.TheVariants as kind;

use crate::entry::Entry;
use crate::heap_box::HeapBox;
use crate::key::Key;
use crate::numbers;
use crate::tables::Tables;
use crate::trees::Trees;
use crate::value::Value;
use nodes::BoxNode;
use scaled::Glue;
use std::alloc::{AllocError, Global};
use std::sync::ledger::Ledger;
use steps::Steps;
use tokens::{CatTable, Meaning, RegKind, TokenList};

/// The first number of a register that stands in a tree.
const FIRST_IN_TREE: u16 = 256;

/// The value and the level of every entry.
#[derive(Drop)]
pub struct Current {
    pub tables: Tables,
    pub trees: Trees,
}

/// Whether an entry stands in a tree.
fn is_in_tree(key: Key) -> bool
    ensures { result ≡ is_in_tree key }
{
    match key {
        Key::Register { number, .. } => FIRST_IN_TREE <= number,
        _ => false,
    }
}

/// The register from 256 on that an entry with a value needs: itself, or the one that a meaning names.
fn needed_register(key: Key, value: &Value) -> Option<Key>
    ensures { result ≡ needed_register key value.now }
{
    if is_in_tree(key) {
        return Some(key);
    }
    match value {
        Value::Meaning(meaning) => named_register(meaning),
        _ => None,
    }
}

fn named_register(meaning: &Meaning) -> Option<Key>
    ensures { result ≡ first_in_tree (named_by_meaning meaning.now) }
{
    match meaning {
        Meaning::Register { kind, number } => in_tree(Key::Register {
            kind: *kind,
            number: *number,
        }),
        _ => None,
    }
}

fn in_tree(key: Key) -> Option<Key>
    ensures { result ≡ first_in_tree (key ∷ []) }
{
    if is_in_tree(key) { Some(key) } else { None }
}

impl Current {
    /// The values of the start.
    pub fn new(alloc: Global, extended: bool) -> Result<Current, AllocError>
        ensures start { IfOk result (λ current. (key : Key) → at current key ≡ start_environment extended key) }
        ensures held { IfOk result (λ current. IsHeldBy current (λ key. 0)) }
    {
        Ok(Current {
            tables: Tables::new(alloc, extended)?,
            trees: Trees::new(alloc),
        })
    }

    /// The categories.
    pub fn cats(&self) -> &CatTable
        ensures { result.now ≡ self.now.tables.categories }
    {
        self.tables.cats()
    }

    /// A number.
    pub fn number(&self, key: Key) -> i32
        requires key { IsTrue (is_key true key) }
        requires kind { IsTrue (holds_number key) }
        ensures { (at self.now key).value ≡ kind.Number result }
    {
        if !is_in_tree(key) {
            return self.tables.number(key);
        }
        match key {
            Key::Register { kind, number } => self.trees.number(kind, number),
            _ => unreachable!(),
        }
    }

    /// A glue.
    pub fn glue(&self, key: Key) -> Glue
        requires kind { IsTrue (holds_glue key) }
        ensures { (at self.now key).value ≡ kind.Glue result }
    {
        if !is_in_tree(key) {
            return self.tables.glue(key);
        }
        match key {
            Key::Register { kind, number } => self.trees.glue(kind, number),
            _ => unreachable!(),
        }
    }

    /// A list of tokens.
    pub fn tokens(&self, key: Key) -> &TokenList
        requires kind { IsTrue (holds_tokens key) }
        ensures { (at self.now key).value ≡ kind.Tokens result.now }
    {
        if !is_in_tree(key) {
            return self.tables.tokens(key);
        }
        match key {
            Key::Register {
                kind: RegKind::Toks,
                number,
            } => self.trees.tokens(number, self.tables.no_tokens()),
            _ => unreachable!(),
        }
    }

    /// A meaning.
    pub fn meaning(&self, key: Key) -> &Meaning
        requires kind { IsTrue (holds_meaning key) }
        ensures { (at self.now key).value ≡ kind.Meaning result.now }
    {
        self.tables.meaning(key)
    }

    /// A box, if it isn't void.
    pub fn box_ref(&self, number: u16) -> Option<&BoxNode>
        ensures { (at self.now (Key.Register RegKind.Box number)).value ≡ kind.Boxed (option_copied result) }
    {
        if number < FIRST_IN_TREE {
            self.tables.box_ref(number)
        } else {
            self.trees.box_ref(number)
        }
    }

    /// Whether a box register is void.
    fn is_void(&self, key: Key) -> bool
        requires { IsTrue (holds_box key) }
        ensures { result ≡ are_void (box_in (at self.now key).value) None }
    {
        match key {
            Key::Register {
                kind: RegKind::Box,
                number,
            } => self.box_ref(number).is_none(),
            _ => unreachable!(),
        }
    }

    /// A table of numbers.
    pub fn table(&self, key: Key) -> &[i32]
        requires key { IsTrue (is_key true key) }
        requires kind { IsTrue (holds_table key) }
        ensures { (at self.now key).value ≡ kind.Table result.now }
    {
        self.tables.table(key)
    }

    /// The level of an entry.
    pub fn level(&self, key: Key) -> u16
        requires key { IsTrue (is_key true key) }
        ensures { result ≡ (at self.now key).level }
    {
        if !is_in_tree(key) {
            return self.tables.level(key);
        }
        match key {
            Key::Register { kind, number } => self.trees.level(kind, number),
            _ => unreachable!(),
        }
    }

    /// Whether an entry has this very value.
    pub fn is_same(&self, key: Key, value: &Value) -> bool
        requires key { IsTrue (is_key true key) }
        requires kind { IsTrue (fits key value.now) }
        ensures { result ≡ same_value (at self.now key).value value.now }
    {
        match value {
            Value::Number(number) => self.number(key) == *number,
            Value::Glue(glue) => self.glue(key).is_same(*glue),
            Value::Tokens(list) => self.tokens(key).is_same(list),
            Value::Meaning(meaning) => self.meaning(key).is_same(meaning),
            Value::Boxed(content) => content.is_none() && self.is_void(key),
            Value::Table(numbers) => numbers::are_same(self.table(key), numbers.as_slice()),
        }
    }

    /// Meanings name no register more often than there are entries.
    pub fn few_names(&self)
        ensures { (key : Key) → named_count key self.now.tables ≤ 2 ^ 65 }
    {
        self.tables.few_names();
    }

    /// Makes the tables reach an entry, if it stands in one.
    fn reserve(&mut self, key: Key) -> Result<(), AllocError>
        requires { IsTrue (is_key true key) }
        ensures same { (other : Key) → at self.new other ≡ at self.old other }
        ensures room { OnOk result (IsTrue (has_room self.new key)) }
        ensures kept { (other : Key) → IsTrue (has_room self.old other) → IsTrue (has_room self.new other) }
        ensures held { (held : Key → ℕ) → IsHeldBy self.old held → IsHeldBy self.new held }
        ensures trees { self.new.trees ≡ self.old.trees }
    {
        if is_in_tree(key) {
            Ok(())
        } else {
            self.tables.reserve(key)
        }
    }

    /// Holds the register that an entry with a value needs.
    fn hold<L: Ledger>(
        &mut self,
        key: Key,
        value: &Value,
        steps: &mut Steps<L>,
    ) -> Result<(), AllocError>
        requires kind { IsTrue (fits key value.now) }
        requires few { HasFewHolders self.old }
        ensures same { (other : Key) → at self.new other ≡ at self.old other }
        ensures tables { self.new.tables ≡ self.old.tables }
        ensures held { OnOk result ((held : Key → ℕ) → IsHeldBy self.old held → IsHeldBy self.new (with_needed key value.now held)) }
        ensures err { OnErr result (self.new ≡ self.old) }
        ensures steps { steps.new ≤ steps.old + 1 }
    {
        match needed_register(key, value) {
            Some(register) => self.trees.hold_key(register, steps),
            None => Ok(()),
        }
    }

    /// Lets it go.
    pub fn release<L: Ledger>(&mut self, key: Key, value: &Value, steps: &mut Steps<L>)
        requires kind { IsTrue (fits key value.now) }
        requires held { Holds self.old (key ∷ named_by value.now) }
        ensures same { (other : Key) → at self.new other ≡ at self.old other }
        ensures tables { self.new.tables ≡ self.old.tables }
        ensures held { (held : Key → ℕ) → IsHeldBy self.old (with_needed key value.now held) → IsHeldBy self.new held }
        ensures steps { steps.new ≤ steps.old + 1 }
    {
        if let Some(register) = needed_register(key, value) {
            self.trees.release_key(register, steps);
        }
    }

    /// Makes an entry ready to get a value: the tables reach it, and the register that it needs is held.
    pub fn prepare<L: Ledger>(
        &mut self,
        key: Key,
        value: &Value,
        steps: &mut Steps<L>,
    ) -> Result<(), AllocError>
        requires key { IsTrue (is_key true key) }
        requires kind { IsTrue (fits key value.now) }
        requires few { HasFewHolders self.old }
        ensures same { (other : Key) → at self.new other ≡ at self.old other }
        ensures room { OnOk result (IsTrue (has_room self.new key)) }
        ensures kept { (other : Key) → IsTrue (has_room self.old other) → IsTrue (has_room self.new other) }
        ensures held { OnOk result ((held : Key → ℕ) → IsHeldBy self.old held → IsHeldBy self.new (with_needed key value.now held)) }
        ensures unheld { OnErr result ((held : Key → ℕ) → IsHeldBy self.old held → IsHeldBy self.new held) }
        ensures steps { steps.new ≤ steps.old + 1 }
    {
        self.reserve(key)?;
        self.hold(key, value, steps)
    }

    /// Puts a value into an entry that is ready for it, and gives what stood there. What the new value needs is no longer
    /// held beside the entry, and what the old one needs is.
    pub fn replace<L: Ledger>(
        &mut self,
        key: Key,
        entry: Entry<Value>,
        steps: &mut Steps<L>,
    ) -> Entry<Value>
        requires room { IsTrue (has_room self.old key) }
        requires kind { IsTrue (fits key entry.value) }
        requires held { Holds self.old (key ∷ named_by entry.value) }
        ensures old { result ≡ at self.old key }
        ensures fits { IsTrue (fits key result.value) }
        ensures new { (other : Key) → at self.new other ≡ updated key entry (at self.old) other }
        ensures kept { (other : Key) → IsTrue (has_room self.old other) → IsTrue (has_room self.new other) }
        ensures held { (held : Key → ℕ) → IsHeldBy self.old (with_needed key entry.value held) → IsHeldBy self.new (with_needed key result.value held) }
        ensures steps { steps.new ≤ steps.old + 1 }
    {
        if !is_in_tree(key) {
            return self.tables.replace(key, entry);
        }
        match key {
            Key::Register { kind, number } => self.trees.replace(kind, number, entry, steps),
            _ => unreachable!(),
        }
    }

    /// Puts a box, or void, into a register at the level that it has, where what is put there is void, or the register is
    /// one of the first 256, or a box stands there. It gives what stood there.
    pub fn swap_box(&mut self, number: u16, content: Option<HeapBox>) -> Option<HeapBox>
        requires { IsTrue (can_swap number content (at self.old)) }
        ensures old { (at self.old (Key.Register RegKind.Box number)).value ≡ kind.Boxed result }
        ensures new { (other : Key) → at self.new other ≡ refilled (Key.Register RegKind.Box number) (kind.Boxed content) (at self.old) other }
        ensures kept { (other : Key) → IsTrue (has_room self.old other) → IsTrue (has_room self.new other) }
        ensures held { (held : Key → ℕ) → IsHeldBy self.old held → IsHeldBy self.new held }
    {
        if number < FIRST_IN_TREE {
            self.tables.swap_box(number, content)
        } else {
            self.trees.swap_box(number, content)
        }
    }

    /// Changes a size of a box that isn't void.
    pub fn set_box_size(&mut self, number: u16, part: u8, size: i32) -> bool
        requires { part < 3 }
        ensures told { result ≡ has_box number (at self.old) }
        ensures new { (other : Key) → at self.new other ≡ resized_here number part size (at self.old) other }
        ensures kept { (other : Key) → IsTrue (has_room self.old other) → IsTrue (has_room self.new other) }
        ensures held { (held : Key → ℕ) → IsHeldBy self.old held → IsHeldBy self.new held }
    {
        if number < FIRST_IN_TREE {
            self.tables.set_box_size(number, part, size)
        } else {
            self.trees.set_box_size(number, part, size)
        }
    }
}
