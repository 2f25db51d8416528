//! Trees of registers by hexadecimal digits.
ghost use Rattle.std.specs.Prelude.{◌≡◌, ℕ, ℤ, ◌+◌, ◌<◌, ◌^◌, max, true, List, Option, None, Some, IfSome, IsSome, IsSomeAnd, IfNone, ◌≢◌, OnOk, OnErr};
ghost use Rattle.std.specs.Option.{option_copied, is_some};
ghost use Rattle.std.specs.List.{list_any};
ghost use Rattle.sparse_regs.specs.declared.prefix.Prefix.{Prefix};
ghost use Rattle.sparse_regs.specs.Prefixes.{longer, whole, same_prefix, prefixes, node_count};
ghost use Rattle.sparse_regs.specs.Registers.{untouched, register_at, updated, with_holder, without_holder, with_value, with_resized, is_kept, value_if_kept, prefix_of, prefix_at, index_of, KeepsIndices, ListsKept, slots_of, nodes_of, numbers_of};

use crate::arena::Arena;
use crate::slot::Slot;
use std::alloc::{AllocError, Global};
use std::marker::Model;
use std::sync::ledger::Ledger;
use steps::Steps;

/// A total map from register numbers, 256 to 32767, to values with holders. Contracts see the registers that aren't
/// initial or are held, and the prefix whose node has each index.
#[derive(Drop)]
pub struct Tree<T: Slot> {
    arena: Arena<T>,
}

impl<T: Slot> Model for Tree<T> {
    ghost use Rattle.sparse_regs.specs.Registers.{Registers};

    ghost Value = { Registers T };

    ghost use Rattle.sparse_regs.specs.Places.{registers_of, IsTree};

    ghost view = { λ t. registers_of t.arena.places.items };

    ghost invariant = { λ t. IsTree T.is_initial t.arena };
}

impl<T: Slot> Tree<T> {
    /// No register is held, and each has the value of the start.
    pub fn new(alloc: Global) -> Tree<T>
        ensures { result ≡ untouched }
    {
        Tree {
            arena: Arena::new(alloc),
        }
    }

    /// One more holder for a register. It makes the register's leaf where there is none.
    pub fn hold<L: Ledger>(&mut self, n: u16, steps: &mut Steps<L>) -> Result<(), AllocError>
        requires few { (register_at T.start self.old n).holders < 2 ^ 127 }
        ensures held { OnOk result ((m : ℕ) → register_at T.start self.new m ≡ updated n (with_holder (register_at T.start self.old n)) (register_at T.start self.old) m) }
        ensures indices { KeepsIndices self.old self.new }
        ensures slots { OnOk result (slots_of self.new ≡ max (slots_of self.old) (nodes_of self.new)) }
        ensures err { OnErr result (self.new ≡ self.old) }
        ensures steps { steps.new ≡ steps.old + 1 }
    {
        steps.tick();
        self.arena.hold(n)
    }

    /// Puts a value into a register that has a leaf, and gives the old one. It takes no memory.
    pub fn replace<L: Ledger>(&mut self, n: u16, value: T, steps: &mut Steps<L>) -> T
        requires leaf { is_kept T.is_initial (register_at T.start self.old n) ≡ true }
        ensures old { result ≡ (register_at T.start self.old n).value }
        ensures replaced { (m : ℕ) → register_at T.start self.new m ≡ updated n (with_value value (register_at T.start self.old n)) (register_at T.start self.old) m }
        ensures indices { KeepsIndices self.old self.new }
        ensures slots { slots_of self.new ≡ max (slots_of self.old) (nodes_of self.new) }
        ensures steps { steps.new ≡ steps.old + 1 }
    {
        steps.tick();
        self.arena.replace(n, value)
    }

    /// One holder fewer for a register. It takes no memory.
    pub fn release<L: Ledger>(&mut self, n: u16, steps: &mut Steps<L>)
        requires held { 0 < (register_at T.start self.old n).holders }
        ensures released { (m : ℕ) → register_at T.start self.new m ≡ updated n (without_holder (register_at T.start self.old n)) (register_at T.start self.old) m }
        ensures indices { KeepsIndices self.old self.new }
        ensures slots { slots_of self.new ≡ max (slots_of self.old) (nodes_of self.new) }
        ensures steps { steps.new ≡ steps.old + 1 }
    {
        steps.tick();
        self.arena.release(n);
    }

    /// Sets the width, height or depth, in sp, for part 0, 1 or 2, of a box in a register that has a leaf. It takes no
    /// memory.
    pub fn resize(&mut self, n: u16, part: u8, value: i32)
        requires leaf { is_kept T.is_initial (register_at T.start self.old n) ≡ true }
        ensures resized { (m : ℕ) → register_at T.start self.new m ≡ updated n (with_resized (T.resized part value) (register_at T.start self.old n)) (register_at T.start self.old) m }
        ensures places { self.new.places ≡ self.old.places }
    {
        self.arena.resize(n, part, value);
    }

    /// How many nodes stand: one for each prefix of one to four digits of the registers that aren't initial or are
    /// held. It takes no memory.
    pub fn nodes(&self) -> u32
        ensures taken { result ≡ nodes_of self.now }
        ensures prefixes { (numbers : List ℕ) → ListsKept T.start T.is_initial numbers self.now → result ≡ node_count numbers }
    {
        self.arena.nodes()
    }

    /// The highest number of nodes after any call so far. It takes no memory.
    pub fn slots(&self) -> u32
        ensures { result ≡ slots_of self.now }
    {
        self.arena.slots()
    }

    /// The value of a register, None where it is initial and not held. It takes no memory.
    pub fn get(&self, n: u16) -> Option<&T>
        ensures { option_copied result ≡ value_if_kept T.is_initial (register_at T.start self.now n) }
    {
        self.arena.get(n)
    }

    /// How often a register is held. It takes no memory.
    pub fn holders(&self, n: u16) -> u128
        ensures { result ≡ (register_at T.start self.now n).holders }
    {
        self.arena.holders(n)
    }

    /// The index of the node for a node's prefix with a digit more, None where that has no node. None as the parent
    /// is above all nodes. A prefix has a node where it is one of a register that isn't initial or is held, and its
    /// index is its own. It takes no memory.
    pub fn child(&self, parent: Option<u32>, digit: u8) -> Option<u32>
        requires { digit < 16 }
        ensures some { (p : Prefix) → prefix_of self.now parent ≡ Some p → IfSome result (λ i. prefix_at self.now i ≡ Some (longer p digit)) }
        ensures none { (p : Prefix) → prefix_of self.now parent ≡ Some p → IfNone result ((i : ℕ) → prefix_at self.now i ≢ Some (longer p digit)) }
        ensures index { (p : Prefix) → prefix_of self.now parent ≡ Some p → result ≡ index_of self.now (longer p digit) }
        ensures stands { (p : Prefix) (numbers : List ℕ) → prefix_of self.now parent ≡ Some p → ListsKept T.start T.is_initial numbers self.now
            → is_some result ≡ list_any (same_prefix (longer p digit)) (prefixes numbers) }
    {
        self.arena.child_of(parent, digit)
    }

    /// The value of the register whose four digits are a node's prefix. It takes no memory.
    pub fn leaf(&self, node: u32) -> &T
        requires { IsSomeAnd (prefix_at self.now node) (λ p. p.digits ≡ 4) }
        ensures { (n : ℕ) → prefix_at self.now node ≡ Some (whole n) → result.now ≡ (register_at T.start self.now n).value }
    {
        self.arena.value(node)
    }
}
