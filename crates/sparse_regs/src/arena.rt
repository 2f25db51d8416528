//! The places of a tree's nodes: a node keeps its place as long as it stands, and a place that is left goes to the next
//! new node.
ghost use Rattle.std.specs.Prelude.{◌≡◌, ◌≢◌, ℕ, ◌+◌, ◌-◌, ◌<◌, ◌≤◌, ◌^◌, ◌%◌, ◌∷◌, ◌++◌, true, false, IfSome, IfNone, IsSome, IsSomeAnd, IfOk, OnOk, OnErr, Some, None, [], List, max, map, length, vec_len, vec_capacity, slice_index_or, slice_set};
ghost use Rattle.std.specs.Option.{option_copied};
ghost use Rattle.sparse_regs.specs.declared.prefix.Prefix.{Prefix};
ghost use Rattle.sparse_regs.specs.Prefixes.{longer, whole, node_count};
ghost use Rattle.sparse_regs.specs.Registers.{register_among, register_at, updated, with_holder, without_holder, with_value, with_resized, is_kept, value_if_kept, ListsKept, KeepsIndices, slots_of, nodes_of, taken_count};
ghost use Rattle.sparse_regs.specs.Linked.{of, IsPrefix, shorter};
ghost use Rattle.sparse_regs.specs.Places.{IsArena, IsTree, IsTightBut, IsCounted, IsSpare, HasRoom, Grew, Shrank, node_at, prefix_in, prefix_from, child_from, leaf_from, stands_in, top_with_child, places_with_child, kept_from, registers_of, SamePrefixes};

use crate::children::Children;
use crate::node::Node;
use crate::places;
use crate::prefix::{EMPTY, Prefix, path};
use crate::slot::Slot;
use std::alloc::{AllocError, Global};

#[derive(Drop)]
pub struct Arena<T> {
    /// The nodes of one digit.
    pub top: Children,
    pub places: Vec<Option<Node<T>>>,
    pub free: Vec<u32>,
}

impl<T: Slot> Arena<T> {
    pub fn new(alloc: Global) -> Arena<T>
        ensures tree { IsTree T.is_initial result }
        ensures none { result.places.items ≡ [] }
    {
        Arena {
            top: Children::new(),
            places: Vec::new(alloc),
            free: Vec::new(alloc),
        }
    }

    /// The child of a node, or of what is above all nodes.
    pub fn child(&self, parent: Option<u32>, digit: u8) -> Option<u32>
        requires { digit < 16 }
        ensures { result ≡ child_from self.now.top self.now.places.items parent digit }
    {
        match parent {
            None => self.top.get(digit),
            Some(at) => places::child_at(&self.places, at as usize, digit),
        }
    }

    /// The leaf of a register, if it stands.
    pub fn find(&self, number: u16) -> Option<u32>
        requires { IsArena self.now }
        ensures some { IfSome result (λ at. prefix_from self.now.places.items at ≡ Some (whole number)) }
        ensures none { IfNone result ((i : ℕ) → prefix_from self.now.places.items i ≢ Some (whole number)) }
    {
        let path = path(number);
        let digits = path.as_slice();
        let mut node = None;
        for digit in digits {
            node = Some(self.child(node, *digit)?);
        }
        node
    }

    /// Makes room for the nodes of a register.
    fn reserve(&mut self) -> Result<(), AllocError>
        requires { IsArena self.old }
        ensures arena { IsArena self.new }
        ensures places { self.new.places.items ≡ self.old.places.items }
        ensures room { OnOk result (HasRoom 4 self.new) }
    {
        self.places.reserve(4)?;
        self.free.reserve(self.places.len() - self.free.len() + 4)?;
        Ok(())
    }

    /// Links a node with its parent, or takes the link away.
    fn link(&mut self, parent: Option<u32>, digit: u8, child: Option<u32>)
        requires digit { digit < 16 }
        requires child { IfSome child (λ at. at + 1 < 2 ^ 32) }
        requires parent { IfSome parent (λ at. at < vec_len self.old.places) }
        ensures top { self.new.top ≡ top_with_child parent digit child self.old.top }
        ensures places { self.new.places.items ≡ places_with_child parent digit child self.old.places.items }
        ensures len { vec_len self.new.places ≡ vec_len self.old.places }
        ensures capacity { vec_capacity self.new.places ≡ vec_capacity self.old.places }
        ensures free { self.new.free ≡ self.old.free }
    {
        match parent {
            None => self.top.set(digit, child),
            Some(at) => places::set_child(&mut self.places, at as usize, digit, child),
        }
    }

    /// Makes a node below another.
    fn make(&mut self, parent: Option<u32>, prefix: Prefix) -> u32
        requires arena { IsArena self.old }
        requires prefix { IsPrefix prefix }
        requires above { of (prefix_from self.old.places.items) parent ≡ Some (shorter prefix) }
        requires absent { child_from self.old.top self.old.places.items parent (prefix.number % 16) ≡ None }
        requires room { HasRoom 1 self.old }
        ensures arena { IsArena self.new }
        ensures here { prefix_from self.new.places.items result ≡ Some prefix }
        ensures grew { Grew T.start self.old self.new }
        ensures tight { IsTightBut T.is_initial parent self.old.places.items → IsTightBut T.is_initial (Some result) self.new.places.items }
        ensures room { (k : ℕ) → HasRoom (k + 1) self.old → HasRoom k self.new }
    {
        let at = take_place(&mut self.places, &mut self.free);
        self.places[at as usize] = Some(Node {
            prefix,
            parent,
            content: places::new_content(prefix),
        });
        self.link(parent, prefix.last_digit(), Some(at));
        at
    }

    /// The child of a node, which is made where there is none.
    fn step(&mut self, parent: Option<u32>, prefix: Prefix) -> u32
        requires arena { IsArena self.old }
        requires prefix { IsPrefix prefix }
        requires above { of (prefix_from self.old.places.items) parent ≡ Some (shorter prefix) }
        requires room { HasRoom 1 self.old }
        ensures arena { IsArena self.new }
        ensures here { prefix_from self.new.places.items result ≡ Some prefix }
        ensures grew { Grew T.start self.old self.new }
        ensures tight { IsTightBut T.is_initial parent self.old.places.items → IsTightBut T.is_initial (Some result) self.new.places.items }
        ensures room { (k : ℕ) → HasRoom (k + 1) self.old → HasRoom k self.new }
    {
        match self.child(parent, prefix.last_digit()) {
            Some(child) => child,
            None => self.make(parent, prefix),
        }
    }

    /// The leaf of a register, with all nodes on the way to it.
    fn reach(&mut self, number: u16) -> u32
        requires arena { IsArena self.old }
        requires room { HasRoom 4 self.old }
        ensures arena { IsArena self.new }
        ensures here { prefix_from self.new.places.items result ≡ Some (whole number) }
        ensures grew { Grew T.start self.old self.new }
        ensures tight { IsTightBut T.is_initial None self.old.places.items → IsTightBut T.is_initial (Some result) self.new.places.items }
    {
        let path = path(number);
        let digits = path.as_slice();
        let mut node = None;
        let mut prefix = EMPTY;
        for digit in digits {
            prefix = prefix.longer(*digit);
            node = Some(self.step(node, prefix));
        }
        match node {
            Some(leaf) => leaf,
            None => unreachable!(),
        }
    }

    /// Makes the leaf of a register, with all nodes on the way to it.
    pub fn grow(&mut self, number: u16) -> Result<u32, AllocError>
        requires { IsTree T.is_initial self.old }
        ensures arena { IsArena self.new }
        ensures here { IfOk result (λ at. prefix_from self.new.places.items at ≡ Some (whole number)) }
        ensures grew { OnOk result (Grew T.start self.old self.new) }
        ensures tight { IfOk result (λ at. IsTightBut T.is_initial (Some at) self.new.places.items) }
        ensures tree { OnErr result (IsTree T.is_initial self.new) }
        ensures err { OnErr result (self.new.places.items ≡ self.old.places.items) }
    {
        self.reserve()?;
        Ok(self.reach(number))
    }

    /// Takes a node without children away, and gives its parent.
    fn remove(&mut self, at: u32) -> Option<u32>
        requires arena { IsArena self.old }
        requires here { IsSome (node_at self.old.places.items at) }
        requires idle { stands_in T.is_initial (node_at self.old.places.items at) ≡ false }
        ensures arena { IsArena self.new }
        ensures above { IfSome (prefix_from self.old.places.items at) (λ prefix. of (prefix_from self.new.places.items) result ≡ Some (shorter prefix)) }
        ensures shrank { Shrank T.start self.old self.new }
        ensures tight { IsTightBut T.is_initial (Some at) self.old.places.items → IsTightBut T.is_initial result self.new.places.items }
    {
        let Node { prefix, parent, .. } = places::vacate(&mut self.places, at as usize);
        self.free.push_reserved(at);
        self.link(parent, prefix.last_digit(), None);
        parent
    }

    /// Takes a leaf away that need not stand, and each node above that is then empty.
    pub fn prune(&mut self, leaf: u32)
        requires arena { IsArena self.old }
        requires here { IsSome (node_at self.old.places.items leaf) }
        requires tight { IsTightBut T.is_initial (Some leaf) self.old.places.items }
        ensures tree { IsTree T.is_initial self.new }
        ensures shrank { Shrank T.start self.old self.new }
    {
        let mut next = Some(leaf);
        'climbing: while let Some(at) = next {
            if places::stands(&self.places, at as usize) {
                return;
            }
            next = self.remove(at);
        }
    }
}

impl<T: Slot> Arena<T> {
    /// The leaf of a register that has one.
    pub fn leaf(&self, number: u16) -> u32
        requires tree { IsTree T.is_initial self.now }
        requires kept { is_kept T.is_initial (register_among T.start (kept_from self.now.places.items) number) ≡ true }
        ensures { prefix_from self.now.places.items result ≡ Some (whole number) }
    {
        match self.find(number) {
            Some(leaf) => leaf,
            None => unreachable!(),
        }
    }

    /// One more holder for a register's leaf.
    fn add_holder(&mut self, leaf: u32, number: u16)
        requires arena { IsArena self.old }
        requires here { prefix_from self.old.places.items leaf ≡ Some (whole number) }
        requires tight { IsTightBut T.is_initial (Some leaf) self.old.places.items }
        requires few { (register_at T.start (registers_of self.old.places.items) number).holders < 2 ^ 127 }
        ensures arena { IsArena self.new }
        ensures changed { (m : ℕ) → register_at T.start (registers_of self.new.places.items) m
            ≡ updated number (with_holder (register_at T.start (registers_of self.old.places.items) number)) (register_at T.start (registers_of self.old.places.items)) m }
        ensures same { SamePrefixes self.old.places.items self.new.places.items }
        ensures tight { IsTightBut T.is_initial (Some leaf) self.new.places.items }
    {
        places::add_holder(&mut self.places, leaf as usize);
    }

    /// One holder fewer for a register's leaf.
    fn drop_holder(&mut self, leaf: u32, number: u16)
        requires arena { IsArena self.old }
        requires here { prefix_from self.old.places.items leaf ≡ Some (whole number) }
        requires tight { IsTightBut T.is_initial (Some leaf) self.old.places.items }
        requires held { 0 < (register_at T.start (registers_of self.old.places.items) number).holders }
        ensures arena { IsArena self.new }
        ensures changed { (m : ℕ) → register_at T.start (registers_of self.new.places.items) m
            ≡ updated number (without_holder (register_at T.start (registers_of self.old.places.items) number)) (register_at T.start (registers_of self.old.places.items)) m }
        ensures same { SamePrefixes self.old.places.items self.new.places.items }
        ensures tight { IsTightBut T.is_initial (Some leaf) self.new.places.items }
    {
        places::drop_holder(&mut self.places, leaf as usize);
    }

    /// Another value for a register's leaf. It gives the old one.
    fn replace_value(&mut self, leaf: u32, number: u16, value: T) -> T
        requires arena { IsArena self.old }
        requires here { prefix_from self.old.places.items leaf ≡ Some (whole number) }
        requires tight { IsTightBut T.is_initial (Some leaf) self.old.places.items }
        ensures arena { IsArena self.new }
        ensures changed { (m : ℕ) → register_at T.start (registers_of self.new.places.items) m
            ≡ updated number (with_value value (register_at T.start (registers_of self.old.places.items) number)) (register_at T.start (registers_of self.old.places.items)) m }
        ensures same { SamePrefixes self.old.places.items self.new.places.items }
        ensures tight { IsTightBut T.is_initial (Some leaf) self.new.places.items }
        ensures old { result ≡ (register_at T.start (registers_of self.old.places.items) number).value }
    {
        places::replace_value(&mut self.places, leaf as usize, value)
    }

    /// The leaf of a register, which is made where there is none.
    fn leaf_or_new(&mut self, number: u16) -> Result<u32, AllocError>
        requires { IsTree T.is_initial self.old }
        ensures arena { IsArena self.new }
        ensures here { IfOk result (λ at. prefix_from self.new.places.items at ≡ Some (whole number)) }
        ensures grew { OnOk result (Grew T.start self.old self.new) }
        ensures tight { IfOk result (λ at. IsTightBut T.is_initial (Some at) self.new.places.items) }
        ensures tree { OnErr result (IsTree T.is_initial self.new) }
        ensures err { OnErr result (self.new.places.items ≡ self.old.places.items) }
    {
        match self.find(number) {
            Some(leaf) => Ok(leaf),
            None => self.grow(number),
        }
    }

    /// One more holder for a register, whose leaf is made where there is none.
    pub fn hold(&mut self, number: u16) -> Result<(), AllocError>
        requires tree { IsTree T.is_initial self.old }
        requires few { (register_at T.start (registers_of self.old.places.items) number).holders < 2 ^ 127 }
        ensures tree { IsTree T.is_initial self.new }
        ensures changed { OnOk result ((m : ℕ) → register_at T.start (registers_of self.new.places.items) m
            ≡ updated number (with_holder (register_at T.start (registers_of self.old.places.items) number)) (register_at T.start (registers_of self.old.places.items)) m) }
        ensures indices { KeepsIndices (registers_of self.old.places.items) (registers_of self.new.places.items) }
        ensures slots { OnOk result (slots_of (registers_of self.new.places.items) ≡ max (slots_of (registers_of self.old.places.items)) (nodes_of (registers_of self.new.places.items))) }
        ensures err { OnErr result (self.new.places.items ≡ self.old.places.items) }
    {
        let leaf = self.leaf_or_new(number)?;
        self.add_holder(leaf, number);
        Ok(())
    }

    /// One holder fewer for a register, whose leaf goes where it need not stand.
    pub fn release(&mut self, number: u16)
        requires tree { IsTree T.is_initial self.old }
        requires held { 0 < (register_at T.start (registers_of self.old.places.items) number).holders }
        ensures tree { IsTree T.is_initial self.new }
        ensures changed { (m : ℕ) → register_at T.start (registers_of self.new.places.items) m
            ≡ updated number (without_holder (register_at T.start (registers_of self.old.places.items) number)) (register_at T.start (registers_of self.old.places.items)) m }
        ensures indices { KeepsIndices (registers_of self.old.places.items) (registers_of self.new.places.items) }
        ensures slots { slots_of (registers_of self.new.places.items) ≡ max (slots_of (registers_of self.old.places.items)) (nodes_of (registers_of self.new.places.items)) }
    {
        let leaf = self.leaf(number);
        self.drop_holder(leaf, number);
        self.prune(leaf);
    }

    /// Another value for a register, whose leaf goes where it need not stand. It gives the old value.
    pub fn replace(&mut self, number: u16, value: T) -> T
        requires tree { IsTree T.is_initial self.old }
        requires kept { is_kept T.is_initial (register_at T.start (registers_of self.old.places.items) number) ≡ true }
        ensures tree { IsTree T.is_initial self.new }
        ensures changed { (m : ℕ) → register_at T.start (registers_of self.new.places.items) m
            ≡ updated number (with_value value (register_at T.start (registers_of self.old.places.items) number)) (register_at T.start (registers_of self.old.places.items)) m }
        ensures indices { KeepsIndices (registers_of self.old.places.items) (registers_of self.new.places.items) }
        ensures slots { slots_of (registers_of self.new.places.items) ≡ max (slots_of (registers_of self.old.places.items)) (nodes_of (registers_of self.new.places.items)) }
        ensures old { result ≡ (register_at T.start (registers_of self.old.places.items) number).value }
    {
        let leaf = self.leaf(number);
        let old = self.replace_value(leaf, number, value);
        self.prune(leaf);
        old
    }

    /// The size of a box in a register's leaf.
    fn resize_value(&mut self, leaf: u32, number: u16, part: u8, value: i32)
        requires arena { IsArena self.old }
        requires here { prefix_from self.old.places.items leaf ≡ Some (whole number) }
        requires tight { IsTightBut T.is_initial (Some leaf) self.old.places.items }
        ensures arena { IsArena self.new }
        ensures changed { (m : ℕ) → register_at T.start (registers_of self.new.places.items) m
            ≡ updated number (with_resized (T.resized part value) (register_at T.start (registers_of self.old.places.items) number)) (register_at T.start (registers_of self.old.places.items)) m }
        ensures same { SamePrefixes self.old.places.items self.new.places.items }
        ensures prefixes { map prefix_in self.new.places.items ≡ map prefix_in self.old.places.items }
        ensures tight { IsTightBut T.is_initial (Some leaf) self.new.places.items }
    {
        places::resize_value(&mut self.places, leaf as usize, part, value);
    }

    /// The size of a box in a register.
    pub fn resize(&mut self, number: u16, part: u8, value: i32)
        requires tree { IsTree T.is_initial self.old }
        requires kept { is_kept T.is_initial (register_at T.start (registers_of self.old.places.items) number) ≡ true }
        ensures tree { IsTree T.is_initial self.new }
        ensures changed { (m : ℕ) → register_at T.start (registers_of self.new.places.items) m
            ≡ updated number (with_resized (T.resized part value) (register_at T.start (registers_of self.old.places.items) number)) (register_at T.start (registers_of self.old.places.items)) m }
        ensures prefixes { map prefix_in self.new.places.items ≡ map prefix_in self.old.places.items }
    {
        let leaf = self.leaf(number);
        self.resize_value(leaf, number, part, value);
    }

    /// How many nodes stand.
    pub fn nodes(&self) -> u32
        requires { IsTree T.is_initial self.now }
        ensures taken { result ≡ nodes_of (registers_of self.now.places.items) }
        ensures prefixes { (numbers : List ℕ) → ListsKept T.start T.is_initial numbers (registers_of self.now.places.items) → result ≡ node_count numbers }
    {
        count_taken(&self.places, &self.free)
    }

    /// How many places there are.
    pub fn slots(&self) -> u32
        requires { IsArena self.now }
        ensures { result ≡ slots_of (registers_of self.now.places.items) }
    {
        self.places.len() as u32
    }
}

impl<T: Slot> Arena<T> {
    /// The value of a register, None where it is initial and not held.
    pub fn get(&self, number: u16) -> Option<&T>
        requires { IsTree T.is_initial self.now }
        ensures { option_copied result ≡ value_if_kept T.is_initial (register_at T.start (registers_of self.now.places.items) number) }
    {
        match self.find(number) {
            Some(leaf) => places::value_at(&self.places, leaf as usize),
            None => None,
        }
    }

    /// How often a register is held.
    pub fn holders(&self, number: u16) -> u128
        requires { IsTree T.is_initial self.now }
        ensures { result ≡ (register_at T.start (registers_of self.now.places.items) number).holders }
    {
        match self.find(number) {
            Some(leaf) => places::holders_at(&self.places, leaf as usize),
            None => 0,
        }
    }

    /// The child of a node, seen by its prefix.
    pub fn child_of(&self, parent: Option<u32>, digit: u8) -> Option<u32>
        requires digit { digit < 16 }
        requires arena { IsArena self.now }
        ensures some { (p : Prefix) → of (prefix_from self.now.places.items) parent ≡ Some p → IfSome result (λ i. prefix_from self.now.places.items i ≡ Some (longer p digit)) }
        ensures none { (p : Prefix) → of (prefix_from self.now.places.items) parent ≡ Some p → IfNone result ((i : ℕ) → prefix_from self.now.places.items i ≢ Some (longer p digit)) }
    {
        self.child(parent, digit)
    }

    /// The value of the register whose digits are a node's prefix.
    pub fn value(&self, node: u32) -> &T
        requires arena { IsArena self.now }
        requires leaf { IsSomeAnd (prefix_from self.now.places.items node) (λ p. p.digits ≡ 4) }
        ensures { (n : ℕ) → prefix_from self.now.places.items node ≡ Some (whole n) → result.now ≡ (register_at T.start (registers_of self.now.places.items) n).value }
    {
        match places::value_at(&self.places, node as usize) {
            Some(value) => value,
            None => unreachable!(),
        }
    }
}

/// How many places are taken, where the others are listed as free.
fn count_taken<T>(places: &[Option<Node<T>>], free: &[u32]) -> u32
    requires { IsCounted places.now free.now }
    ensures { result ≡ taken_count places.now }
{
    (places.len() - free.len()) as u32
}

/// Takes a free place, or a new one.
fn take_place<T>(places: &mut Vec<Option<Node<T>>>, free: &mut Vec<u32>) -> u32
    requires counted { IsCounted places.old.items free.old.items }
    requires room { vec_len places.old < vec_capacity places.old }
    ensures spare { IsSpare places.new.items free.new.items result }
    ensures same { (k : ℕ) → node_at places.new.items k ≡ node_at places.old.items k }
    ensures kept { kept_from places.new.items ≡ kept_from places.old.items }
    ensures count { taken_count places.new.items ≡ taken_count places.old.items }
    ensures len { length places.new.items ≡ max (length places.old.items) (taken_count places.old.items + 1) }
    ensures capacity { vec_capacity places.new ≡ vec_capacity places.old }
    ensures free_capacity { vec_capacity free.new ≡ vec_capacity free.old }
{
    match free.pop() {
        Some(at) => at,
        None => add_place(places),
    }
}

/// Adds an empty place.
fn add_place<T>(places: &mut Vec<Option<Node<T>>>) -> u32
    requires few { length places.old.items ≤ 327680 }
    requires room { vec_len places.old < vec_capacity places.old }
    ensures at { result ≡ length places.old.items }
    ensures items { places.new.items ≡ places.old.items ++ None ∷ [] }
    ensures capacity { vec_capacity places.new ≡ vec_capacity places.old }
{
    let at = places.len() as u32;
    places.push_reserved(None);
    at
}
