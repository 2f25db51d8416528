//! What is read and changed at one place.
ghost use Rattle.std.specs.Prelude.{◌≡◌, ◌+◌, ◌<◌, ◌^◌, IfSome, IsSome, Some, None, length, slice_set, vec_len, vec_capacity};
ghost use Rattle.std.specs.Option.{option_copied, option_map, option_map_or};
ghost use Rattle.sparse_regs.specs.Registers.{with_holder, without_holder, with_value, with_resized};
ghost use Rattle.sparse_regs.specs.Places.{node_at, child_in, child_in_content, leaf_in, with_child, with_leaf, stands_in, stands_content, new_content};

use crate::children::Children;
use crate::node::{Content, Node, Register};
use crate::prefix::{DIGITS, Prefix};
use crate::slot::Slot;
use std::mem;

/// The node at a place, if one stands there.
pub fn node_at<T>(places: &[Option<Node<T>>], at: usize) -> Option<&Node<T>>
    ensures { option_copied result ≡ node_at places.now at }
{
    match places.get(at) {
        Some(place) => place.as_ref(),
        None => None,
    }
}

/// The child of the node at a place.
pub fn child_at<T>(places: &[Option<Node<T>>], at: usize, digit: u8) -> Option<u32>
    requires { digit < 16 }
    ensures { result ≡ child_in (node_at places.now at) digit }
{
    match node_at(places, at) {
        Some(node) => child_in(&node.content, digit),
        None => None,
    }
}

fn child_in<T>(content: &Content<T>, digit: u8) -> Option<u32>
    requires { digit < 16 }
    ensures { result ≡ child_in_content content.now digit }
{
    match content {
        Content::Index(children) => children.get(digit),
        Content::Leaf(_) => None,
    }
}

/// Sets a child of the node at a place.
pub fn set_child<T>(places: &mut [Option<Node<T>>], at: usize, digit: u8, child: Option<u32>)
    requires digit { digit < 16 }
    requires child { IfSome child (λ link. link + 1 < 2 ^ 32) }
    requires at { at < length places.old }
    ensures { places.new ≡ slice_set places.old at (with_child digit child (node_at places.old at)) }
{
    if let Some(node) = &mut places[at] {
        if let Content::Index(children) = &mut node.content {
            children.set(digit, child);
        }
    }
}

/// The register of the leaf at a place, if one stands there.
pub fn leaf_at<T>(places: &[Option<Node<T>>], at: usize) -> Option<&Register<T>>
    ensures { option_copied result ≡ leaf_in (node_at places.now at) }
{
    match node_at(places, at) {
        Some(
            Node {
                content: Content::Leaf(register),
                ..
            },
        ) => Some(register),
        _ => None,
    }
}

/// Gives the register at a place one more holder.
pub fn add_holder<T>(places: &mut Vec<Option<Node<T>>>, at: usize)
    requires leaf { IfSome (leaf_in (node_at places.old.items at)) (λ register. register.holders < 2 ^ 127) }
    requires at { at < length places.old.items }
    ensures items { places.new.items ≡ slice_set places.old.items at (with_leaf with_holder (node_at places.old.items at)) }
    ensures len { vec_len places.new ≡ vec_len places.old }
{
    if let Some(node) = &mut places[at] {
        if let Content::Leaf(register) = &mut node.content {
            register.holders += 1;
        }
    }
}

/// Takes a holder from the register at a place.
pub fn drop_holder<T>(places: &mut Vec<Option<Node<T>>>, at: usize)
    requires leaf { IfSome (leaf_in (node_at places.old.items at)) (λ register. 0 < register.holders) }
    requires at { at < length places.old.items }
    ensures items { places.new.items ≡ slice_set places.old.items at (with_leaf without_holder (node_at places.old.items at)) }
    ensures len { vec_len places.new ≡ vec_len places.old }
{
    if let Some(node) = &mut places[at] {
        if let Content::Leaf(register) = &mut node.content {
            register.holders -= 1;
        }
    }
}

/// Puts a value into the register at a place, and gives the old one.
pub fn replace_value<T>(places: &mut Vec<Option<Node<T>>>, at: usize, value: T) -> T
    requires leaf { IsSome (leaf_in (node_at places.old.items at)) }
    requires at { at < length places.old.items }
    ensures old { option_map (λ register. register.value) (leaf_in (node_at places.old.items at)) ≡ Some result }
    ensures items { places.new.items ≡ slice_set places.old.items at (with_leaf (with_value value) (node_at places.old.items at)) }
    ensures len { vec_len places.new ≡ vec_len places.old }
{
    match &mut places[at] {
        Some(node) => match &mut node.content {
            Content::Leaf(register) => mem::replace(&mut register.value, value),
            Content::Index(_) => unreachable!(),
        },
        None => unreachable!(),
    }
}

/// Resizes the box of the register at a place.
pub fn resize_value<T: Slot>(places: &mut Vec<Option<Node<T>>>, at: usize, part: u8, value: i32)
    requires at { at < length places.old.items }
    ensures items { places.new.items ≡ slice_set places.old.items at (with_leaf (with_resized (T.resized part value)) (node_at places.old.items at)) }
    ensures len { vec_len places.new ≡ vec_len places.old }
{
    if let Some(node) = &mut places[at] {
        if let Content::Leaf(register) = &mut node.content {
            register.value.resize(part, value);
        }
    }
}

/// Whether the node at a place has to stand: it has children, or its register is held or isn't initial.
pub fn stands<T: Slot>(places: &[Option<Node<T>>], at: usize) -> bool
    ensures { result ≡ stands_in T.is_initial (node_at places.now at) }
{
    match node_at(places, at) {
        Some(node) => stands_by(&node.content),
        None => true,
    }
}

fn stands_by<T: Slot>(content: &Content<T>) -> bool
    ensures { result ≡ stands_content T.is_initial content.now }
{
    match content {
        Content::Index(children) => !children.is_empty(),
        Content::Leaf(register) => register.holders > 0 || !register.value.is_initial(),
    }
}

/// What a new node has: no children, or with all four digits the value of the start and no holder.
pub fn new_content<T: Slot>(prefix: Prefix) -> Content<T>
    ensures { result ≡ new_content T.start prefix.digits }
{
    if prefix.digits == DIGITS {
        Content::Leaf(Register {
            value: T::initial(),
            holders: 0,
        })
    } else {
        Content::Index(Children::new())
    }
}

/// Takes the node away from a place.
pub fn vacate<T>(places: &mut Vec<Option<Node<T>>>, at: usize) -> Node<T>
    requires here { IsSome (node_at places.old.items at) }
    ensures node { node_at places.old.items at ≡ Some result }
    ensures items { places.new.items ≡ slice_set places.old.items at None }
    ensures len { vec_len places.new ≡ vec_len places.old }
    ensures capacity { vec_capacity places.new ≡ vec_capacity places.old }
{
    match mem::replace(&mut places[at], None) {
        Some(node) => node,
        None => unreachable!(),
    }
}

/// The value of the leaf at a place, if one stands there.
pub fn value_at<T>(places: &[Option<Node<T>>], at: usize) -> Option<&T>
    ensures { option_copied result ≡ option_map (λ register. register.value) (leaf_in (node_at places.now at)) }
{
    match leaf_at(places, at) {
        Some(register) => Some(&register.value),
        None => None,
    }
}

/// The holders of the leaf at a place, 0 if none stands there.
pub fn holders_at<T>(places: &[Option<Node<T>>], at: usize) -> u128
    ensures { result ≡ option_map_or (λ register. register.holders) (leaf_in (node_at places.now at)) 0 }
{
    match leaf_at(places, at) {
        Some(register) => register.holders,
        None => 0,
    }
}
