//! The children of a node, by their digits.
ghost use Rattle.std.specs.Prelude.{◌≡◌, ◌+◌, ◌<◌, ◌^◌, None, IfSome, replicate, slice_index_or, slice_set};
ghost use Rattle.sparse_regs.specs.ChildLinks.{child_of_link};
ghost use Rattle.std.specs.List.{list_all};
ghost use Rattle.std.specs.Option.{is_none};

use std::marker::Model;

/// The index of the child for each of the sixteen digits, where there is one. Contracts see a list of sixteen.
#[derive(Drop)]
pub struct Children {
    /// 1 more than the child's index, or 0 where there is none.
    links: [u32; 16],
}

impl Model for Children {
    ghost use Rattle.std.specs.Prelude.{List, Option, ℕ, map};

    ghost Value = { List (Option ℕ) };

    ghost use Rattle.sparse_regs.specs.ChildLinks.{child_of_link};

    ghost view = { λ c. map child_of_link c.links };
}

impl Children {
    pub fn new() -> Children
        ensures { result ≡ replicate 16 None }
    {
        Children { links: [0; 16] }
    }

    pub fn get(&self, digit: u8) -> Option<u32>
        requires { digit < 16 }
        ensures { result ≡ slice_index_or self.now digit None }
    {
        match self.links[digit as usize] {
            0 => None,
            link => Some(link - 1),
        }
    }

    pub fn set(&mut self, digit: u8, child: Option<u32>)
        requires digit { digit < 16 }
        requires child { IfSome child (λ at. at + 1 < 2 ^ 32) }
        ensures { self.new ≡ slice_set self.old digit child }
    {
        self.links[digit as usize] = link_of(child);
    }

    pub fn is_empty(&self) -> bool
        ensures { result ≡ list_all is_none self.now }
    {
        are_empty(&self.links)
    }
}

fn link_of(child: Option<u32>) -> u32
    requires { IfSome child (λ at. at + 1 < 2 ^ 32) }
    ensures { child_of_link result ≡ child }
{
    match child {
        None => 0,
        Some(at) => at + 1,
    }
}

fn are_empty(links: &[u32]) -> bool
    ensures { result ≡ list_all (λ link. is_none (child_of_link link)) links.now }
{
    links.iter().all(|link| is_free(*link))
}

fn is_free(link: u32) -> bool
    ensures { result ≡ is_none (child_of_link link) }
{
    link == 0
}
