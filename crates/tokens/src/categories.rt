//! The categories of the 256 characters (The TeXbook, chapter 7).
ghost use Rattle.std.specs.Prelude.{◌≡◌, ◌<◌, length, slice_set, IsTrue};
ghost use Rattle.tokens.specs.Categories.{category, are_categories, initial_categories};

use std::marker::Model;

/// The category of each byte. Contracts see the list of the 256 categories.
#[derive(Drop)]
pub struct CatTable {
    cats: [u8; 256],
}

impl Model for CatTable {
    ghost use Rattle.std.specs.Prelude.{ℕ, ◌≡◌, List, length, IsTrue};
    ghost use Rattle.tokens.specs.Categories.{are_categories};

    ghost Value = { List ℕ };

    ghost view = { λ table. table.cats };

    ghost invariant = { λ table. (length table.cats ≡ 256) × IsTrue (are_categories table.cats) };
}

impl CatTable {
    pub fn new(cats: [u8; 256]) -> CatTable
        requires { IsTrue (are_categories cats) }
        ensures { result ≡ cats }
    {
        CatTable { cats }
    }

    /// The categories before any assignment.
    #[tactic(auto, unfolding(crate::specs::Categories::initial_categories))]
    pub fn initial() -> CatTable
        ensures { result ≡ initial_categories }
    {
        CatTable { cats: INITIAL }
    }

    pub fn get(&self, byte: u8) -> u8
        ensures value { result ≡ category self.now byte }
        ensures bound { result < 16 }
        ensures size { length self.now ≡ 256 }
    {
        self.cats[byte as usize]
    }

    pub fn set(&mut self, byte: u8, cat: u8)
        requires { cat < 16 }
        ensures { self.new ≡ slice_set self.old byte cat }
    {
        self.cats[byte as usize] = cat;
    }
}

const INITIAL: [u8; 256] = [
    9, 12, 12, 12, 12, 12, 12, 12, 12, 12, 12, 12, 12, 5, 12, 12, 12, 12, 12, 12, 12, 12, 12, 12,
    12, 12, 12, 12, 12, 12, 12, 12, 10, 12, 12, 12, 12, 14, 12, 12, 12, 12, 12, 12, 12, 12, 12, 12,
    12, 12, 12, 12, 12, 12, 12, 12, 12, 12, 12, 12, 12, 12, 12, 12, 12, 11, 11, 11, 11, 11, 11, 11,
    11, 11, 11, 11, 11, 11, 11, 11, 11, 11, 11, 11, 11, 11, 11, 11, 11, 11, 11, 12, 0, 12, 12, 12,
    12, 11, 11, 11, 11, 11, 11, 11, 11, 11, 11, 11, 11, 11, 11, 11, 11, 11, 11, 11, 11, 11, 11, 11,
    11, 11, 11, 12, 12, 12, 12, 15, 12, 12, 12, 12, 12, 12, 12, 12, 12, 12, 12, 12, 12, 12, 12, 12,
    12, 12, 12, 12, 12, 12, 12, 12, 12, 12, 12, 12, 12, 12, 12, 12, 12, 12, 12, 12, 12, 12, 12, 12,
    12, 12, 12, 12, 12, 12, 12, 12, 12, 12, 12, 12, 12, 12, 12, 12, 12, 12, 12, 12, 12, 12, 12, 12,
    12, 12, 12, 12, 12, 12, 12, 12, 12, 12, 12, 12, 12, 12, 12, 12, 12, 12, 12, 12, 12, 12, 12, 12,
    12, 12, 12, 12, 12, 12, 12, 12, 12, 12, 12, 12, 12, 12, 12, 12, 12, 12, 12, 12, 12, 12, 12, 12,
    12, 12, 12, 12, 12, 12, 12, 12, 12, 12, 12, 12, 12, 12, 12, 12,
];
