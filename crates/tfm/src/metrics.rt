//! The metrics of a loaded font (tex.web sections 549 to 558).

use crate::action::Action;
use crate::character::{Character, characters};
use crate::characters::CHARACTERS;
use crate::checks::Sizes;
use crate::instructions::boundary;
use crate::lengths::Lengths;
use crate::programs::action_from;
use crate::quarters::{Quarters, word};
use crate::tables::{boundary_program, instructions, kerns, parameters};
use std::alloc::{AllocError, Global};
use std::marker::Model;

/// Where the header has the checksum.
const CHECKSUM_AT: usize = 24;

/// The metrics of a font at a size. Measures are in sp.
#[derive(Drop)]
pub struct Metrics {
    checksum: u32,
    design: i32,
    size: i32,
    characters: Vec<Character>,
    instructions: Vec<Quarters>,
    kerns: Vec<i32>,
    parameters: Vec<i32>,
    boundary: Option<u8>,
    boundary_program: Option<u16>,
}

impl Model for Metrics {
    ghost use Rattle.std.specs.Prelude.{◌≡◌, ◌<◌, ◌^◌, length};
    ghost use Rattle.tfm.specs.FontMetrics.{FontMetrics};

    ghost Value = { FontMetrics };

    ghost view = { λ m. record {
      checksum = m.checksum;
      design = m.design;
      size = m.size;
      characters = m.characters.items;
      instructions = m.instructions.items;
      kerns = m.kerns.items;
      parameters = m.parameters.items;
      boundary = m.boundary;
      boundary_program = m.boundary_program;
    } };

    ghost invariant = { λ m. (length m.characters.items ≡ 256) × (length m.parameters.items < 2 ^ 16) };
}

impl Metrics {
    ghost use Rattle.std.specs.Prelude.{◌≡◌, ◌<◌, ◌^◌, IfOk, length};
    ghost use Rattle.tfm.specs.FontMetrics.{metrics_at, character_in, parameter_in};
    ghost use Rattle.tfm.specs.FontMetricsPrograms.{program_in, action_in};
    ghost use Rattle.tfm.specs.FontMetricsFaults.{design_size};

    /// Decodes the tables of a file.
    #[tactic(auto, unfolding(crate::specs::FontMetrics::metrics_at))]
    pub(crate) fn decode(
        alloc: Global,
        bytes: &[u8],
        lengths: Lengths,
        sizes: Sizes,
    ) -> Result<Metrics, AllocError>
        requires design { sizes.design ≡ design_size bytes.now }
        requires design_bound { sizes.design < 2 ^ 27 }
        requires asked_bound { sizes.asked < 2 ^ 27 }
        ensures { IfOk result (λ metrics. metrics ≡ metrics_at bytes.now lengths sizes.asked) }
    {
        let characters = characters(alloc, bytes, lengths, sizes.asked, CHARACTERS)?;
        let instructions = instructions(alloc, bytes, lengths)?;
        let kerns = kerns(alloc, bytes, lengths, sizes.asked)?;
        let parameters = parameters(alloc, bytes, lengths, sizes.asked)?;
        Ok(Metrics {
            checksum: word(bytes, CHECKSUM_AT).number(),
            design: sizes.design as i32,
            size: sizes.asked as i32,
            characters,
            instructions,
            kerns,
            parameters,
            boundary: boundary(bytes, lengths),
            boundary_program: boundary_program(bytes, lengths),
        })
    }

    fn character(&self, character: u8) -> &Character
        ensures { result.now ≡ character_in self.now character }
    {
        &self.characters[usize::from(character)]
    }

    /// Whether the font has a character.
    pub fn exists(&self, character: u8) -> bool
        ensures { result ≡ (character_in self.now character).exists }
    {
        self.character(character).exists
    }

    /// A character's width; 0 where the font doesn't have it, as for the three measures below.
    pub fn width(&self, character: u8) -> i32
        ensures { result ≡ (character_in self.now character).width }
    {
        self.character(character).width
    }

    /// A character's height.
    pub fn height(&self, character: u8) -> i32
        ensures { result ≡ (character_in self.now character).height }
    {
        self.character(character).height
    }

    /// A character's depth.
    pub fn depth(&self, character: u8) -> i32
        ensures { result ≡ (character_in self.now character).depth }
    {
        self.character(character).depth
    }

    /// A character's italic correction.
    pub fn italic(&self, character: u8) -> i32
        ensures { result ≡ (character_in self.now character).italic }
    {
        self.character(character).italic
    }

    /// How many parameters the font has: at least 7.
    pub fn params(&self) -> u16
        ensures { result ≡ length self.now.parameters }
    {
        self.parameters.len() as u16
    }

    /// A parameter, counted from 1: in sp, but for the first, the slant, which is in units of 2^-16. 0 outside the
    /// font's parameters.
    pub fn param(&self, n: u16) -> i32
        ensures { result ≡ parameter_in self.now n }
    {
        if n == 0 {
            return 0;
        }
        self.parameters
            .get(usize::from(n) - 1)
            .copied()
            .unwrap_or(0)
    }

    /// The checksum that stands in the file.
    pub fn checksum(&self) -> u32
        ensures { result ≡ self.now.checksum }
    {
        self.checksum
    }

    /// The size at which the font is loaded.
    pub fn size(&self) -> i32
        ensures { result ≡ self.now.size }
    {
        self.size
    }

    /// The font's design size.
    pub fn design(&self) -> i32
        ensures { result ≡ self.now.design }
    {
        self.design
    }

    /// The character that stands for the boundary of a word.
    pub fn boundary(&self) -> Option<u8>
        ensures { result ≡ self.now.boundary }
    {
        self.boundary
    }

    /// Where the program begins for a character on the left, or for the boundary.
    fn program(&self, left: Option<u8>) -> Option<u16>
        ensures { result ≡ program_in self.now left }
    {
        match left {
            Some(character) => self.character(character).program,
            None => self.boundary_program,
        }
    }

    /// What the font does where a character, or the boundary of a word for `None`, meets a character on its right.
    /// It goes along the program once, and ends on each.
    pub fn action(&self, left: Option<u8>, right: u8) -> Action
        ensures { result ≡ action_in self.now left right }
    {
        match self.program(left) {
            Some(start) => action_from(&self.instructions, &self.kerns, start, right),
            None => Action::Nothing,
        }
    }
}
