//! A DVI file that is written page by page (`tex.web`, sections 617 and 638 to 642).
ghost use Rattle.std.specs.Prelude.{◌≡◌, [], OnOk, OnErr, IfErr, Ok, length};
ghost use Rattle.tokens.specs.Ends.{Ends};
ghost use Rattle.dvi_out.specs.SpellingFile.{no_file, begun, page_of, check_answer, page_answer, finished, taken};
ghost use Rattle.dvi_out.specs.SpellingStory.{StandsFor, KeepsStory, EndsStory, TakesFromStory};

use crate::font::FontDef;
use crate::pages::{Pages, check};
use nodes::BoxNode;
use std::alloc::{AllocError, Global};
use std::marker::Model;
use tokens::Stop;

/// A DVI file. `begin` comes first, then the pages, then `finish`; what is written in another order is no DVI file.
#[derive(Drop)]
pub struct Dvi {
    pages: Pages,
}

impl Model for Dvi {
    ghost use Rattle.dvi_out.specs.SpellingFile.{DviFile};
    ghost use Rattle.dvi_out.specs.FileOf.{file_code, file_in};

    ghost Value = { DviFile };

    ghost coded = { file_code };

    ghost view = { λ dvi. file_in dvi.pages };
}

impl Dvi {
    /// A file of which nothing is written.
    pub fn new(alloc: Global) -> Dvi
        ensures { result ≡ no_file }
    {
        Dvi {
            pages: Pages::new(alloc),
        }
    }

    /// Writes what stands in front of the pages: the magnification in thousandths, and a comment of at most 255 bytes.
    pub fn begin(&mut self, mag: i32, comment: &[u8]) -> Result<(), AllocError>
        ensures ok { OnOk result (self.new ≡ begun mag comment.now self.old) }
        ensures story { OnOk result (self.old ≡ no_file → StandsFor mag comment.now [] [] self.new) }
        ensures err { OnErr result (self.new ≡ self.old) }
    {
        self.pages.begin(mag, comment)
    }

    /// What `page` looks at first: whether the box is too large with the offset to the right and down, in sp, and whether
    /// 65,535 pages were shipped.
    pub fn check(&self, shipped: &BoxNode, offset: (i32, i32)) -> Result<(), Stop>
        ensures { result ≡ check_answer self.now.pages shipped.now offset.0 offset.1 }
    {
        check(self.pages.pages, shipped, offset)
    }

    /// Ships a page: its box, the numbers that name it, the offset to the right and down, in sp, and the fonts that its
    /// characters are in, each with a name of at most 255 bytes. A font that isn't there is chosen and not defined.
    pub fn page(
        &mut self,
        shipped: &BoxNode,
        counts: [i32; 10],
        offset: (i32, i32),
        fonts: &[FontDef],
    ) -> Result<(), Stop>
        ensures ok { OnOk result
            (page_answer self.old (page_of shipped.now counts offset.0 offset.1 fonts.now) ≡ Ok self.new) }
        ensures story { OnOk result (KeepsStory (page_of shipped.now counts offset.0 offset.1 fonts.now) self.old self.new) }
        ensures ends { IfErr result
            (Ends (page_answer self.old (page_of shipped.now counts offset.0 offset.1 fonts.now))) }
        ensures err { OnErr result (self.new ≡ self.old) }
    {
        self.pages.page(shipped, &counts, offset, fonts)
    }

    /// Writes what stands behind the pages.
    pub fn finish(&mut self) -> Result<(), AllocError>
        ensures ok { OnOk result (self.new ≡ finished self.old) }
        ensures story { OnOk result (EndsStory self.old self.new) }
        ensures err { OnErr result (self.new ≡ self.old) }
    {
        self.pages.finish()
    }

    /// The bytes that were written since the last call.
    pub fn take_bytes(&mut self) -> Vec<u8>
        ensures bytes { result.items ≡ self.old.waiting }
        ensures file { self.new ≡ taken self.old }
        ensures story { TakesFromStory result.items self.old self.new }
    {
        self.pages.take_bytes()
    }

    /// The number of pages.
    pub fn pages(&self) -> u32
        ensures { result ≡ self.now.pages }
    {
        self.pages.pages
    }

    /// How many bytes the file has, those that were taken among them.
    pub fn length(&self) -> u64
        ensures { result ≡ self.now.length }
    {
        self.pages.length
    }
}
