//! A file with its pages (`tex.web`, sections 583 to 595, 617 and 638 to 642).
ghost use Rattle.std.specs.Prelude.{◌≡◌, ℤ, ◌+◌, ◌<◌, ◌++◌, List, [], OnOk, OnErr, IfOk, IfErr, Ok};
ghost use Rattle.std.specs.List.{flat_map};
ghost use Rattle.std.specs.Option.{option_copied};
ghost use Rattle.tokens.specs.Ends.{Ends};
ghost use Rattle.dvi_out.specs.declared.font.FontDef.{FontDef};
ghost use Rattle.dvi_out.specs.SpellingPage.{signed_four, spell_all};
ghost use Rattle.dvi_out.specs.SpellingFile.{no_file, begun, preamble, with_more, taken, page_of, page_walk, at_least_zero, reach_down, reach_right, is_huge, check_answer, page_answer, pointer, definitions_below, definition_if, filling, post, post_post, finished};
ghost use Rattle.dvi_out.specs.WalkOf.{walk_of};
ghost use Rattle.dvi_out.specs.FileOf.{file_in};
ghost use Rattle.dvi_out.specs.PageMade.{MakesPage, with_made};

use crate::command::Command;
use crate::font::FontDef;
use crate::numbers::{put_four, put_signed_four, put_two};
use crate::positions::plus;
use crate::speller::{Sources, Speller, find_font, put_definition};
use crate::walker::Walker;
use crate::walking::walk_list;
use crate::writer::Writer;
use nodes::BoxNode;
use std::alloc::{AllocError, Global};
use std::mem::replace;
use tokens::{Cap, Kind, Stop};

/// A file.
#[derive(Drop)]
pub(crate) struct Pages {
    pub(crate) alloc: Global,
    pub(crate) mag: i32,
    /// How long the file is.
    pub(crate) length: u64,
    /// The bytes that weren't taken yet.
    pub(crate) waiting: Vec<u8>,
    /// The place of the last page.
    pub(crate) last: Option<u64>,
    /// The fonts that were defined.
    pub(crate) fonts: Vec<FontDef>,
    /// The greatest height plus depth of a page, with the offset, in sp.
    pub(crate) tallest: u64,
    /// The greatest width of a page, with the offset, in sp.
    pub(crate) widest: u64,
    /// The most pushes in one another.
    pub(crate) deepest: u64,
    pub(crate) pages: u32,
}

/// The largest size of a page, in sp.
const LARGEST: i64 = 1_073_741_823;

/// How far down a page reaches, in sp.
fn reach_down(shipped: &BoxNode, offset: (i32, i32)) -> i64
    ensures { result ≡ reach_down shipped.now offset.1 }
{
    i64::from(shipped.height) + i64::from(shipped.depth) + i64::from(offset.1)
}

/// How far to the right a page reaches, in sp.
fn reach_right(shipped: &BoxNode, offset: (i32, i32)) -> i64
    ensures { result ≡ reach_right shipped.now offset.0 }
{
    i64::from(shipped.width) + i64::from(offset.0)
}

/// Whether a page is too large.
#[tactic(auto, unfolding(crate::specs::SpellingFile::is_huge))]
fn is_huge(shipped: &BoxNode, offset: (i32, i32)) -> bool
    ensures { result ≡ is_huge shipped.now offset.0 offset.1 }
{
    i64::from(shipped.height) > LARGEST
        || i64::from(shipped.depth) > LARGEST
        || reach_down(shipped, offset) > LARGEST
        || reach_right(shipped, offset) > LARGEST
}

/// What is looked at before a page is made, where so many were shipped.
pub(crate) fn check(pages: u32, shipped: &BoxNode, offset: (i32, i32)) -> Result<(), Stop>
    ensures answer { result ≡ check_answer pages shipped.now offset.0 offset.1 }
    ensures room { OnOk result (pages < 65535) }
{
    if is_huge(shipped, offset) {
        return Err(Stop::Trouble(Kind::HugePage));
    }
    if pages >= 65535 {
        return Err(Stop::Capacity(Cap::Pages));
    }
    Ok(())
}

/// A size, or 0 where it is below.
fn at_least_zero(size: i64) -> u64
    ensures { result ≡ at_least_zero size }
{
    if size > 0 { size.unsigned_abs() } else { 0 }
}

/// The walk through the box of a page.
#[tactic(auto, unfolding(crate::specs::SpellingFile::page_walk))]
fn walk_page(alloc: Global, shipped: &BoxNode, offset: (i32, i32)) -> Result<Walker, AllocError>
    ensures { IfOk result (λ walker. (counts : List ℤ) (fonts : List FontDef)
        → walk_of walker ≡ page_walk (page_of shipped.now counts offset.0 offset.1 fonts)) }
{
    let mut walker = Walker {
        alloc,
        h: offset.0,
        v: plus(shipped.height, offset.1),
        reader_h: 0,
        reader_v: 0,
        sum: 0,
        grown: 0,
        depth: 0,
        deepest: 0,
        commands: Vec::with_capacity(alloc, shipped.list.len())?,
    };
    walk_list(&mut walker, shipped)?;
    Ok(walker)
}

/// Writes the commands of a page, where these fonts are defined in the file and these may be used.
fn write_page(
    alloc: Global,
    commands: &[Command],
    defined: &[FontDef],
    fonts: &[FontDef],
) -> Result<Speller, AllocError>
    ensures bytes { IfOk result (λ speller. speller.bytes.items ≡ (spell_all commands.now defined.now fonts.now).bytes) }
    ensures fresh { IfOk result (λ speller. speller.fresh.items ≡ (spell_all commands.now defined.now fonts.now).fresh) }
{
    let sources = Sources { defined, fonts };
    let mut writer = Writer::new(alloc);
    writer.make_room(commands.len())?;
    writer.write_all(&sources, commands)?;
    Ok(writer.speller)
}

/// Adds the place of a page, or -1.
fn put_pointer(out: &mut Vec<u8>, place: Option<u64>) -> Result<(), AllocError>
    ensures { OnOk result (out.new.items ≡ out.old.items ++ pointer place) }
{
    match place {
        None => put_signed_four(out, -1),
        Some(place) => put_four(out, (place % 4294967296) as u32),
    }
}

/// Adds numbers in four bytes each.
fn put_counts(out: &mut Vec<u8>, counts: &[i32; 10]) -> Result<(), AllocError>
    ensures { OnOk result (out.new.items ≡ out.old.items ++ flat_map signed_four counts.now) }
{
    for i in 0..10 {
        put_signed_four(out, counts[i])?;
    }
    Ok(())
}

/// A page that was made.
#[derive(Drop)]
struct Page {
    bytes: Vec<u8>,
    /// The fonts that it defines.
    fresh: Vec<FontDef>,
    deepest: u64,
}

impl Pages {
    /// A file of which nothing is written.
    pub(crate) fn new(alloc: Global) -> Pages
        ensures { file_in result ≡ no_file }
    {
        Pages {
            alloc,
            mag: 0,
            length: 0,
            waiting: Vec::new(alloc),
            last: None,
            fonts: Vec::new(alloc),
            tallest: 0,
            widest: 0,
            deepest: 0,
            pages: 0,
        }
    }

    /// Adds bytes at the end.
    fn add_bytes(&mut self, bytes: &[u8]) -> Result<(), AllocError>
        ensures ok { OnOk result (file_in self.new ≡ with_more bytes.now (file_in self.old)) }
        ensures err { OnErr result (file_in self.new ≡ file_in self.old) }
    {
        let Some(length) = self.length.checked_add(bytes.len() as u64) else {
            return Err(AllocError);
        };
        self.waiting.extend_from_slice(bytes)?;
        self.length = length;
        Ok(())
    }

    /// Writes the preamble.
    #[tactic(auto, unfolding(crate::specs::SpellingFile::begun))]
    pub(crate) fn begin(&mut self, mag: i32, comment: &[u8]) -> Result<(), AllocError>
        ensures ok { OnOk result (file_in self.new ≡ begun mag comment.now (file_in self.old)) }
        ensures err { OnErr result (file_in self.new ≡ file_in self.old) }
    {
        let bytes = preamble(self.alloc, mag, comment)?;
        self.add_bytes(&bytes)?;
        self.mag = mag;
        Ok(())
    }

    /// Makes a page, and leaves the file as it is.
    #[tactic(auto, unfolding(crate::specs::SpellingFile::page_bytes, crate::specs::SpellingFile::page_spelled))]
    fn make_page(
        &self,
        shipped: &BoxNode,
        counts: &[i32; 10],
        offset: (i32, i32),
        fonts: &[FontDef],
    ) -> Result<Page, AllocError>
        ensures { IfOk result (λ page. MakesPage (file_in self.now) (page_of shipped.now counts.now offset.0 offset.1 fonts.now) page) }
    {
        let walker = walk_page(self.alloc, shipped, offset)?;
        let speller = write_page(self.alloc, &walker.commands, &self.fonts, fonts)?;
        let mut bytes = Vec::new(self.alloc);
        bytes.push(139)?;
        put_counts(&mut bytes, counts)?;
        put_pointer(&mut bytes, self.last)?;
        bytes.extend_from_slice(&speller.bytes)?;
        bytes.push(140)?;
        Ok(Page {
            bytes,
            fresh: speller.fresh,
            deepest: walker.deepest,
        })
    }

    /// Adds a page that reaches so far down and to the right.
    fn add_page(&mut self, page: Page, down: u64, right: u64) -> Result<(), AllocError>
        requires { self.old.pages < 65535 }
        ensures ok { OnOk result (file_in self.new ≡ with_made (file_in self.old) page down right) }
        ensures err { OnErr result (file_in self.new ≡ file_in self.old) }
    {
        let Page {
            bytes,
            mut fresh,
            deepest,
        } = page;
        let place = self.length;
        let defined = self.fonts.len();
        self.fonts.append(&mut fresh)?;
        if self.add_bytes(&bytes).is_err() {
            self.fonts.truncate(defined);
            return Err(AllocError);
        }
        self.last = Some(place);
        self.tallest = self.tallest.max(down);
        self.widest = self.widest.max(right);
        self.deepest = self.deepest.max(deepest);
        self.pages += 1;
        Ok(())
    }

    /// Ships a page.
    pub(crate) fn page(
        &mut self,
        shipped: &BoxNode,
        counts: &[i32; 10],
        offset: (i32, i32),
        fonts: &[FontDef],
    ) -> Result<(), Stop>
        ensures ok { OnOk result (page_answer (file_in self.old) (page_of shipped.now counts.now offset.0 offset.1 fonts.now) ≡ Ok (file_in self.new)) }
        ensures ends { IfErr result (Ends (page_answer (file_in self.old) (page_of shipped.now counts.now offset.0 offset.1 fonts.now))) }
        ensures err { OnErr result (file_in self.new ≡ file_in self.old) }
    {
        check(self.pages, shipped, offset)?;
        let page = self.make_page(shipped, counts, offset, fonts)?;
        if page.bytes.len() > 16_777_215 {
            return Err(Stop::Capacity(Cap::PageBytes));
        }
        let down = at_least_zero(reach_down(shipped, offset));
        let right = at_least_zero(reach_right(shipped, offset));
        self.add_page(page, down, right)?;
        Ok(())
    }

    /// Writes the postamble.
    #[tactic(auto, unfolding(crate::specs::SpellingFile::finished, crate::specs::SpellingFile::postamble))]
    pub(crate) fn finish(&mut self) -> Result<(), AllocError>
        ensures ok { OnOk result (file_in self.new ≡ finished (file_in self.old)) }
        ensures err { OnErr result (file_in self.new ≡ file_in self.old) }
    {
        let mut bytes = self.post()?;
        let Some(long) = self.length.checked_add(bytes.len() as u64 + 6) else {
            return Err(AllocError);
        };
        put_post_post(&mut bytes, self.length, long)?;
        self.add_bytes(&bytes)
    }

    /// The bytes of post, with the definitions of all fonts that were used.
    #[tactic(auto, unfolding(crate::specs::SpellingFile::post))]
    fn post(&self) -> Result<Vec<u8>, AllocError>
        ensures { IfOk result (λ bytes. bytes.items ≡ post (file_in self.now)) }
    {
        let mut bytes = Vec::new(self.alloc);
        bytes.push(248)?;
        put_pointer(&mut bytes, self.last)?;
        put_four(&mut bytes, 25400000)?;
        put_four(&mut bytes, 473628672)?;
        put_signed_four(&mut bytes, self.mag)?;
        put_four(&mut bytes, (self.tallest % 4294967296) as u32)?;
        put_four(&mut bytes, (self.widest % 4294967296) as u32)?;
        put_two(&mut bytes, (self.deepest % 65536) as u16)?;
        put_two(&mut bytes, (self.pages % 65536) as u16)?;
        put_definitions(&mut bytes, &self.fonts)?;
        Ok(bytes)
    }

    /// Takes the bytes that wait.
    pub(crate) fn take_bytes(&mut self) -> Vec<u8>
        ensures bytes { result.items ≡ (file_in self.old).waiting }
        ensures file { file_in self.new ≡ taken (file_in self.old) }
    {
        replace(&mut self.waiting, Vec::new(self.alloc))
    }
}

/// The bytes in front of the pages.
#[tactic(auto, unfolding(crate::specs::SpellingFile::preamble))]
fn preamble(alloc: Global, mag: i32, comment: &[u8]) -> Result<Vec<u8>, AllocError>
    ensures { IfOk result (λ bytes. bytes.items ≡ preamble mag comment.now) }
{
    let mut bytes = Vec::new(alloc);
    bytes.push(247)?;
    bytes.push(2)?;
    put_four(&mut bytes, 25400000)?;
    put_four(&mut bytes, 473628672)?;
    put_signed_four(&mut bytes, mag)?;
    bytes.push((comment.len() % 256) as u8)?;
    bytes.extend_from_slice(comment)?;
    Ok(bytes)
}

/// Adds the definition of a font, if it is there.
fn put_definition_if(out: &mut Vec<u8>, font: Option<&FontDef>) -> Result<(), AllocError>
    ensures { OnOk result (out.new.items ≡ out.old.items ++ definition_if (option_copied font.entry)) }
{
    match font {
        None => Ok(()),
        Some(font) => put_definition(out, font),
    }
}

/// Adds the definitions of fonts, the highest number first.
fn put_definitions(out: &mut Vec<u8>, fonts: &[FontDef]) -> Result<(), AllocError>
    ensures { OnOk result (out.new.items ≡ out.old.items ++ definitions_below 256 fonts.now) }
{
    for k in 0..256usize {
        put_definition_if(out, find_font(fonts, (255 - k) as u8))?;
    }
    Ok(())
}

/// Adds post_post with the place of post, in a file that is so long without its last bytes 223.
fn put_post_post(out: &mut Vec<u8>, place: u64, long: u64) -> Result<(), AllocError>
    ensures { OnOk result (out.new.items ≡ out.old.items ++ post_post place long) }
{
    out.push(249)?;
    put_four(out, (place % 4294967296) as u32)?;
    out.push(2)?;
    fill(out, 4 + (4 - long % 4) % 4)
}

/// Adds so many bytes 223.
fn fill(out: &mut Vec<u8>, count: u64) -> Result<(), AllocError>
    ensures { OnOk result (out.new.items ≡ out.old.items ++ filling count) }
{
    for _byte in 0..count {
        out.push(223)?;
    }
    Ok(())
}
