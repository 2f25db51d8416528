//! A gullet on a line, with all that stands around it at the start of a run.
use super::macros::{Definition, define};
use gullet::{Facts, FontFacts, Gullet, Mode, Passed, Site};
use save_groups::Env;
use scaled::{Glue, Order};
use sqlite_items::Items;
use std::alloc::{AllocError, Global};
use std::test::Fail;
use tokens::{Budget, NameId, Stop, Text, primitive_table};
use world::Printer;

/// More steps than any line takes that ends.
const STEPS: u64 = 1_000_000;

/// A line that is to be expanded.
#[derive(Drop)]
pub struct Tex {
    pub alloc: Global,
    pub gullet: Gullet,
    pub site: Site,
}

impl Tex {
    /// How many troubles were passed over.
    pub fn passed(&self) -> u64 {
        self.site.passed.total
    }

    /// The id of a name.
    pub fn name(&mut self, name: &[u8]) -> Result<NameId, AllocError> {
        self.site.names.intern(name)
    }
}

/// Glue that doesn't stand for anything.
const NO_GLUE: Glue = Glue {
    width: 0,
    stretch: 0,
    stretch_order: Order::Normal,
    shrink: 0,
    shrink_order: Order::Normal,
};

/// `\nullfont`.
fn null_font(alloc: Global) -> Result<FontFacts, AllocError> {
    Ok(FontFacts {
        name: Text::new(b"nullfont".to_vec(alloc)?),
        metrics: None,
        dimens: Items::from_vec(Vec::new(alloc)),
        hyphen: 45,
        skew: -1,
    })
}

/// All fonts of a run that loads none.
fn fonts(alloc: Global) -> Result<Items<FontFacts>, AllocError> {
    let mut fonts = Vec::new(alloc);
    fonts.push(null_font(alloc)?)?;
    Ok(Items::from_vec(fonts))
}

/// What expansion is told at the start of a run.
fn facts(alloc: Global) -> Result<Facts, AllocError> {
    Ok(Facts {
        mode: Mode::Vertical,
        in_write: false,
        last_type: -1,
        last_glue: NO_GLUE,
        last_number: 0,
        page: [0; 9],
        dead_cycles: 0,
        prev_depth: -65_536_000,
        space_factor: 1000,
        prev_graf: 0,
        badness: 0,
        interaction: 3,
        open_inputs: [false; 16],
        job: Text::new(Vec::new(alloc)),
        asked: Text::new(Vec::new(alloc)),
        dvi_open: false,
        used_mag: 0,
        after: None,
        fonts: fonts(alloc)?,
    })
}

/// What stands around expansion at the start of a run.
fn site(alloc: Global, extended: bool) -> Result<Site, AllocError> {
    Ok(Site {
        env: Env::new(alloc, extended)?,
        names: primitive_table(alloc)?,
        out: Printer::new(alloc),
        budget: Budget::new(STEPS),
        facts: facts(alloc)?,
        passed: Passed {
            total: 0,
            recent: 0,
        },
    })
}

/// A line in the environment of the start.
fn plain(alloc: Global, extended: bool, line: &[u8]) -> Result<Tex, AllocError> {
    Ok(Tex {
        alloc,
        gullet: Gullet::new(alloc, line.to_vec(alloc)?),
        site: site(alloc, extended)?,
    })
}

/// A line with braces, `#` and `~` as in plain TeX, with these macros, and with nothing behind it, in extended mode.
pub fn with_macros(alloc: Global, macros: &[Definition], line: &[u8]) -> Result<Tex, Fail> {
    in_mode(alloc, true, macros, line)
}

/// The same in a mode.
pub fn in_mode(
    alloc: Global,
    extended: bool,
    macros: &[Definition],
    line: &[u8],
) -> Result<Tex, Fail> {
    let mut tex = plain(alloc, extended, line)?;
    define(&mut tex, macros)?;
    Ok(tex)
}
