//! What expansion is told of the rest of the run: the mode, the list that is built, the page, the fonts, the job.

use scaled::Glue;
use sqlite_items::Items;
use tfm::Metrics;
use tokens::{Text, Token};

/// The mode in which commands are carried out (The TeXbook, chapter 13).
#[derive(Clone, Copy, Debug, PartialEq, Eq)]
pub enum Mode {
    Vertical,
    InternalVertical,
    Horizontal,
    RestrictedHorizontal,
}

/// A font as it was loaded, with what a document may change of it.
#[derive(Drop)]
pub struct FontFacts {
    pub name: Text,
    /// None for `\nullfont`.
    pub metrics: Option<Metrics>,
    /// The font's parameters, from the first one on, in sp.
    pub dimens: Items<i32>,
    /// `\hyphenchar` and `\skewchar`.
    pub hyphen: i32,
    pub skew: i32,
}

/// What expansion is told of the rest of the run.
#[derive(Drop)]
pub struct Facts {
    pub mode: Mode,
    /// Whether a `\write` is carried out, during which no mode stands.
    pub in_write: bool,
    /// The number of `\lastnodetype`.
    pub last_type: i8,
    pub last_glue: Glue,
    /// The last penalty, or the last kern in sp.
    pub last_number: i32,
    /// The page's quantities: `\pagegoal` to `\pagedepth` in sp, and `\insertpenalties`.
    pub page: [i32; 9],
    pub dead_cycles: i32,
    pub prev_depth: i32,
    pub space_factor: i32,
    pub prev_graf: i32,
    pub badness: i32,
    /// `\interactionmode`, 0 to 3.
    pub interaction: i32,
    pub open_inputs: [bool; 16],
    /// The name of the job, without bytes until it is set.
    pub job: Text,
    /// The name of the file that was asked for last, without bytes until one is.
    pub asked: Text,
    /// Whether the DVI file was created.
    pub dvi_open: bool,
    /// The magnification that was used first, 0 before that.
    pub used_mag: i32,
    /// The token of `\afterassignment`.
    pub after: Option<Token>,
    /// The fonts by their numbers, `\nullfont` first.
    pub fonts: Items<FontFacts>,
}
