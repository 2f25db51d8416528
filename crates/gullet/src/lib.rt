//! Expansion: from what is still to be read to tokens that aren't expanded, and to numbers (The TeXbook, chapters 20
//! and 24; `tex.web`, parts 25 to 29). Phrases that aren't finished stand on a stack of frames.
#![tactic(auto, using(asking::specs::Asked::asking))]

pub use example::worked_expansions;
pub use facts::{Facts, FontFacts, Mode};
pub use gullet::Gullet;
pub use laws::{phrase_law, value_law};
pub use meanings::{fixed_meaning, key_of, taken_meaning};
pub use parameters::{categories, escape, new_line};
pub use raw::{font_shown, string_text};
pub use report::{make_gap, show};
pub use site::{Passed, Site};
pub use sound::{copies_law, keeping_law, sound_law};

mod acts;
mod begin;
mod branches;
mod call;
mod calling;
mod context;
mod definition;
mod digits;
mod events;
mod example;
mod facts;
mod file_name;
mod first_line;
mod frames;
mod gathering;
mod gullet;
mod in_text;
mod inputs;
mod inside;
mod laws;
mod lists;
mod meanings;
mod next;
mod number;
mod parameters;
mod passing;
mod progress;
mod quantities;
mod raw;
mod report;
mod simple;
mod site;
mod sound;
mod step;
mod take;
mod task;
#[cfg(test)]
mod tests;
mod texts;
mod troubles;
mod turn;
mod unexpandable;
mod values;
