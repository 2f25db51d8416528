//! The commands of movements as bytes (`tex.web`, sections 585, 586, 602 and 607 to 610).
ghost use Rattle.std.specs.Prelude.{◌≡◌, ◌++◌, ◌≤◌, None, OnOk};
ghost use Rattle.dvi_out.specs.SpellingPage.{opcode_of, repetition_of, movement_bytes};
ghost use Rattle.dvi_out.specs.Buffer.{recoded};
ghost use Rattle.dvi_out.specs.SpelledOf.{codes_of};

use crate::movements::{Mark, Movement, Word};
use crate::numbers::{bytes_for, put_lowest};
use std::alloc::AllocError;

/// The commands of a family of movements, each the one that takes a width of one byte. In front of those that keep a
/// word stand those that repeat it.
#[derive(Clone, Copy)]
pub(crate) struct Codes {
    pub(crate) plain: u8,
    pub(crate) first: u8,
    pub(crate) second: u8,
}

/// `right1`, `w1` and `x1`.
pub(crate) const HORIZONTAL: Codes = Codes {
    plain: 143,
    first: 148,
    second: 153,
};

/// `down1`, `y1` and `z1`.
pub(crate) const VERTICAL: Codes = Codes {
    plain: 157,
    first: 162,
    second: 167,
};

impl Codes {
    fn of_mark(self, mark: Mark) -> u8
        ensures { result ≡ opcode_of (codes_of self) mark }
    {
        match mark {
            Mark::Free => self.plain,
            Mark::FirstOnly => self.plain,
            Mark::SecondOnly => self.plain,
            Mark::Fixed => self.plain,
            Mark::FirstHere => self.first,
            Mark::SecondHere => self.second,
        }
    }

    fn of_repetition(self, word: Word) -> u8
        ensures { result ≡ repetition_of (codes_of self) word }
    {
        match word {
            Word::First => self.first.saturating_sub(1),
            Word::Second => self.second.saturating_sub(1),
        }
    }
}

/// Adds the bytes of a movement.
#[inline(always)]
#[tactic(auto, unfolding(crate::specs::SpellingPage::movement_bytes))]
pub(crate) fn put_movement(
    out: &mut Vec<u8>,
    codes: Codes,
    movement: Movement,
) -> Result<(), AllocError>
    requires first { codes.first ≤ 252 }
    requires second { codes.second ≤ 252 }
    requires plain { codes.plain ≤ 252 }
    ensures { OnOk result (out.new.items ≡ out.old.items ++ movement_bytes (codes_of codes) movement) }
{
    match movement.repeats {
        Some(word) => {
            out.push(codes.of_repetition(word))?;
            Ok(())
        }
        None => {
            let count = bytes_for(movement.width);
            out.push(codes.of_mark(movement.mark) + (count - 1) as u8)?;
            put_lowest(out, count, movement.width)
        }
    }
}

/// Changes the command at a place, that of a movement of the width, to the one that keeps the width as the word.
fn set_command(out: &mut Vec<u8>, codes: Codes, word: Word, width: i32, place: usize)
    requires first { codes.first ≤ 252 }
    requires second { codes.second ≤ 252 }
    requires plain { codes.plain ≤ 252 }
    ensures { out.new.items ≡ recoded (codes_of codes) word width None place out.old.items }
{
    let command = codes.of_mark(Mark::here(word)) + (bytes_for(width) - 1) as u8;
    if let Some(byte) = out.get_mut(place) {
        *byte = command;
    }
}

/// The movement at a place keeps its width as the word. One that repeats a word has no width.
pub(crate) fn keep_width(
    out: &mut Vec<u8>,
    codes: Codes,
    word: Word,
    movement: Movement,
    place: usize,
)
    requires first { codes.first ≤ 252 }
    requires second { codes.second ≤ 252 }
    requires plain { codes.plain ≤ 252 }
    ensures { out.new.items ≡ recoded (codes_of codes) word movement.width movement.repeats place out.old.items }
{
    match movement.repeats {
        Some(_) => {}
        None => set_command(out, codes, word, movement.width, place),
    }
}
