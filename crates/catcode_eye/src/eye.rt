//! The eye: a file's bytes, the line that was taken last and the place in it (The TeXbook, chapter 8;
//! `tex.web` 301 to 303 and 343).
ghost use Rattle.std.specs.Prelude.{◌≡◌, ℕ, ◌<◌, ◌≤◌, IfOk, IfErr, OnErr, length, take, drop, IfSome};
ghost use Rattle.tokens.specs.Ends.{Gives, Ends};
ghost use Rattle.catcode_eye.specs.Lines.{source_lines};
ghost use Rattle.catcode_eye.specs.Glance.{Glimpses};
ghost use Rattle.catcode_eye.specs.Outlook.{before_lines, has_line, next_line, next_seen, is_line_finished, without_rest, behind_word};
ghost use Rattle.catcode_eye.specs.Progress.{SeenShortens, GlanceShortens};
ghost use Rattle.catcode_eye.specs.Sighting.{rest_at};

use crate::lines::{Bounds, byte_named, line_bounds, with_end};
use crate::name::Place;
use crate::seen::{Glance, Seen, State};
use crate::sight::{look, shows_nothing};
use std::alloc::Global;
use std::marker::Model;
use tokens::{Cap, CatTable, Kind, Stop, Text};

/// A reader of one file, of the first line or of a pseudo-file. Contracts see the lines that were not
/// taken yet, the rest of the line that was taken last, and the state.
#[derive(Drop)]
pub struct Eye {
    alloc: Global,
    bytes: Vec<u8>,
    mark: Option<u8>,
    /// Whether the one line of a file without bytes is still to come.
    has_empty_line: bool,
    /// The index at which the next line begins.
    unread: usize,
    /// The bounds of the rest of the line that was taken last.
    at: usize,
    end: usize,
    state: State,
}

impl Model for Eye {
    ghost use Rattle.std.specs.Prelude.{◌≡◌, ◌≤◌, true, length, take, drop};
    ghost use Rattle.catcode_eye.specs.Lines.{unread_lines};
    ghost use Rattle.catcode_eye.specs.Outlook.{Outlook};

    ghost Value = { Outlook };

    ghost view = { λ eye. record {
      unread = unread_lines eye.mark eye.has_empty_line (drop eye.unread eye.bytes.items);
      rest = drop eye.at (take eye.end eye.bytes.items);
      state = eye.state;
    } };

    ghost invariant = { λ eye. (eye.at ≤ eye.end) × (eye.end ≤ eye.unread) × (eye.unread ≤ length eye.bytes.items)
        × (eye.has_empty_line ≡ true → eye.unread ≡ length eye.bytes.items) };
}

/// The index of the rest of a line that begins at a place. A head in front of it takes the place of the
/// last byte that it was written with.
fn placed(bytes: &mut Vec<u8>, end: usize, place: Place) -> usize
    requires within { place.next ≤ end }
    requires inside { end ≤ length bytes.old.items }
    requires forward { IfSome place.head (λ _. 0 < place.next) }
    ensures rest { drop result (take end bytes.new.items) ≡ rest_at (take end bytes.old.items) place }
    ensures behind { (n : ℕ) → end ≤ n → drop n bytes.new.items ≡ drop n bytes.old.items }
    ensures size { length bytes.new.items ≡ length bytes.old.items }
    ensures within { result ≤ end }
{
    match place.head {
        None => place.next,
        Some(byte) => {
            let at = place.next - 1;
            bytes[at] = byte;
            at
        }
    }
}

impl Eye {
    /// An eye for these bytes, before their first line. A line ends at each byte `mark`, and nowhere where
    /// `mark` lies outside 0 to 255. A source of no bytes has one empty line if `one_if_empty`, else none.
    pub fn new(alloc: Global, bytes: Vec<u8>, mark: i32, one_if_empty: bool) -> Eye
        ensures { result ≡ before_lines (source_lines mark one_if_empty bytes.items) }
    {
        let has_empty_line = one_if_empty && bytes.is_empty();
        Eye {
            alloc,
            bytes,
            mark: byte_named(mark),
            has_empty_line,
            unread: 0,
            at: 0,
            end: 0,
            state: State::NewLine,
        }
    }

    /// Whether a line is left.
    pub fn has_line(&self) -> bool
        ensures { result ≡ has_line self.now.unread }
    {
        self.has_empty_line || self.unread < self.bytes.len()
    }

    /// The bytes that are left of the line that was taken last.
    pub fn rest(&self) -> &[u8]
        ensures { result.now ≡ self.now.rest }
    {
        &self.bytes[self.at..self.end]
    }

    /// Drops what is left of the line.
    pub fn drop_rest(&mut self)
        ensures { self.new ≡ without_rest self.old }
    {
        self.at = self.end;
    }

    /// Skips blanks from here on, as behind a word.
    pub fn skip_blanks(&mut self)
        ensures { self.new ≡ behind_word self.old }
    {
        self.state = State::SkipBlanks;
    }

    /// Takes the next line, where one is left: it loses the bytes 32 and 13 at its end, and the byte
    /// `endline` is put there, where that lies in 0 to 255. What was left of the line before is dropped.
    pub fn next_line(&mut self, endline: i32) -> Result<bool, Stop>
        ensures gives { IfOk result (λ is_taken. Gives (next_line endline self.old) (is_taken, self.new)) }
        ensures ends { IfErr result (λ stop. Ends (next_line endline self.old) stop) }
        ensures kept { OnErr result (self.new ≡ self.old) }
    {
        if !self.has_line() {
            return Ok(false);
        }
        let start = self.unread;
        let Some(bounds) = line_bounds(self.bytes.as_slice(), start, self.mark) else {
            return Err(Stop::Capacity(Cap::Line));
        };
        let bounds = with_end(&mut self.bytes, bounds, byte_named(endline))?;
        self.has_empty_line = false;
        self.unread = bounds.next;
        self.at = start;
        self.end = bounds.end;
        self.state = State::NewLine;
        Ok(true)
    }

    /// Whether nothing is left to be seen in the line: `next` would answer `LineEnd`.
    pub fn is_line_finished(&self, cats: &CatTable) -> bool
        ensures { result ≡ is_line_finished cats.now self.now }
    {
        shows_nothing(&self.bytes[..self.end], self.at, self.state, cats)
    }

    /// What is seen next, with the bytes of a name in `name`, whose former bytes are dropped. It takes
    /// memory only where `name` has to grow.
    pub fn glance(&mut self, cats: &CatTable, name: &mut Vec<u8>) -> Glance
        ensures sees { Glimpses cats.now self.old result name.new.items self.new }
        ensures progress { GlanceShortens result self.old.rest self.new.rest }
    {
        name.clear();
        let sighting = look(&self.bytes[..self.end], self.at, self.state, cats, name);
        self.at = placed(&mut self.bytes, self.end, sighting.place);
        self.state = sighting.state;
        sighting.glance
    }

    /// What is seen next. At a byte of category 15 in its turn it is the trouble `InvalidChar`.
    pub fn next(&mut self, cats: &CatTable) -> Result<Seen, Stop>
        ensures gives { IfOk result (λ seen. Gives (next_seen cats.now self.old) (seen, self.new)) }
        ensures ends { IfErr result (λ stop. Ends (next_seen cats.now self.old) stop) }
        ensures kept { OnErr result (self.new ≡ self.old) }
        ensures progress { IfOk result (λ seen. SeenShortens seen self.old.rest self.new.rest) }
    {
        let mut name = Vec::new(self.alloc);
        match self.glance(cats, &mut name) {
            Glance::Char { cat, byte } => Ok(Seen::Char { cat, byte }),
            Glance::Active(byte) => Ok(Seen::Active(byte)),
            Glance::Word => Ok(Seen::Word(Text::new(name))),
            Glance::Par => Ok(Seen::Par),
            Glance::LineEnd => Ok(Seen::LineEnd),
            Glance::Invalid => Err(Stop::Trouble(Kind::InvalidChar)),
            Glance::OutOfMemory => Err(Stop::OutOfMemory),
        }
    }
}

#[cfg(test)]
mod tests;
