//! The movements of a family with the places of their commands in the bytes of a page (`tex.web`, sections 604 to 615).
ghost use Rattle.std.specs.Prelude.{◌≡◌, ◌<◌, ◌≤◌, [], OnOk, IfSome, length};
ghost use Rattle.dvi_out.specs.SpellingMovements.{no_movements};
ghost use Rattle.dvi_out.specs.Buffer.{track, with_kept, with_movement, found_for, moved_at, begun_track, ended_track};
ghost use Rattle.dvi_out.specs.SpelledOf.{codes_of};
ghost use Rattle.dvi_out.specs.BufferOf.{track_of};

use crate::codes::{Codes, keep_width, put_movement};
use crate::movements::{Movement, Movements, Word, carried, movement_at, repeated};
use std::alloc::{AllocError, Global};

/// The movements of a family of a page.
#[derive(Drop)]
pub(crate) struct Track {
    pub(crate) movements: Movements,
    /// The place of each one's command.
    pub(crate) places: Vec<usize>,
}

impl Track {
    /// No movement.
    pub(crate) fn new(alloc: Global) -> Track
        ensures { track_of result ≡ track no_movements [] }
    {
        Track {
            movements: Movements::new(alloc),
            places: Vec::new(alloc),
        }
    }

    /// Makes room for so many movements.
    pub(crate) fn make_room(&mut self, count: usize) -> Result<(), AllocError>
        ensures { track_of self.new ≡ track_of self.old }
    {
        self.places.reserve(count)?;
        self.movements.make_room(count)
    }

    /// A list begins.
    pub(crate) fn begin_list(&mut self) -> Result<(), AllocError>
        ensures { OnOk result (track_of self.new ≡ begun_track (track_of self.old)) }
    {
        self.movements.begin_list()
    }

    /// A list ends.
    pub(crate) fn end_list(&mut self)
        ensures { track_of self.new ≡ ended_track (track_of self.old) }
    {
        self.movements.end_list();
    }

    /// Writes a movement, whose width is not 0.
    pub(crate) fn write(
        &mut self,
        out: &mut Vec<u8>,
        codes: Codes,
        width: i32,
    ) -> Result<(), AllocError>
        requires first { codes.first ≤ 252 }
        requires second { codes.second ≤ 252 }
        requires plain { codes.plain ≤ 252 }
        ensures track { OnOk result (track_of self.new ≡ moved_at width (length out.old.items) (track_of self.old)) }
        ensures bytes { OnOk result
            (out.new.items ≡ with_movement (codes_of codes) width (track_of self.old) (found_for width (track_of self.old)) out.old.items) }
    {
        let place = out.len();
        let found = self.movements.search(width);
        self.put(out, codes, width, found)?;
        self.movements.add(width, found)?;
        self.places.reserve(1)?;
        self.places.push_reserved(place);
        Ok(())
    }

    /// Adds the bytes of a movement, where the one was found whose width it repeats.
    fn put(
        &self,
        out: &mut Vec<u8>,
        codes: Codes,
        width: i32,
        found: Option<(usize, Word)>,
    ) -> Result<(), AllocError>
        requires first { codes.first ≤ 252 }
        requires second { codes.second ≤ 252 }
        requires plain { codes.plain ≤ 252 }
        requires found { IfSome found (λ f. f.0 < length self.now.movements.open_places.items) }
        ensures { OnOk result (out.new.items ≡ with_movement (codes_of codes) width (track_of self.now) found out.old.items) }
    {
        match found {
            None => put_movement(out, codes, carried(width)),
            Some((passed, word)) => {
                self.keep(out, codes, passed, word);
                put_movement(out, codes, repeated(width, word))
            }
        }
    }

    /// The open movement that stands behind so many later ones keeps its width as the word.
    fn keep(&self, out: &mut Vec<u8>, codes: Codes, passed: usize, word: Word)
        requires first { codes.first ≤ 252 }
        requires second { codes.second ≤ 252 }
        requires plain { codes.plain ≤ 252 }
        requires found { passed < length self.now.movements.open_places.items }
        ensures { out.new.items ≡ with_kept (codes_of codes) (track_of self.now) passed word out.old.items }
    {
        let index = self.movements.index_of(passed);
        let movement = movement_at(&self.movements.moves, index);
        if let Some(place) = self.places.get(index) {
            keep_width(out, codes, word, movement, *place);
        }
    }
}
