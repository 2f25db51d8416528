//! Which movements of a family, horizontal or vertical, are kept by the reader of a page and repeated (`tex.web`,
//! sections 604 to 615).
ghost use Rattle.std.specs.Prelude.{◌≡◌, ◌<◌, ◌++◌, ◌∷◌, [], None, OnOk, IfSome, length, slice_set};
ghost use Rattle.std.specs.List.{fold};
ghost use Rattle.dvi_out.specs.SpellingMovements.{passed_at, word_here, mark_here, mark_between, of_the_width, of_another_width, look_at, search, movement_at, open_at, open_movements, with_mark, with_found, opened, closed, moved, no_movements, carried, repeated};
ghost use Rattle.dvi_out.specs.Buffer.{index_of};
ghost use Rattle.dvi_out.specs.FamilyOf.{family_of};

use std::alloc::{AllocError, Global};

/// One of the two widths of a family that a reader keeps: `w` and `x`, or `y` and `z`.
#[derive(Clone, Copy, Debug, PartialEq, Eq)]
pub(crate) enum Word {
    First,
    Second,
}

/// Whether a movement's width is kept when it is done, or could be.
#[derive(Clone, Copy, Debug, PartialEq, Eq)]
pub(crate) enum Mark {
    /// It can still be kept, as either word.
    Free,
    FirstOnly,
    SecondOnly,
    /// It can't be kept.
    Fixed,
    /// It is kept as the first word, or repeats it.
    FirstHere,
    SecondHere,
}

/// A movement of a page.
#[derive(Clone, Copy, Debug, PartialEq, Eq)]
pub(crate) struct Movement {
    /// In sp.
    pub(crate) width: i32,
    pub(crate) mark: Mark,
    /// The word whose width it repeats; where it repeats none, it carries its own.
    pub(crate) repeats: Option<Word>,
}

/// The movements of one family.
#[derive(Drop)]
pub(crate) struct Movements {
    /// All of the page, in order.
    pub(crate) moves: Vec<Movement>,
    /// The places of those that are open: they stand in a list that hasn't ended.
    pub(crate) open_places: Vec<usize>,
    /// For each list that hasn't ended, how many were open when it began.
    pub(crate) began: Vec<usize>,
}

/// What one open movement says to a search.
enum Look {
    /// It is passed; a word that is kept between may have been seen.
    Pass(Option<Word>),
    /// It has the width, and is or becomes the one that is kept as the word.
    Hit(Word),
    /// Both words are kept between.
    Leave,
}

impl Mark {
    /// The word as which a movement's width is kept.
    fn word(self) -> Option<Word>
        ensures { result ≡ word_here self }
    {
        match self {
            Mark::Free => None,
            Mark::FirstOnly => None,
            Mark::SecondOnly => None,
            Mark::Fixed => None,
            Mark::FirstHere => Some(Word::First),
            Mark::SecondHere => Some(Word::Second),
        }
    }

    /// The mark of a movement whose width is kept as the word.
    pub(crate) fn here(word: Word) -> Mark
        ensures { result ≡ mark_here word }
    {
        match word {
            Word::First => Mark::FirstHere,
            Word::Second => Mark::SecondHere,
        }
    }

    /// The mark of a movement that stands between two that share the word.
    fn between(self, word: Word) -> Mark
        ensures { result ≡ mark_between word self }
    {
        match (word, self) {
            (Word::First, Mark::Free) => Mark::SecondOnly,
            (Word::First, Mark::FirstOnly) => Mark::Fixed,
            (Word::Second, Mark::Free) => Mark::FirstOnly,
            (Word::Second, Mark::SecondOnly) => Mark::Fixed,
            (_, mark) => mark,
        }
    }

    /// What a movement with this mark says to a search for its width.
    fn of_the_width(self, seen: Option<Word>) -> Look
        ensures { result ≡ of_the_width seen self }
    {
        match (seen, self) {
            (None, Mark::Free) => Look::Hit(Word::First),
            (None, Mark::FirstOnly) => Look::Hit(Word::First),
            (None, Mark::SecondOnly) => Look::Hit(Word::Second),
            (None, Mark::FirstHere) => Look::Hit(Word::First),
            (None, Mark::SecondHere) => Look::Hit(Word::Second),
            (Some(Word::First), Mark::Free) => Look::Hit(Word::Second),
            (Some(Word::First), Mark::SecondOnly) => Look::Hit(Word::Second),
            (Some(Word::First), Mark::SecondHere) => Look::Hit(Word::Second),
            (Some(Word::Second), Mark::Free) => Look::Hit(Word::First),
            (Some(Word::Second), Mark::FirstOnly) => Look::Hit(Word::First),
            (Some(Word::Second), Mark::FirstHere) => Look::Hit(Word::First),
            (seen, _) => Look::Pass(seen),
        }
    }

    /// What a movement with this mark says to a search for another width.
    fn of_another_width(self, seen: Option<Word>) -> Look
        ensures { result ≡ of_another_width seen (word_here self) }
    {
        match (seen, self.word()) {
            (seen, None) => Look::Pass(seen),
            (None, Some(word)) => Look::Pass(Some(word)),
            (Some(Word::First), Some(Word::First)) => Look::Pass(Some(Word::First)),
            (Some(Word::First), Some(Word::Second)) => Look::Leave,
            (Some(Word::Second), Some(Word::First)) => Look::Leave,
            (Some(Word::Second), Some(Word::Second)) => Look::Pass(Some(Word::Second)),
        }
    }
}

impl Movement {
    /// What the movement says to a search for a width.
    fn look(self, width: i32, seen: Option<Word>) -> Look
        ensures { result ≡ look_at width seen self }
    {
        if self.width == width {
            self.mark.of_the_width(seen)
        } else {
            self.mark.of_another_width(seen)
        }
    }
}

impl Movements {
    /// No movement, and no list that hasn't ended.
    pub(crate) fn new(alloc: Global) -> Movements
        ensures { family_of result ≡ no_movements }
    {
        Movements {
            moves: Vec::new(alloc),
            open_places: Vec::new(alloc),
            began: Vec::new(alloc),
        }
    }

    /// Makes room for so many movements.
    pub(crate) fn make_room(&mut self, count: usize) -> Result<(), AllocError>
        ensures { family_of self.new ≡ family_of self.old }
    {
        self.moves.reserve(count)?;
        self.open_places.reserve(count)
    }

    /// A list begins.
    pub(crate) fn begin_list(&mut self) -> Result<(), AllocError>
        ensures { OnOk result (family_of self.new ≡ opened (family_of self.old)) }
    {
        self.began.push(self.open_places.len())?;
        Ok(())
    }

    /// A list ends.
    pub(crate) fn end_list(&mut self)
        ensures { family_of self.new ≡ closed (family_of self.old) }
    {
        let began = self.began.pop().unwrap_or(0);
        self.open_places.truncate(began);
    }

    /// A movement comes, whose width is not 0, where the one was found whose width it repeats.
    pub(crate) fn add(&mut self, width: i32, found: Option<(usize, Word)>) -> Result<(), AllocError>
        requires found { found ≡ search width (open_movements (family_of self.old)) None }
        requires place { IfSome found (λ f. f.0 < length self.old.open_places.items) }
        ensures { OnOk result (family_of self.new ≡ moved width (family_of self.old)) }
    {
        let place = self.moves.len();
        let movement = self.share(width, found);
        self.moves.reserve(1)?;
        self.moves.push_reserved(movement);
        self.open_places.reserve(1)?;
        self.open_places.push_reserved(place);
        Ok(())
    }

    /// Which movement is open behind so many later ones.
    pub(crate) fn index_of(&self, passed: usize) -> usize
        requires { passed < length self.now.open_places.items }
        ensures { result ≡ index_of (family_of self.now) passed }
    {
        self.open_places[self.open_places.len() - 1 - passed]
    }

    /// The open movement that stands behind so many later ones.
    fn open_at(&self, passed: usize) -> Movement
        requires { passed < length self.now.open_places.items }
        ensures { result ≡ open_at (family_of self.now) passed }
    {
        movement_at(&self.moves, self.index_of(passed))
    }

    /// Looks for an open movement that a new one of the width can repeat: how many later ones are passed, and the word.
    pub(crate) fn search(&self, width: i32) -> Option<(usize, Word)>
        ensures found { result ≡ search width (open_movements (family_of self.now)) None }
        ensures places { IfSome result (λ found. found.0 < length self.now.open_places.items) }
    {
        let count = self.open_places.len();
        for passed in 0..count {
            match self.open_at(passed).look(width, None) {
                Look::Pass(None) => {}
                Look::Pass(Some(word)) => {
                    for behind in passed + 1..count {
                        match self.open_at(behind).look(width, Some(word)) {
                            Look::Pass(_) => {}
                            Look::Hit(word) => return Some((behind, word)),
                            Look::Leave => return None,
                        }
                    }
                    return None;
                }
                Look::Hit(word) => return Some((passed, word)),
                Look::Leave => return None,
            }
        }
        None
    }

    /// The new movement of the width, where the one was found.
    fn share(&mut self, width: i32, found: Option<(usize, Word)>) -> Movement
        requires { IfSome found (λ f. f.0 < length self.old.open_places.items) }
        ensures moves { self.new.moves.items ++ result ∷ [] ≡ with_found width (family_of self.old) found }
        ensures places { self.new.open_places.items ≡ self.old.open_places.items }
        ensures began { self.new.began.items ≡ self.old.began.items }
    {
        let Some((passed, word)) = found else {
            return carried(width);
        };
        let latest = self.open_places.len() - passed;
        let place = self.open_places[latest - 1];
        set_mark(&mut self.moves, place, Mark::here(word));
        pass_over(&mut self.moves, &self.open_places[latest..], word);
        repeated(width, word)
    }
}

/// A movement that carries its width.
pub(crate) fn carried(width: i32) -> Movement
    ensures { result ≡ carried width }
{
    Movement {
        width,
        mark: Mark::Free,
        repeats: None,
    }
}

/// A movement that repeats a word.
pub(crate) fn repeated(width: i32, word: Word) -> Movement
    ensures { result ≡ repeated width word }
{
    Movement {
        width,
        mark: Mark::here(word),
        repeats: Some(word),
    }
}

/// Changes the mark of the movement at a place.
fn set_mark(moves: &mut Vec<Movement>, place: usize, mark: Mark)
    ensures { moves.new.items ≡ slice_set moves.old.items place (with_mark mark (movement_at moves.old.items place)) }
{
    if let Some(movement) = moves.get_mut(place) {
        movement.mark = mark;
    }
}

/// Changes the marks of the movements at places that stand between two that share the word.
fn pass_over(moves: &mut Vec<Movement>, places: &[usize], word: Word)
    ensures { moves.new.items ≡ fold (passed_at word) moves.old.items places.now }
{
    for place in places {
        let mark = movement_at(moves, *place).mark.between(word);
        set_mark(moves, *place, mark);
    }
}

/// The movement at a place.
pub(crate) fn movement_at(moves: &[Movement], place: usize) -> Movement
    ensures { result ≡ movement_at moves.now place }
{
    match moves.get(place) {
        Some(movement) => *movement,
        None => carried(0),
    }
}
