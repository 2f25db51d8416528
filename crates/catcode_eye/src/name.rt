//! The name behind an escape character: a row of letters or one other byte (The TeXbook, chapter 8;
//! `tex.web` 354 to 356).
ghost use Rattle.std.specs.Prelude.{◌≡◌, ◌<◌, ◌≤◌, ◌++◌, [], length, drop, IfOk, IfSome};
ghost use Rattle.catcode_eye.specs.declared.seen.Seen.TheVariants.{Word};
ghost use Rattle.catcode_eye.specs.Superscripts.{reduced};
ghost use Rattle.catcode_eye.specs.Seen.{letters, named, state_behind};
ghost use Rattle.catcode_eye.specs.Sighting.{rest_at, Means};

use crate::head::head_at;
use crate::seen::State;
use std::alloc::AllocError;
use tokens::CatTable;

/// The category of a letter.
const LETTER: u8 = 11;

/// The category of a blank.
const SPACE: u8 = 10;

/// Where the rest of a line begins. A head that a doubled superscript stands for may come in front.
#[derive(Clone, Copy)]
pub struct Place {
    pub next: usize,
    pub head: Option<u8>,
}

/// Where the rest begins behind a name, and the state there.
#[derive(Clone, Copy)]
pub struct NameEnd {
    pub place: Place,
    pub state: State,
}

/// Adds the letters at `at` to a name.
fn letters_at(
    line: &[u8],
    at: usize,
    cats: &CatTable,
    name: &mut Vec<u8>,
) -> Result<Place, AllocError>
    requires { at ≤ length line.now }
    ensures bytes { IfOk result (λ _. name.new.items ≡ name.old.items ++ (letters cats.now (drop at line.now)).bytes) }
    ensures rest { IfOk result (λ place. rest_at line.now place ≡ (letters cats.now (drop at line.now)).rest) }
    ensures within { IfOk result (λ place. place.next ≤ length line.now) }
    ensures forward { IfOk result (λ place. IfSome place.head (λ _. at < place.next)) }
{
    let mut next = at;
    while next < line.len() {
        let head = head_at(line, next, cats);
        if cats.get(head.byte) != LETTER {
            return Ok(Place {
                next: head.next,
                head: Some(head.byte),
            });
        }
        name.push(head.byte)?;
        next = head.next;
    }
    Ok(Place { next, head: None })
}

fn state_behind(cat: u8) -> State
    ensures { result ≡ state_behind cat }
{
    if cat == SPACE {
        State::SkipBlanks
    } else {
        State::MidLine
    }
}

/// Puts the name at `at` into an empty `name`.
pub fn name_at(
    line: &[u8],
    at: usize,
    cats: &CatTable,
    name: &mut Vec<u8>,
) -> Result<NameEnd, AllocError>
    requires within { at ≤ length line.now }
    requires empty { name.old.items ≡ [] }
    ensures value { IfOk result (λ end. named cats.now (reduced cats.now (drop at line.now))
        ≡ record { seen = Word name.new.items; rest = rest_at line.now end.place; state = end.state }) }
    ensures within { IfOk result (λ end. end.place.next ≤ length line.now) }
    ensures forward { IfOk result (λ end. IfSome end.place.head (λ _. at < end.place.next)) }
{
    if at >= line.len() {
        return Ok(NameEnd {
            place: Place {
                next: at,
                head: None,
            },
            state: State::MidLine,
        });
    }
    let head = head_at(line, at, cats);
    name.push(head.byte)?;
    let cat = cats.get(head.byte);
    if cat == LETTER {
        return Ok(NameEnd {
            place: letters_at(line, head.next, cats, name)?,
            state: State::SkipBlanks,
        });
    }
    Ok(NameEnd {
        place: Place {
            next: head.next,
            head: None,
        },
        state: state_behind(cat),
    })
}
