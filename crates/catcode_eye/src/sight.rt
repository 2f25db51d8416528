//! What is seen next of a line, by the state of the eye (The TeXbook, chapter 8; `tex.web` 343 to 353).
ghost use Rattle.std.specs.Prelude.{◌≡◌, ◌<◌, ◌≤◌, [], false, length, drop, IfSome, IfNone};
ghost use Rattle.tokens.specs.Categories.{category};
ghost use Rattle.catcode_eye.specs.declared.seen.Seen.TheVariants.{LineEnd as SeenLineEnd};
ghost use Rattle.catcode_eye.specs.Role.{role_of, is_passed};
ghost use Rattle.catcode_eye.specs.Seen.{sight, sight_of, shows_nothing};
ghost use Rattle.catcode_eye.specs.Sighting.{rest_at, Means, Shows};

use crate::head::{Head, head_at};
use crate::name::{Place, name_at};
use crate::role::{Role, is_passed, role_of};
use crate::seen::{Glance, State};
use tokens::CatTable;

/// The character that blanks give in the middle of a line, and the line's end there.
const SPACE: Glance = Glance::Char { cat: 10, byte: 32 };

/// What is seen, where the rest of the line begins behind it, and the state there. Where the glance is
/// a refusal, these are as they were.
#[derive(Clone, Copy)]
pub struct Sighting {
    pub glance: Glance,
    pub place: Place,
    pub state: State,
}

/// The first head that isn't passed without giving anything.
fn first_head(line: &[u8], at: usize, state: State, cats: &CatTable) -> Option<Head>
    requires { at ≤ length line.now }
    ensures none { IfNone result (Means (sight cats.now state (drop at line.now)) SeenLineEnd [] state) }
    ensures some { IfSome result (λ head. sight cats.now state (drop at line.now)
        ≡ sight_of cats.now state (sight cats.now state) head.byte (drop head.next line.now)
        (role_of (category cats.now head.byte))) }
    ensures not_passed { IfSome result (λ head. is_passed (role_of (category cats.now head.byte)) state ≡ false) }
    ensures within { IfSome result (λ head. head.next ≤ length line.now) }
    ensures forward { IfSome result (λ head. at < head.next) }
{
    let mut next = at;
    while next < line.len() {
        let head = head_at(line, next, cats);
        let is_passed = is_passed(role_of(cats.get(head.byte)), state);
        if !is_passed {
            return Some(head);
        }
        next = head.next;
    }
    None
}

/// Whether nothing is left to be seen of the line.
pub fn shows_nothing(line: &[u8], at: usize, state: State, cats: &CatTable) -> bool
    requires { at ≤ length line.now }
    ensures { result ≡ shows_nothing (sight cats.now state (drop at line.now)) }
{
    let Some(head) = first_head(line, at, state, cats) else {
        return true;
    };
    match role_of(cats.get(head.byte)) {
        Role::Comment => true,
        Role::EndOfLine => match state {
            State::NewLine | State::MidLine => false,
            State::SkipBlanks => true,
        },
        Role::Ignored => unreachable!(),
        Role::Space => match state {
            State::MidLine => false,
            State::NewLine | State::SkipBlanks => unreachable!(),
        },
        Role::Escape | Role::Active | Role::Invalid | Role::Plain => false,
    }
}

/// What is seen next of the line from `at` on. The bytes of a name come into the empty `name`.
pub fn look(line: &[u8], at: usize, state: State, cats: &CatTable, name: &mut Vec<u8>) -> Sighting
    requires within { at ≤ length line.now }
    requires empty { name.old.items ≡ [] }
    ensures shows { Shows (sight cats.now state (drop at line.now)) (drop at line.now) state
        result.glance name.new.items (rest_at line.now result.place) result.state }
    ensures within { result.place.next ≤ length line.now }
    ensures forward { IfSome result.place.head (λ _. at < result.place.next) }
{
    let stay = Place {
        next: at,
        head: None,
    };
    let end = Place {
        next: line.len(),
        head: None,
    };
    let Some(head) = first_head(line, at, state, cats) else {
        return Sighting {
            glance: Glance::LineEnd,
            place: end,
            state,
        };
    };
    let behind = Place {
        next: head.next,
        head: None,
    };
    let cat = cats.get(head.byte);
    match role_of(cat) {
        Role::Escape => match name_at(line, head.next, cats, name) {
            Ok(end) => Sighting {
                glance: Glance::Word,
                place: end.place,
                state: end.state,
            },
            Err(_) => Sighting {
                glance: Glance::OutOfMemory,
                place: stay,
                state,
            },
        },
        Role::EndOfLine => match state {
            State::NewLine => Sighting {
                glance: Glance::Par,
                place: end,
                state,
            },
            State::MidLine => Sighting {
                glance: SPACE,
                place: end,
                state,
            },
            State::SkipBlanks => Sighting {
                glance: Glance::LineEnd,
                place: end,
                state,
            },
        },
        Role::Ignored => unreachable!(),
        Role::Space => match state {
            State::MidLine => Sighting {
                glance: SPACE,
                place: behind,
                state: State::SkipBlanks,
            },
            State::NewLine | State::SkipBlanks => unreachable!(),
        },
        Role::Active => Sighting {
            glance: Glance::Active(head.byte),
            place: behind,
            state: State::MidLine,
        },
        Role::Comment => Sighting {
            glance: Glance::LineEnd,
            place: end,
            state,
        },
        Role::Invalid => Sighting {
            glance: Glance::Invalid,
            place: stay,
            state,
        },
        Role::Plain => Sighting {
            glance: Glance::Char {
                cat,
                byte: head.byte,
            },
            place: behind,
            state: State::MidLine,
        },
    }
}
