//! What is still to be read, as one flat list (The TeXbook, chapter 20; `tex.web`, part 22).
ghost use Rattle.std.specs.Prelude.{◌≡◌, ◌∷◌, false, nat_le, reverse, min, List, OnOk, OnErr, IfErr};
ghost use Rattle.tokens.specs.Ends.{Ends, Gives};
ghost use Rattle.pending.specs.Did.{Does};
ghost use Rattle.pending.specs.Levels.{joined, all_sources, behind_front, IsAtSource, state_of, StandBehind};
ghost use Rattle.pending.specs.Pending.{From, first_pending, with_list, with_macro, with_back, opening, opened_file, opened_pseudo, begun_behind_name, ended, line_number, open_files, TestsInputs, Pays};
ghost use Rattle.pending.specs.Take.{reading, next_event};
ghost use Rattle.pending.specs.declared.level.Level.{Level};
ghost use Rattle.pending.specs.declared.source.Source.{Source};

use crate::level::{Level, State, empty_level, list_level, pass, push_level, state_of};
use crate::settle::{Front, settle};
use crate::source::{Origin, Sight, Source};
use crate::sources::{end_source, open_files, open_inputs, pop_source, push_source};
use crate::waiting::Waiting;
use catcode_eye::Eye;
use std::alloc::{AllocError, Global};
use std::marker::Model;
use tokens::{Budget, Cap, CatTable, NameTable, Stop, Token, TokenList};

/// What comes next of all that is still to be read.
#[derive(Clone, Copy, Debug)]
pub enum Event {
    Token {
        token: Token,
        /// That the token isn't to be expanded.
        noexpand: bool,
    },
    /// The last line of a file or pseudo-file is used up, and it is still open. It comes once for each.
    Eof,
    /// A source is gone.
    SourceEnd {
        /// Whether it was a file, whose end is shown.
        printed: bool,
    },
    /// Nothing is left.
    Empty,
}

/// All that is still to be read. Contracts see it as a list, what comes first in front.
#[derive(Drop)]
pub struct Pending {
    alloc: Global,
    /// A token that was put back in front of all.
    front: Option<Waiting>,
    /// The innermost level, and those around it, the innermost last.
    top: Level,
    below: Vec<Level>,
    /// The innermost source, and those around it, the innermost last.
    source: Option<Source>,
    outer: Vec<Source>,
    /// The bytes of the name that was read last.
    word: Vec<u8>,
}

impl Model for Pending {
    ghost use Rattle.std.specs.Prelude.{List};
    ghost use Rattle.pending.specs.Pending.{Item};
    ghost use Rattle.pending.specs.Levels.{flat};

    ghost Value = { List Item };

    ghost view = { λ p. flat p.front p.top p.below.items p.source p.outer.items };
}

impl Pending {
    /// The first line of a run, of which nothing is taken yet.
    pub fn new(alloc: Global, line: Vec<u8>) -> Pending
        ensures { result ≡ first_pending line.items }
    {
        Pending {
            alloc,
            front: None,
            top: empty_level(),
            below: Vec::new(alloc),
            source: Some(new_source(Eye::new(alloc, line, -1, true), Origin::FirstLine)),
            outer: Vec::new(alloc),
            word: Vec::new(alloc),
        }
    }

    /// Takes what comes next, with a step for each line and for each token that isn't paid. `end_line` is
    /// the `\endlinechar` of the lines that are taken.
    pub fn next(
        &mut self,
        categories: &CatTable,
        end_line: i32,
        names: &mut NameTable,
        budget: &mut Budget,
    ) -> Result<Event, Stop>
        ensures does { Does result (reading self.new names.new budget.new)
            (next_event categories.now end_line (reading self.old names.old budget.old)) }
    {
        if let Some(waiting) = self.front {
            if !pay(waiting, budget) {
                return Err(Stop::Spent);
            }
            self.front = None;
            return Ok(event_of(waiting));
        }
        if let State::Ready(waiting) = state_of(&self.top) {
            if !pay(waiting, budget) {
                return Err(Stop::Spent);
            }
            pass(&mut self.top);
            return Ok(event_of(waiting));
        }
        next_settled(
            &mut self.top,
            &mut self.below,
            &mut self.source,
            &mut self.outer,
            categories,
            end_line,
            &mut self.word,
            names,
            budget,
        )
    }

    /// Puts new tokens in front.
    pub fn push_list(&mut self, list: TokenList) -> Result<(), AllocError>
        ensures ok { OnOk result (self.new ≡ with_list list self.old) }
        ensures err { OnErr result (self.new ≡ self.old) }
    {
        push_in_front(
            &mut self.front,
            &mut self.top,
            &mut self.below,
            list_level(list),
        )
    }

    /// Puts a macro's text in front: its body, in which the arguments take the places of their numbers,
    /// 1 to 9. Where a number has no argument, nothing stands.
    pub fn push_macro(&mut self, body: TokenList, args: Vec<TokenList>) -> Result<(), AllocError>
        ensures ok { OnOk result (self.new ≡ with_macro body args.items self.old) }
        ensures err { OnErr result (self.new ≡ self.old) }
    {
        let level = Level::Body {
            body,
            arguments: args,
            at: 0,
        };
        push_in_front(&mut self.front, &mut self.top, &mut self.below, level)
    }

    /// Puts a token back in front. Where its step is paid, it is taken again without one.
    pub fn back(&mut self, token: Token, noexpand: bool, paid: bool) -> Result<(), AllocError>
        ensures ok { OnOk result (self.new ≡ with_back token noexpand paid self.old) }
        ensures err { OnErr result (self.new ≡ self.old) }
    {
        free_front(&mut self.front, &mut self.top, &mut self.below)?;
        self.front = Some(Waiting {
            token,
            noexpand,
            paid,
        });
        Ok(())
    }

    /// Opens a file and takes its first line, with a step. A file of no bytes has one empty line. Fifteen
    /// files and pseudo-files may be open.
    pub fn push_file(
        &mut self,
        bytes: Vec<u8>,
        end_line: i32,
        budget: &mut Budget,
    ) -> Result<(), Stop>
        ensures gives { OnOk result (Gives (opened_file bytes.items end_line (opening self.old budget.old)) (opening self.new budget.new)) }
        ensures ends { IfErr result (λ stop. Ends (opened_file bytes.items end_line (opening self.old budget.old)) stop) }
        ensures kept { OnErr result (self.new ≡ self.old) }
        ensures unspent { OnErr result (budget.new ≡ budget.old) }
    {
        self.test_inputs()?;
        if budget.spent() {
            return Err(Stop::Spent);
        }
        let mut source = new_source(Eye::new(self.alloc, bytes, 10, true), Origin::File);
        source.eye.next_line(end_line)?;
        source.line = 1;
        self.open(source)?;
        let _ = budget.spend();
        Ok(())
    }

    /// Opens a pseudo-file, of which no line is taken yet. Its lines end at each byte `newline`, and nowhere
    /// where that lies outside 0 to 255. One of no bytes has no line.
    pub fn push_pseudo(&mut self, bytes: Vec<u8>, newline: i32) -> Result<(), Stop>
        ensures gives { OnOk result (Gives (opened_pseudo bytes.items newline self.old) self.new) }
        ensures ends { IfErr result (λ stop. Ends (opened_pseudo bytes.items newline self.old) stop) }
        ensures kept { OnErr result (self.new ≡ self.old) }
    {
        self.test_inputs()?;
        let source = new_source(Eye::new(self.alloc, bytes, newline, false), Origin::Pseudo);
        self.open(source)?;
        Ok(())
    }

    /// The innermost source takes no further line.
    pub fn end_input(&mut self)
        ensures { self.new ≡ ended self.old }
    {
        end_source(&mut self.source);
    }

    /// The number of the line that is read in the innermost source: 0 on the first line of a run.
    pub fn line(&self) -> u32
        ensures { result ≡ line_number self.now }
    {
        match &self.source {
            None => 0,
            Some(source) => source.shown_line(),
        }
    }

    /// How many files are open, pseudo-files not counted, up to the last number of the type.
    pub fn files(&self) -> u32
        ensures { result ≡ min (open_files self.now) 4294967295 }
    {
        within_u32(open_files(&self.source, &self.outer))
    }

    /// Takes the next line of the innermost source, where it has one, and skips blanks in it as behind a
    /// name. So the first line of a run is begun where the name of a file stands in it.
    pub fn begin_behind_name(&mut self, end_line: i32, budget: &mut Budget) -> Result<(), Stop>
        ensures gives { OnOk result (Gives (begun_behind_name end_line (opening self.old budget.old)) (opening self.new budget.new)) }
        ensures ends { IfErr result (λ stop. Ends (begun_behind_name end_line (opening self.old budget.old)) stop) }
        ensures kept { OnErr result (self.new ≡ self.old) }
        ensures unspent { OnErr result (budget.new ≡ budget.old) }
    {
        let source = match &mut self.source {
            None => return Ok(()),
            Some(source) => source,
        };
        source.begin_behind_name(end_line, budget)
    }

    /// Whether one more file or pseudo-file may be opened.
    fn test_inputs(&self) -> Result<(), Stop>
        ensures { TestsInputs result self.now }
    {
        if are_full(open_inputs(&self.source, &self.outer)) {
            return Err(Stop::Capacity(Cap::Inputs));
        }
        Ok(())
    }

    fn open(&mut self, source: Source) -> Result<(), AllocError>
        ensures ok { OnOk result (self.new ≡ From source ∷ self.old) }
        ensures err { OnErr result (self.new ≡ self.old) }
    {
        free_front(&mut self.front, &mut self.top, &mut self.below)?;
        open_in(
            &mut self.top,
            &mut self.below,
            &mut self.source,
            &mut self.outer,
            source,
        )
    }
}

/// Whether so many open inputs allow no further one.
fn are_full(inputs: usize) -> bool
    ensures { result ≡ nat_le 15 inputs }
{
    inputs >= 15
}

/// The number, up to the last one of the type.
fn within_u32(count: usize) -> u32
    ensures { result ≡ min count 4294967295 }
{
    u32::try_from(count).unwrap_or(u32::MAX)
}

fn new_source(eye: Eye, origin: Origin) -> Source
    ensures { result ≡ record { eye = eye; origin = origin; line = 0; is_ending = false } }
{
    Source {
        eye,
        origin,
        line: 0,
        is_ending: false,
    }
}

/// Spends the step of a token that isn't paid, where one is left.
fn pay(waiting: Waiting, budget: &mut Budget) -> bool
    ensures { Pays waiting.paid result budget.old budget.new }
{
    waiting.paid || budget.spend()
}

fn event_of(waiting: Waiting) -> Event
    ensures { result ≡ Event.Token waiting.token waiting.noexpand }
{
    Event::Token {
        token: waiting.token,
        noexpand: waiting.noexpand,
    }
}

/// Takes what comes next where no token stands ready in the innermost level.
// The fields stand apart, since the definition speaks of the list that they stand for together.
fn next_settled(
    top: &mut Level,
    below: &mut Vec<Level>,
    source: &mut Option<Source>,
    outer: &mut Vec<Source>,
    categories: &CatTable,
    end_line: i32,
    word: &mut Vec<u8>,
    names: &mut NameTable,
    budget: &mut Budget,
) -> Result<Event, Stop>
    ensures does { Does result (reading (joined (top.new ∷ reverse below.new.items) (all_sources source.new outer.new.items)) names.new budget.new)
        (next_event categories.now end_line (reading (joined (top.old ∷ reverse below.old.items) (all_sources source.old outer.old.items)) names.old budget.old)) }
{
    match settle(top, below) {
        Err(_) => Err(Stop::OutOfMemory),
        Ok(Front::Ready(waiting)) => {
            if !pay(waiting, budget) {
                return Err(Stop::Spent);
            }
            pass(top);
            Ok(event_of(waiting))
        }
        Ok(Front::Source) => next_of_source(
            top, source, outer, categories, end_line, word, names, budget,
        ),
    }
}

/// Takes what comes next of the innermost source, which stands in front of the levels.
fn next_of_source(
    top: &mut Level,
    source: &mut Option<Source>,
    outer: &mut Vec<Source>,
    categories: &CatTable,
    end_line: i32,
    word: &mut Vec<u8>,
    names: &mut NameTable,
    budget: &mut Budget,
) -> Result<Event, Stop>
    ensures does { (below : List Level) → IsAtSource (state_of top.old) below
        → Does result (reading (joined (top.new ∷ below) (all_sources source.new outer.new.items)) names.new budget.new)
        (next_event categories.now end_line (reading (joined (top.old ∷ below) (all_sources source.old outer.old.items)) names.old budget.old)) }
{
    let Some(innermost) = source else {
        return Ok(Event::Empty);
    };
    match innermost.next(categories, end_line, word, names, budget) {
        Err(stop) => Err(stop),
        Ok(Sight::Token(token)) => Ok(Event::Token {
            token,
            noexpand: false,
        }),
        Ok(Sight::Eof) => Ok(Event::Eof),
        Ok(Sight::End) => {
            let printed = innermost.origin.is_file();
            *top = empty_level();
            pop_source(source, outer);
            Ok(Event::SourceEnd { printed })
        }
    }
}

/// Makes the place in front of all free: a token there becomes a level.
fn free_front(
    front: &mut Option<Waiting>,
    top: &mut Level,
    below: &mut Vec<Level>,
) -> Result<(), AllocError>
    ensures free { OnOk result (front.new ≡ None) }
    ensures ok { OnOk result (StandBehind front.old (top.old ∷ reverse below.old.items) (top.new ∷ reverse below.new.items)) }
    ensures stays { OnOk result (front.old ≡ None → top.new ≡ top.old) }
    ensures replaces { OnOk result (state_of top.old ≡ State.Used → below.new.items ≡ below.old.items) }
    ensures err { OnErr result (front.new ≡ front.old) }
    ensures kept { OnErr result (top.new ≡ top.old) }
    ensures below_kept { OnErr result (below.new.items ≡ below.old.items) }
{
    if let Some(waiting) = *front {
        push_level(top, below, Level::Back(waiting))?;
        *front = None;
    }
    Ok(())
}

/// Puts a level in front of all. Where a level that is used up stands there, it gives its place to it.
fn push_in_front(
    front: &mut Option<Waiting>,
    top: &mut Level,
    below: &mut Vec<Level>,
    level: Level,
) -> Result<(), AllocError>
    ensures free { OnOk result (front.new ≡ None) }
    ensures ok { OnOk result (top.new ≡ level) }
    ensures below { OnOk result (StandBehind front.old (top.old ∷ reverse below.old.items) (reverse below.new.items)) }
    ensures replaces { OnOk result (front.old ≡ None → state_of top.old ≡ State.Used → below.new.items ≡ below.old.items) }
    ensures err { OnErr result ((sources : List Source) → behind_front front.new (joined (top.new ∷ reverse below.new.items) sources)
        ≡ behind_front front.old (joined (top.old ∷ reverse below.old.items) sources)) }
{
    free_front(front, top, below)?;
    push_level(top, below, level)
}

/// Opens a source in front of all levels.
fn open_in(
    top: &mut Level,
    below: &mut Vec<Level>,
    innermost: &mut Option<Source>,
    outer: &mut Vec<Source>,
    source: Source,
) -> Result<(), AllocError>
    ensures ok { OnOk result (joined (top.new ∷ reverse below.new.items) (all_sources innermost.new outer.new.items)
        ≡ From source ∷ joined (top.old ∷ reverse below.old.items) (all_sources innermost.old outer.old.items)) }
    ensures err { OnErr result (joined (top.new ∷ reverse below.new.items) (all_sources innermost.new outer.new.items)
        ≡ joined (top.old ∷ reverse below.old.items) (all_sources innermost.old outer.old.items)) }
{
    push_level(top, below, empty_level())?;
    push_source(innermost, outer, source)?;
    *top = Level::Source;
    Ok(())
}
