//! The automaton of expressions.
ghost use Rattle.std.specs.Prelude.{◌≡◌, List, [], ◌∷◌, ◌++◌, reverse, MatchOption, IfOk, OnOk, IsOk, OnErr};
ghost use Rattle.etex_exprs.specs.Levels.{State};
ghost use Rattle.etex_exprs.specs.Steps.{Did, step_of, step_before, step_behind, step_bound, step_end, step_close, step_operator, step_answer};
ghost use Rattle.scan_nums.specs.Taken.{Taken, Seen, Told};
ghost use Rattle.etex_exprs.specs.TermTreeParts.{phrase_of};
ghost use Rattle.etex_exprs.specs.TermTreeReading.{ended};
ghost use Rattle.etex_exprs.specs.declared.sort.Sort.{Sort};
ghost use Rattle.etex_exprs.specs.TermTreeMarks.{mark_of};
ghost use Rattle.etex_exprs.specs.Standing.{Stands, Says, WantsToken, WantsAnswer, IsAnswer, IsReady, IsSorted};

use crate::level::{Level, start_level};
use crate::mark::{Mark, Operator, mark_of};
use crate::parts::is_mixed;
use crate::place::Place;
use crate::sort::{Sort, parts_of};
use scaled::Glue;
use scan_nums::{Number, Phrase, Verdict};
use smallvec::SmallVec;
use std::alloc::{AllocError, Global};
use std::marker::Model;
use tokens::{Kind, Meaning, Token};

/// How many open parentheses take no memory.
const ROOM: usize = 4;

fn push_level(outer: &mut SmallVec<Level, ROOM>, level: Level) -> Result<(), AllocError>
    ensures ok { OnOk result (reverse outer.new.items ≡ level ∷ reverse outer.old.items) }
    ensures err { OnErr result (outer.new ≡ outer.old) }
{
    outer.push(level)?;
    Ok(())
}

fn pop_level(outer: &mut SmallVec<Level, ROOM>) -> Option<Level>
    ensures { MatchOption result (reverse outer.old.items ≡ []) (λ level. reverse outer.old.items ≡ level ∷ reverse outer.new.items) }
{
    outer.pop()
}

// The sort that a phrase names.
fn sort_of(kind: Phrase) -> Sort
    requires { IsSorted kind }
    ensures { phrase_of result ≡ kind }
{
    match kind {
        Phrase::Int => Sort::Whole,
        Phrase::Dimen => Sort::Length,
        Phrase::Glue => Sort::Spread,
        Phrase::MuGlue => Sort::MuSpread,
        Phrase::Mu | Phrase::Expr(_) => unreachable!(),
    }
}

// What an expression comes to at the token that ends it.
fn ended(mark: Mark, number: Number) -> Verdict
    ensures { result ≡ ended mark number }
{
    match mark {
        Mark::Relax => Verdict::Done(number),
        Mark::Blank | Mark::Open | Mark::Close | Mark::Operator(_) | Mark::Other => {
            Verdict::DoneBefore { number, back: 1 }
        }
    }
}

/// An expression that is read token by token.
#[derive(Drop)]
pub struct ExprScan {
    level: Level,
    outer: SmallVec<Level, ROOM>,
    place: Place,
}

impl Model for ExprScan {
    ghost Value = { State };

    ghost view = { λ s. record { level = s.level; outer = reverse s.outer.items; place = s.place } };
}

impl ExprScan {
    /// An expression of which nothing was taken.
    pub fn new(alloc: Global, kind: Phrase) -> ExprScan
        requires { IsSorted kind }
        ensures stands { (sort : Sort) → phrase_of sort ≡ kind → Stands result sort [] }
        ensures ready { WantsToken result }
    {
        ExprScan {
            level: start_level(sort_of(kind)),
            outer: SmallVec::new(alloc),
            place: Place::Operand,
        }
    }

    // The expression is read no further.
    fn stop(&mut self, verdict: Verdict) -> Verdict
        ensures value { result ≡ verdict }
        ensures place { self.new.place ≡ Place.Ended }
    {
        self.place = Place::Ended;
        verdict
    }

    fn begin_operand(&mut self) -> Verdict
        ensures { Did (step_before self.old.level self.old.outer Mark.Other) result self.new }
    {
        self.place = Place::Begun;
        Verdict::Sub(self.level.factor_sort().phrase())
    }

    fn open(&mut self) -> Result<Verdict, AllocError>
        ensures ok { IfOk result (λ verdict. Did (step_before self.old.level self.old.outer Mark.Open) verdict self.new) }
        ensures err { OnErr result (self.new ≡ self.old) }
    {
        push_level(&mut self.outer, self.level)?;
        self.level = start_level(self.level.factor_sort());
        self.place = Place::Operand;
        Ok(Verdict::Need)
    }

    fn take_operator(&mut self, factor: Glue, operator: Operator) -> Verdict
        ensures { Did (step_operator self.old.level factor self.old.outer operator) result self.new }
    {
        match self.level.with_operator(factor, operator) {
            Some(level) => {
                self.level = level;
                self.place = Place::Operand;
                Verdict::Need
            }
            None => self.stop(Verdict::Trouble(Kind::ArithOverflow)),
        }
    }

    fn end(&mut self, factor: Glue, mark: Mark) -> Verdict
        ensures { Did (step_end self.old.level factor mark) result self.new }
    {
        match self.level.whole_of(factor) {
            Some(value) => self.stop(ended(mark, self.level.sort.number(value))),
            None => self.stop(Verdict::Trouble(Kind::ArithOverflow)),
        }
    }

    fn close(&mut self, factor: Glue, outside: Level) -> Verdict
        ensures { Did (step_close self.old.level factor outside self.old.outer) result self.new }
    {
        match self.level.whole_of(factor) {
            Some(value) => {
                self.level = outside;
                self.place = Place::Behind(value);
                Verdict::Need
            }
            None => self.stop(Verdict::Trouble(Kind::ArithOverflow)),
        }
    }

    fn take_bound(&mut self, factor: Glue, mark: Mark) -> Verdict
        ensures { Did (step_bound self.old.level self.old.outer factor mark) result self.new }
    {
        match pop_level(&mut self.outer) {
            None => self.end(factor, mark),
            Some(outside) => match mark {
                Mark::Close => self.close(factor, outside),
                Mark::Blank | Mark::Open | Mark::Operator(_) | Mark::Relax | Mark::Other => {
                    self.stop(Verdict::Trouble(Kind::MissingParenthesis))
                }
            },
        }
    }

    fn take_behind(&mut self, factor: Glue, mark: Mark) -> Verdict
        requires { self.old.place ≡ Place.Behind factor }
        ensures { Did (step_behind self.old.level self.old.outer factor mark) result self.new }
    {
        match mark {
            Mark::Blank => Verdict::Need,
            Mark::Operator(operator) => self.take_operator(factor, operator),
            Mark::Open | Mark::Close | Mark::Relax | Mark::Other => self.take_bound(factor, mark),
        }
    }

    fn take_before(&mut self, mark: Mark) -> Result<Verdict, AllocError>
        requires { self.old.place ≡ Place.Operand }
        ensures ok { IfOk result (λ verdict. Did (step_before self.old.level self.old.outer mark) verdict self.new) }
        ensures err { OnErr result (self.new ≡ self.old) }
    {
        match mark {
            Mark::Blank => Ok(Verdict::Need),
            Mark::Open => self.open(),
            Mark::Close | Mark::Operator(_) | Mark::Relax | Mark::Other => Ok(self.begin_operand()),
        }
    }

    fn take_mark(&mut self, mark: Mark) -> Result<Verdict, AllocError>
        requires { WantsToken self.old }
        ensures ok { IfOk result (λ verdict. Did (step_of self.old mark) verdict self.new) }
        ensures err { OnErr result (self.new ≡ self.old) }
    {
        match self.place {
            Place::Operand => self.take_before(mark),
            Place::Behind(factor) => Ok(self.take_behind(factor, mark)),
            Place::Begun | Place::Ended => unreachable!(),
        }
    }

    /// Takes the next token, with the meaning that it has now. Where the verdict is `Sub`, the token begins
    /// the operand: the phrase of the operand reads it again.
    pub fn take(&mut self, token: Token, meaning: &Meaning) -> Result<Verdict, AllocError>
        requires { WantsToken self.old }
        ensures value { IfOk result (λ verdict. (sort : Sort) (taken : List Taken) →
            Stands self.old sort taken → Says verdict self.new sort (taken ++ Seen token meaning.now ∷ [])) }
        ensures ready { IfOk result (λ verdict. IsReady verdict self.new) }
        ensures refused { OnErr result (self.new ≡ self.old) }
    {
        self.take_mark(mark_of(token, meaning))
    }

    /// Takes the value of the operand that was asked for. No memory is taken.
    pub fn answer(&mut self, n: Number) -> Result<Verdict, AllocError>
        requires waits { WantsAnswer self.old }
        requires kind { IsAnswer self.old n }
        ensures value { IfOk result (λ verdict. (sort : Sort) (taken : List Taken) →
            Stands self.old sort taken → Says verdict self.new sort (taken ++ Told n ∷ [])) }
        ensures ready { IfOk result (λ verdict. IsReady verdict self.new) }
        ensures ok { IsOk result }
    {
        Ok(self.take_number(n))
    }

    fn take_number(&mut self, n: Number) -> Verdict
        ensures { Did (step_answer self.old n) result self.new }
    {
        if is_mixed(self.level.factor_sort().phrase(), n) {
            return self.stop(Verdict::Trouble(Kind::IncompatibleGlue));
        }
        self.place = Place::Behind(parts_of(n));
        Verdict::Need
    }
}
