//! What is still to be read, as one list: tokens that were put back, and sources of lines
//! (The TeXbook, chapter 20; `tex.web`, part 22).
ghost use Rattle.std.specs.Prelude.{◌≡◌, ◌≤◌, ◌+◌, ◌∷◌, [], reverse, OnOk, OnErr, IfOk, drop};
ghost use Rattle.asking.specs.Did.{Does, DoesBy, Ended};
ghost use Rattle.stomach.specs.Pending.{
  Reading,
  reading,
  next_event,
  source_over,
  begun_behind_word,
  files_closed,
  is_open_file,
  open_files,
  reading_work,
  worth,
};
ghost use Rattle.stomach.specs.declared.pending.Item.TheVariants.{Back, Inserted, From};

use crate::report;
use crate::source::{Source, line_behind_word, token_from};
use std::alloc::{AllocError, Global};
use std::marker::Model;
use tokens::{Budget, CatTable, Kind, NameTable, Stop, Token};
use world::Printer;

/// One place of what is still to be read.
#[derive(Drop)]
pub enum Item {
    /// A token that was taken and put back. Its step is paid.
    Back(Token),
    /// A token that TeX itself put in front. It takes a step.
    Inserted(Token),
    From(Source),
}

/// What comes next of all that is still to be read.
#[derive(Clone, Copy, Debug)]
pub enum Event {
    Token(Token),
    /// The innermost file has no line left, and is gone.
    FileEnd,
}

/// All that is still to be read. Contracts see it as a list, what comes first in front.
#[derive(Drop)]
pub struct Pending {
    // What comes first stands last.
    items: Vec<Item>,
    // The bytes of the name that was read last.
    word: Vec<u8>,
}

impl Model for Pending {
    ghost use Rattle.std.specs.Prelude.{List, reverse};
    ghost use Rattle.stomach.specs.declared.pending.Item.{Item};

    ghost Value = { List Item };

    ghost view = { λ p. reverse p.items.items };
}

impl Pending {
    /// Nothing.
    pub fn new(alloc: Global) -> Pending
        ensures value { result ≡ [] }
    {
        Pending {
            items: Vec::new(alloc),
            word: Vec::new(alloc),
        }
    }

    /// Puts a token in front of all, to be taken again without a step.
    pub fn put_back(&mut self, token: Token) -> Result<(), AllocError>
        ensures ok { OnOk result (self.new ≡ Back token ∷ self.old) }
        ensures err { OnErr result (self.new ≡ self.old) }
    {
        put_first(&mut self.items, Item::Back(token))
    }

    /// Puts a token in front of all that takes a step.
    pub fn insert(&mut self, token: Token) -> Result<(), AllocError>
        ensures ok { OnOk result (self.new ≡ Inserted token ∷ self.old) }
        ensures err { OnErr result (self.new ≡ self.old) }
    {
        put_first(&mut self.items, Item::Inserted(token))
    }

    /// Puts a source in front of all.
    pub fn read_from(&mut self, source: Source) -> Result<(), AllocError>
        ensures ok { OnOk result (self.new ≡ From source ∷ self.old) }
        ensures err { OnErr result (self.new ≡ self.old) }
    {
        put_first(&mut self.items, Item::From(source))
    }

    /// Takes what comes next, with a step for each line and for a token that isn't paid. Where nothing is left,
    /// or the first line ends, the run ends.
    pub fn next(
        &mut self,
        categories: &CatTable,
        end_line: i32,
        names: &mut NameTable,
        budget: &mut Budget,
    ) -> Result<Event, Stop>
        ensures does { Does result (reading self.new names.new budget.new)
            (next_event categories.now end_line (reading self.old names.old budget.old)) }
        ensures less { IfOk result (λ event. reading_work (reading self.new names.new budget.new) + worth event
            ≤ reading_work (reading self.old names.old budget.old)) }
    {
        next_of(
            &mut self.items,
            categories,
            end_line,
            &mut self.word,
            names,
            budget,
        )
    }

    /// Takes the next line of the innermost source, as if a word stood in front of it.
    pub fn begin_behind_word(
        &mut self,
        end_line: i32,
        names: &mut NameTable,
        budget: &mut Budget,
    ) -> Result<(), Stop>
        ensures does { Does result (reading self.new names.new budget.new)
            (begun_behind_word end_line (reading self.old names.old budget.old)) }
        ensures less { OnOk result (reading_work (reading self.new names.new budget.new)
            ≤ reading_work (reading self.old names.old budget.old)) }
    {
        begin_of(&mut self.items, end_line, names, budget)
    }

    /// How many files are open.
    pub fn open_files(&self) -> usize
        ensures value { result ≡ open_files self.now }
    {
        count_files(&self.items)
    }

    /// Shows the end of each file that is still open, the innermost first.
    pub fn close_files(&self, printer: &mut Printer) -> Result<(), AllocError>
        ensures ok { OnOk result (printer.new ≡ files_closed self.now printer.old) }
    {
        close_all(&self.items, printer)
    }
}

fn put_first(items: &mut Vec<Item>, item: Item) -> Result<(), AllocError>
    ensures ok { OnOk result (reverse items.new.items ≡ item ∷ reverse items.old.items) }
    ensures err { OnErr result (items.new.items ≡ items.old.items) }
{
    items.push(item)?;
    Ok(())
}

fn count_files(items: &[Item]) -> usize
    ensures { result ≡ open_files (reverse items.now) }
{
    items.iter().filter(|item| is_open_file(item)).count()
}

/// Whether lines of an opened file are still to be read.
fn is_open_file(item: &Item) -> bool
    ensures { result ≡ is_open_file item.now }
{
    match item {
        Item::Back(_) => false,
        Item::Inserted(_) => false,
        Item::From(source) => source.is_file,
    }
}

fn next_of(
    items: &mut Vec<Item>,
    categories: &CatTable,
    end_line: i32,
    word: &mut Vec<u8>,
    names: &mut NameTable,
    budget: &mut Budget,
) -> Result<Event, Stop>
    ensures does { Does result (reading (reverse items.new.items) names.new budget.new)
        (next_event categories.now end_line (reading (reverse items.old.items) names.old budget.old)) }
    ensures less { IfOk result (λ event. reading_work (reading (reverse items.new.items) names.new budget.new) + worth event
        ≤ reading_work (reading (reverse items.old.items) names.old budget.old)) }
{
    let Some(last) = items.len().checked_sub(1) else {
        return Err(Stop::Trouble(Kind::NoEnd));
    };
    match &mut items[last] {
        Item::Back(token) => {
            let token = *token;
            drop_first(items);
            Ok(Event::Token(token))
        }
        Item::Inserted(token) => {
            let token = *token;
            if !budget.spend() {
                return Err(Stop::Spent);
            }
            drop_first(items);
            Ok(Event::Token(token))
        }
        Item::From(source) => {
            let is_file = source.is_file;
            match token_from(&mut source.eye, categories, end_line, word, names, budget) {
                Ok(Some(token)) => Ok(Event::Token(token)),
                Ok(None) => {
                    drop_first(items);
                    source_over(is_file)
                }
                Err(stop) => Err(stop),
            }
        }
    }
}

/// The lines of a source are used up.
fn source_over(is_file: bool) -> Result<Event, Stop>
    ensures does { (r : Reading) → Does result r (source_over is_file r) }
    ensures least { IfOk result (λ event. worth event ≡ 1) }
{
    if is_file {
        Ok(Event::FileEnd)
    } else {
        Err(Stop::Trouble(Kind::NoEnd))
    }
}

fn drop_first(items: &mut Vec<Item>)
    ensures { reverse items.new.items ≡ drop 1 (reverse items.old.items) }
{
    let _ = items.pop();
}

fn begin_of(
    items: &mut Vec<Item>,
    end_line: i32,
    names: &mut NameTable,
    budget: &mut Budget,
) -> Result<(), Stop>
    ensures does { Does result (reading (reverse items.new.items) names.new budget.new)
        (begun_behind_word end_line (reading (reverse items.old.items) names.old budget.old)) }
    ensures less { OnOk result (reading_work (reading (reverse items.new.items) names.new budget.new)
        ≤ reading_work (reading (reverse items.old.items) names.old budget.old)) }
{
    let Some(last) = items.len().checked_sub(1) else {
        return Ok(());
    };
    match &mut items[last] {
        Item::Back(_) => Ok(()),
        Item::Inserted(_) => Ok(()),
        Item::From(source) => line_behind_word(&mut source.eye, end_line, names, budget),
    }
}

/// Shows the ends of files, the last of the list first.
fn close_all(items: &[Item], printer: &mut Printer) -> Result<(), AllocError>
    ensures ok { OnOk result (printer.new ≡ files_closed (reverse items.now) printer.old) }
{
    let mut left = items.len();
    'files: while left > 0 {
        left -= 1;
        match close(&items[left], printer) {
            Ok(()) => {}
            Err(e) => return Err(e),
        }
    }
    Ok(())
}

/// Shows the end of a file.
fn close(item: &Item, printer: &mut Printer) -> Result<(), AllocError>
    ensures ok { OnOk result (printer.new ≡ files_closed (item.now ∷ []) printer.old) }
{
    match item {
        Item::Back(_) => Ok(()),
        Item::Inserted(_) => Ok(()),
        Item::From(source) => {
            if source.is_file {
                report::show(printer, b" )")
            } else {
                Ok(())
            }
        }
    }
}
