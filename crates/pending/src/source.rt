//! A source of lines, and what comes next of it (The TeXbook, chapter 8; `tex.web` 343 to 362).
ghost use Rattle.std.specs.Prelude.{◌≡◌, ℕ, List, false, OnOk, OnErr, IfErr};
ghost use Rattle.tokens.specs.Ends.{Ends, Gives};
ghost use Rattle.tokens.specs.Budget.{Allowance, is_spent};
ghost use Rattle.pending.specs.Did.{Does};
ghost use Rattle.pending.specs.Origin.{is_input, is_file, shown_line};
ghost use Rattle.pending.specs.Pending.{begun_source};
ghost use Rattle.catcode_eye.specs.Outlook.{Outlook};
ghost use Rattle.pending.specs.Take.{source_with, is_unpaid, looking, next_sight, used_up, glanced};
ghost use Rattle.pending.specs.declared.source.Source.{Source};

use catcode_eye::{Eye, Glance};
use tokens::{Budget, CatTable, Kind, NameTable, Stop, Token};

/// Where a source comes from.
#[derive(Clone, Copy, Debug, PartialEq, Eq)]
pub enum Origin {
    /// The first line of a run.
    FirstLine,
    /// A file that `\input` opened.
    File,
    /// The lines that `\scantokens` made of a text.
    Pseudo,
}

impl Origin {
    pub fn is_input(self) -> bool
        ensures { result ≡ is_input self }
    {
        match self {
            Origin::FirstLine => false,
            Origin::File => true,
            Origin::Pseudo => true,
        }
    }

    pub fn is_file(self) -> bool
        ensures { result ≡ is_file self }
    {
        match self {
            Origin::FirstLine => false,
            Origin::File => true,
            Origin::Pseudo => false,
        }
    }
}

/// A source of lines.
#[derive(Drop)]
pub struct Source {
    pub eye: Eye,
    pub origin: Origin,
    /// The number of the line that was taken last, or 0.
    pub line: u32,
    /// That its end was told, or that `\endinput` came.
    pub is_ending: bool,
}

/// What comes next of a source.
#[derive(Clone, Copy, Debug)]
pub enum Sight {
    Token(Token),
    /// The last line is used up.
    Eof,
    /// It has come to its end.
    End,
}

impl Source {
    /// The number of the line that `\inputlineno` shows.
    pub fn shown_line(&self) -> u32
        ensures { result ≡ shown_line self.now.origin self.now.line }
    {
        match self.origin {
            Origin::FirstLine => 0,
            Origin::File => self.line,
            Origin::Pseudo => self.line,
        }
    }

    /// Takes the next line, where one is left, and skips blanks in it as behind a name.
    pub fn begin_behind_name(&mut self, end_line: i32, budget: &mut Budget) -> Result<(), Stop>
        ensures gives { OnOk result (Gives (begun_source end_line self.old budget.old) (self.new, budget.new)) }
        ensures ends { IfErr result (λ stop. Ends (begun_source end_line self.old budget.old) stop) }
        ensures kept { OnErr result (self.new ≡ self.old) }
        ensures unspent { OnErr result (budget.new ≡ budget.old) }
    {
        if !self.eye.has_line() {
            return Ok(());
        }
        if budget.spent() {
            return Err(Stop::Spent);
        }
        self.eye.next_line(end_line)?;
        self.eye.skip_blanks();
        self.line = self.line.saturating_add(1);
        let _ = budget.spend();
        Ok(())
    }

    /// What comes next, with a step for each line and for a token. The bytes of a name pass through `word`.
    pub fn next(
        &mut self,
        categories: &CatTable,
        end_line: i32,
        word: &mut Vec<u8>,
        names: &mut NameTable,
        budget: &mut Budget,
    ) -> Result<Sight, Stop>
        ensures does { Does result (looking self.new names.new budget.new)
            (next_sight categories.now end_line (looking self.old names.old budget.old)) }
    {
        next_of(
            &mut self.eye,
            self.origin,
            &mut self.line,
            &mut self.is_ending,
            categories,
            end_line,
            word,
            names,
            budget,
        )
    }
}

/// What comes next of a source with this eye.
fn next_of(
    eye: &mut Eye,
    origin: Origin,
    line: &mut u32,
    is_ending: &mut bool,
    categories: &CatTable,
    end_line: i32,
    word: &mut Vec<u8>,
    names: &mut NameTable,
    budget: &mut Budget,
) -> Result<Sight, Stop>
    ensures does { Does result (looking (source_with eye.new origin line.new is_ending.new) names.new budget.new)
        (next_sight categories.now end_line (looking (source_with eye.old origin line.old is_ending.old) names.old budget.old)) }
{
    'lines: loop {
        if is_unpaid(eye, categories, budget) {
            return Err(Stop::Spent);
        }
        let glance = eye.glance(categories, word);
        if let Glance::OutOfMemory = glance {
            return Err(Stop::OutOfMemory);
        }
        if let Glance::LineEnd = glance {
            if *is_ending {
                return Ok(Sight::End);
            }
            if !eye.has_line() {
                return Ok(used_up(origin, line, is_ending));
            }
            if budget.spent() {
                return Err(Stop::Spent);
            }
            match eye.next_line(end_line) {
                Err(stop) => return Err(stop),
                Ok(_) => {
                    *line = line.saturating_add(1);
                    let _ = budget.spend();
                }
            }
        } else {
            return token_of(glance, word, names, budget);
        }
    }
}

/// Whether no step is left for what is seen next, which isn't the line's end.
fn is_unpaid(eye: &Eye, categories: &CatTable, budget: &Budget) -> bool
    ensures { result ≡ is_unpaid categories.now eye.now budget.now }
{
    budget.spent() && !eye.is_line_finished(categories)
}

/// The last line is used up: that is told of a file or pseudo-file.
fn used_up(origin: Origin, line: &mut u32, is_ending: &mut bool) -> Sight
    ensures { (eye : Outlook) (names : List (List ℕ)) (budget : Allowance)
        → used_up origin (looking (source_with eye origin line.old is_ending.old) names budget)
        ≡ Ok (result, looking (source_with eye origin line.new is_ending.new) names budget) }
{
    if let Origin::FirstLine = origin {
        return Sight::End;
    }
    *is_ending = true;
    *line = line.saturating_add(1);
    Sight::Eof
}

/// The token that stands for what was glanced at, for a step that is left.
fn token_of(
    glance: Glance,
    word: &[u8],
    names: &mut NameTable,
    budget: &mut Budget,
) -> Result<Sight, Stop>
    ensures does { (source : Source) → is_spent budget.old ≡ false
        → Does result (looking source names.new budget.new)
        (glanced glance word.now (looking source names.old budget.old)) }
{
    match glance {
        Glance::LineEnd => return Ok(Sight::End),
        Glance::Invalid => return Err(Stop::Trouble(Kind::InvalidChar)),
        Glance::OutOfMemory => return Err(Stop::OutOfMemory),
        _ => {}
    }
    if !budget.spend() {
        return Err(Stop::Spent);
    }
    match glance {
        Glance::Char { cat, byte } => Ok(Sight::Token(Token::Char { cat, byte })),
        Glance::Active(byte) => Ok(Sight::Token(Token::Active(byte))),
        Glance::Word => Ok(Sight::Token(Token::Name(names.intern(word)?))),
        Glance::Par => Ok(Sight::Token(Token::Name(names.intern(b"par")?))),
        _ => Ok(Sight::End),
    }
}
