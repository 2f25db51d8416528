//! A source of lines, and the tokens that come of it (The TeXbook, chapter 8).
ghost use Rattle.std.specs.Prelude.{◌≡◌, ◌≤◌, ◌+◌, IfOk, OnOk, if◌then◌else◌};
ghost use Rattle.catcode_eye.specs.Outlook.{Outlook};
ghost use Rattle.asking.specs.Did.{Does, DoesBy, Ended};
ghost use Rattle.stomach.specs.Take.{looking, glanced, named, line_taken, token_from, first_line, line_behind_word, EndsUnpaid, token_cost};

use catcode_eye::{Eye, Glance};
use tokens::{Budget, CatTable, Kind, NameTable, Stop, Token};

/// The first line of a run, or a file that was opened.
#[derive(Drop)]
pub struct Source {
    pub eye: Eye,
    /// Whether its end is shown, which that of the first line isn't.
    pub is_file: bool,
}

/// The next token, or none where no line is left. A step is taken for each line and for the token. The
/// bytes of a name pass through `word`.
pub fn token_from(
    eye: &mut Eye,
    categories: &CatTable,
    end_line: i32,
    word: &mut Vec<u8>,
    names: &mut NameTable,
    budget: &mut Budget,
) -> Result<Option<Token>, Stop>
    ensures does { Does result (looking eye.new names.new budget.new)
        (token_from categories.now end_line (looking eye.old names.old budget.old)) }
    ensures less { IfOk result (λ token. budget.new.left + token_cost token ≤ budget.old.left) }
{
    'lines: loop {
        let glance = eye.glance(categories, word);
        if let Glance::LineEnd = glance {
            match take_line(eye, end_line, names, budget) {
                Ok(true) => {}
                Ok(false) => return Ok(None),
                Err(stop) => return Err(stop),
            }
        } else {
            return token_of(glance, word, names, budget);
        }
    }
}

/// The token that stands for what was glanced at.
fn token_of(
    glance: Glance,
    word: &[u8],
    names: &mut NameTable,
    budget: &mut Budget,
) -> Result<Option<Token>, Stop>
    ensures does { (eye : Outlook) → Does result (looking eye names.new budget.new)
        (glanced glance word.now (looking eye names.old budget.old)) }
    ensures memory { glance ≡ Glance.OutOfMemory → result ≡ Err Stop.OutOfMemory }
    ensures less { IfOk result (λ token. budget.new.left + token_cost token ≤ budget.old.left) }
{
    match glance {
        Glance::LineEnd => return Ok(None),
        Glance::Invalid => return Err(unpaid(budget, Stop::Trouble(Kind::InvalidChar))),
        Glance::OutOfMemory => return Err(Stop::OutOfMemory),
        _ => {}
    }
    if !budget.spend() {
        return Err(Stop::Spent);
    }
    match glance {
        Glance::Char { cat, byte } => Ok(Some(Token::Char { cat, byte })),
        Glance::Active(byte) => Ok(Some(Token::Active(byte))),
        Glance::Word => Ok(Some(Token::Name(names.intern(word)?))),
        Glance::Par => Ok(Some(Token::Name(names.intern(b"par")?))),
        _ => Ok(None),
    }
}

/// Takes the next line, with a step for it. The answer is whether there was one.
#[tactic(auto, using(asking::specs::Asked::asking), unfolding(crate::specs::Take::line_taken))]
fn take_line(
    eye: &mut Eye,
    end_line: i32,
    names: &NameTable,
    budget: &mut Budget,
) -> Result<bool, Stop>
    ensures does { Does result (looking eye.new names.now budget.new)
        (line_taken end_line (looking eye.old names.now budget.old)) }
    ensures less { IfOk result (λ more. budget.new.left + (if more then 1 else 0) ≤ budget.old.left) }
{
    match eye.next_line(end_line) {
        Ok(true) => {
            if budget.spend() {
                Ok(true)
            } else {
                Err(Stop::Spent)
            }
        }
        Ok(false) => Ok(false),
        Err(stop) => Err(unpaid(budget, stop)),
    }
}

/// Takes the next line.
pub fn first_line(
    eye: &mut Eye,
    end_line: i32,
    names: &NameTable,
    budget: &mut Budget,
) -> Result<(), Stop>
    ensures does { Does result (looking eye.new names.now budget.new)
        (first_line end_line (looking eye.old names.now budget.old)) }
    ensures less { OnOk result (budget.new.left ≤ budget.old.left) }
{
    match take_line(eye, end_line, names, budget) {
        Ok(_) => Ok(()),
        Err(stop) => Err(stop),
    }
}

/// Takes the next line, and skips blanks in it as behind a word.
pub fn line_behind_word(
    eye: &mut Eye,
    end_line: i32,
    names: &NameTable,
    budget: &mut Budget,
) -> Result<(), Stop>
    ensures does { Does result (looking eye.new names.now budget.new)
        (line_behind_word end_line (looking eye.old names.now budget.old)) }
    ensures less { OnOk result (budget.new.left ≤ budget.old.left) }
{
    match take_line(eye, end_line, names, budget) {
        Ok(true) => {
            eye.skip_blanks();
            Ok(())
        }
        Ok(false) => Ok(()),
        Err(stop) => Err(stop),
    }
}

/// The end of a run in the place of something that would have taken a step: without one, the run ends for
/// want of it.
fn unpaid(budget: &Budget, stop: Stop) -> Stop
    ensures { EndsUnpaid budget.now stop result }
{
    match stop {
        Stop::OutOfMemory => Stop::OutOfMemory,
        stop => { if budget.spent() { Stop::Spent } else { stop } }
    }
}
