//! Going along a program of ligatures and kerns (tex.web sections 545, 546 and 1039).

ghost use Rattle.std.specs.Prelude.{◌≡◌, Some};
ghost use Rattle.tfm.specs.FontMetricsPrograms.{is_for, ends, instruction_for, effect_of, action_from};

use crate::action::Action;
use crate::quarters::Quarters;

/// Whether an instruction is for this character on the right.
fn is_for(word: Quarters, right: u8) -> bool
    ensures { result ≡ is_for word right }
{
    word.b1 == right && word.b0 <= 128
}

/// Whether a program ends with this instruction where it isn't for the character on the right.
fn ends(word: Quarters) -> bool
    ensures { result ≡ ends word }
{
    word.b0 >= 128
}

/// The instruction for a character on the right.
#[tactic(auto, using(crate::proofs::ProgramLemmas::instruction_for_end))]
fn instruction_for(instructions: &[Quarters], start: u16, right: u8) -> Option<Quarters>
    ensures { result ≡ instruction_for right start instructions.now }
{
    let mut at = usize::from(start);
    while at < instructions.len() {
        let word = instructions[at];
        if is_for(word, right) {
            return Some(word);
        }
        if ends(word) {
            return None;
        }
        at += usize::from(word.b0) + 1;
    }
    None
}

/// What an instruction does.
fn effect_of(kerns: &[i32], word: Quarters) -> Action
    ensures { result ≡ effect_of kerns.now word }
{
    if word.b2 < 128 {
        Action::Lig {
            byte: word.b3,
            keep_left: word.b2 / 2 % 2 == 1,
            keep_right: word.b2 % 2 == 1,
            skip: word.b2 / 4,
        }
    } else {
        let index = 256 * usize::from(word.b2 - 128) + usize::from(word.b3);
        Action::Kern(kerns.get(index).copied().unwrap_or(0))
    }
}

/// What the program does that begins at an instruction.
pub(crate) fn action_from(instructions: &[Quarters], kerns: &[i32], start: u16, right: u8) -> Action
    ensures { result ≡ action_from instructions.now kerns.now right (Some start) }
{
    match instruction_for(instructions, start, right) {
        Some(word) => effect_of(kerns, word),
        None => Action::Nothing,
    }
}
