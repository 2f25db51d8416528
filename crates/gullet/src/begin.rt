//! A phrase begins: what it wants first.
#![tactic(auto, using(asking::specs::Asked::asking), unfolding(crate::specs::Wants::wants, crate::specs::Wants::last_token, crate::specs::Progress::text_rest))]

ghost use Rattle.std.specs.Prelude.{◌≡◌, [], ◌∷◌, true, pos, List, Option, IfOk};
ghost use Rattle.gullet.specs.declared.context.Context.{Context};
ghost use Rattle.gullet.specs.Progress.{rest_behind, is_plain, WhileOpen, Stands, Ready};
ghost use Rattle.gullet.specs.Wants.{Taken, wants, quantity_by, takes_number, input_by, call_want, place_of_test};

use crate::calling::{Calling, Parts};
use crate::context::Context;
use crate::definition::definition_start;
use crate::in_text::InText;
use crate::progress::Progress;
use crate::task::{Act, Arguments, ModeTest, Part, Task, Test, Want};
use conditionals::SkipScan;
use macro_args::{ArgScan, Rules, takes_tokens};
use scan_nums::{IntScan, Quantity};
use std::alloc::{AllocError, Global};
use tokens::{Macro, NameId, Token, codes};

/// A phrase begins, of which nothing was taken yet.
pub fn begin(alloc: Global, context: Context, task: Task) -> Result<(Progress, Want), AllocError>
    ensures want { IfOk result (λ r. r.1 ≡ wants context task []) }
    ensures stands { IfOk result (λ r. WhileOpen r.1 (Stands r.0 context task [])) }
    ensures ready { IfOk result (λ r. Ready r.1 r.0) }
{
    match task {
        Task::Call { name, called } => begin_call(alloc, name, called),
        Task::WholeNumber => Ok((Progress::Number(IntScan::new()), Want::Expanded)),
        Task::QuantityValue(quantity) => Ok(begin_quantity(quantity)),
        Task::Undefined(token) => Ok(only(Act::PassUndefined(token))),
        Task::ExpandAfter => Ok((Progress::ExpandFirst, Want::Raw)),
        Task::The { straight } => Ok((Progress::Value { straight }, Want::Expanded)),
        Task::NumberText(numerals) => Ok((
            Progress::Digits(numerals),
            Want::Inner(Task::WholeNumber),
        )),
        Task::If(test) => Ok((
            Progress::Opened(test),
            Want::Act(Act::Open(place_of_test(test))),
        )),
        Task::PassOver(sought) => Ok((
            Progress::Passing {
                sought,
                scan: SkipScan::new(sought),
                taken: 0,
            },
            Want::Raw,
        )),
        Task::BranchEnd { token, word } => Ok((
            Progress::Met,
            Want::Act(Act::Meet { token, word }),
        )),
        Task::NameText => Ok((
            Progress::Name {
                text: Vec::new(alloc),
            },
            Want::Expanded,
        )),
        Task::Input(token) => Ok(begin_input(context.naming, token)),
        Task::FileName => Ok((Progress::FileStart, Want::Expanded)),
        Task::Text { expanded } => Ok((Progress::Text(InText::Start { expanded }), Want::Expanded)),
        Task::Definition { expanded } => Ok(definition_start(alloc, expanded)),
        Task::Simple(simple) => Ok(only(Act::Simple(simple))),
    }
}

/// The place of a condition among all of them, counted from 1.
fn place_of_test(test: Test) -> i8
    ensures { result ≡ pos (place_of_test test) }
{
    match test {
        Test::Alike(Part::Code) => 1,
        Test::Alike(Part::Category) => 2,
        Test::Number => 3,
        Test::Odd => 5,
        Test::Mode(ModeTest::Vertical) => 6,
        Test::Mode(ModeTest::Horizontal) => 7,
        Test::Mode(ModeTest::Math) => 8,
        Test::Mode(ModeTest::Inner) => 9,
        Test::SameMeaning => 13,
        Test::Always(true) => 15,
        Test::Always(false) => 16,
        Test::Case => 17,
    }
}

/// Something is done, and that is all.
fn only(act: Act) -> (Progress, Want)
    ensures progress { result.0 ≡ Progress.Finishing Option.None }
    ensures want { result.1 ≡ Want.Act act }
{
    (Progress::Finishing { back: None }, Want::Act(act))
}

/// Whether behind the name of a quantity stands the number of a register, or a character.
fn takes_number(code: u16) -> bool
    ensures { result ≡ takes_number code }
{
    (codes::COUNT <= code && code <= codes::MUSKIP)
        || (codes::CATCODE <= code && code <= codes::DELCODE)
}

fn begin_quantity(quantity: Quantity) -> (Progress, Want)
    ensures want { result.1 ≡ quantity_by quantity quantity.index [] }
    ensures stands { WhileOpen result.1 ((context : Context) → Stands result.0 context (Task.QuantityValue quantity) []) }
    ensures ready { Ready result.1 result.0 }
{
    if quantity.index.is_none() && takes_number(quantity.code) {
        (
            Progress::RegisterNumber {
                code: quantity.code,
            },
            Want::Inner(Task::WholeNumber),
        )
    } else {
        (Progress::Telling, Want::Act(Act::Look(quantity)))
    }
}

fn begin_input(naming: bool, token: Token) -> (Progress, Want)
    ensures want { result.1 ≡ input_by token naming [] }
    ensures follows { WhileOpen result.1 ((x : Taken) (xs : List Taken) → input_by token naming (x ∷ xs) ≡ rest_behind result.0 x xs) }
    ensures plain { is_plain result.0 ≡ true }
    ensures ready { Ready result.1 result.0 }
{
    if naming {
        only(Act::InsertRelax(token))
    } else {
        (Progress::Named, Want::Inner(Task::FileName))
    }
}

/// A macro's call: one without parameters takes no token.
fn begin_call(alloc: Global, name: Token, called: Macro) -> Result<(Progress, Want), AllocError>
    ensures want { IfOk result (λ r. r.1 ≡ call_want name called []) }
    ensures stands { IfOk result (λ r. WhileOpen r.1 ((context : Context) → Stands r.0 context (Task.Call name called) [])) }
    ensures ready { IfOk result (λ r. Ready r.1 r.0) }
{
    if !takes_tokens(&called.params) {
        return Ok(only(Act::Text {
            body: called.body,
            arguments: Arguments::none(alloc),
        }));
    }
    let rules = Rules {
        long: called.long,
        par: NameId(u64::from(codes::PAR)),
    };
    let scan = ArgScan::new(alloc, rules, called.params.share()?);
    let calling = Calling::new(alloc, Parts { name, called, scan })?;
    Ok((Progress::Call(calling), Want::Raw))
}
