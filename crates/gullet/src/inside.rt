//! What stands around a phrase that is read inside another, and how many may be unfinished.
#![tactic(auto, using(asking::specs::Asked::asking))]

ghost use Rattle.std.specs.Prelude.{◌≡◌, false};
ghost use Rattle.gullet.specs.Expansion.{is_counted, is_file_name, is_closed, inside, is_full};

use crate::context::Context;
use crate::task::Task;

/// How many phrases that count may be unfinished.
const MOST_FRAMES: u32 = 10_000;

/// Whether a phrase is one of those that count.
fn is_counted(task: &Task) -> bool
    ensures { result ≡ is_counted task.now }
{
    match task {
        Task::WholeNumber
        | Task::If(_)
        | Task::NameText
        | Task::Text { .. }
        | Task::Definition { .. } => true,
        Task::QuantityValue(_)
        | Task::Undefined(_)
        | Task::Call { .. }
        | Task::ExpandAfter
        | Task::The { .. }
        | Task::NumberText(_)
        | Task::PassOver(_)
        | Task::BranchEnd { .. }
        | Task::Input(_)
        | Task::FileName
        | Task::Simple(_) => false,
    }
}

/// Whether a phrase is the name of a file.
fn is_file_name(task: &Task) -> bool
    ensures { result ≡ is_file_name task.now }
{
    match task {
        Task::FileName => true,
        Task::WholeNumber
        | Task::QuantityValue(_)
        | Task::Undefined(_)
        | Task::Call { .. }
        | Task::ExpandAfter
        | Task::The { .. }
        | Task::NumberText(_)
        | Task::If(_)
        | Task::PassOver(_)
        | Task::BranchEnd { .. }
        | Task::NameText
        | Task::Input(_)
        | Task::Text { .. }
        | Task::Definition { .. }
        | Task::Simple(_) => false,
    }
}

/// Whether in a phrase no file may end, and no outer macro may stand.
fn is_closed(task: &Task) -> bool
    ensures { result ≡ is_closed task.now }
{
    match task {
        Task::Call { .. } | Task::PassOver(_) | Task::Text { .. } | Task::Definition { .. } => true,
        Task::WholeNumber
        | Task::QuantityValue(_)
        | Task::Undefined(_)
        | Task::ExpandAfter
        | Task::The { .. }
        | Task::NumberText(_)
        | Task::If(_)
        | Task::BranchEnd { .. }
        | Task::NameText
        | Task::Input(_)
        | Task::FileName
        | Task::Simple(_) => false,
    }
}

/// Whether one phrase more would be too many.
pub fn is_full(context: Context, task: &Task) -> bool
    ensures { result ≡ is_full context task.now }
{
    is_counted(task) && MOST_FRAMES <= context.depth
}

/// What stands around a phrase inside this one.
pub fn inside(context: Context, task: &Task) -> Context
    requires { is_full context task.now ≡ false }
    ensures { result ≡ inside context task.now }
{
    let depth = if is_counted(task) {
        context.depth + 1
    } else {
        context.depth
    };
    Context {
        depth,
        naming: is_file_name(task) || context.naming,
        closed: is_closed(task) || context.closed,
    }
}
