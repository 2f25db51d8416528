//! Commands that set nothing and assign nothing: groups, letters in another case, messages, what is shown, the end (The
//! TeXbook, chapters 13, 20 and 24; `tex.web`, parts 19, 46, 47 and 49).
#![tactic(auto, using(asking::specs::Asked::asking))]

pub use command::{Brace, Command, command_of};
pub use executing::{Next, execute};

mod command;
mod executing;
mod groups;
mod letters;
mod messages;
mod showing;
mod spaces;
