//! The run of TeX: the state that it keeps, what each command does to it, and its endings
//! (The TeXbook, chapters 13 and 24; `tex.web`, parts 46 to 51).
#![tactic(auto, using(asking::specs::Asked::asking))]

pub use ending::Exit;
pub use example::worked_run;
pub use machine::{Ended, Machine, Start, turns_law};
pub use pending::{Item, Pending};
pub use source::Source;
pub use state::State;

mod catcode;
mod character;
mod command;
mod ending;
mod example;
mod expanded;
mod file_name;
mod gather;
mod input;
mod machine;
mod message;
mod name;
mod named_file;
mod operand;
mod pending;
mod report;
mod source;
mod start_values;
mod state;
mod text_token;
mod turn;
