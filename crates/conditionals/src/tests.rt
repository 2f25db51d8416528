//! Worked texts that are passed over, and conditions that are open, a file for each subject.

mod deep;
mod passing;
mod stack;
