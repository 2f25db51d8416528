//! Phrases with the values that TeX itself gives them.

mod dimensions;
mod driver;
mod glues;
mod whole_numbers;
