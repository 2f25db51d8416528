//! Pages whose bytes were worked out by hand, or by the rules of `tex.web` written down a second time.

mod files;
mod large;
mod leaders;
mod limits;
mod material;
mod movements;
mod reading;
mod things;
