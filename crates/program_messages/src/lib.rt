// A line for standard error, put together piece by piece in an array that is lent, so that one call writes it: lines of two programs
// on one terminal do not mix. With it the operating system's words for its errors.
#![tactic(auto)]

mod errors;
mod line;

pub use line::{Line, ROOM, say};
