// Lines in and lines out, for a program that obeys a text from standard input line by line. What it prints gathers in a buffer,
// and bytes are spelled by hex digits. What a line says and does is for whoever obeys it.
#![tactic(auto)]

mod hex;
mod input;
mod output;

pub use hex::{byte_count, decode};
pub use input::{Next, Reader};
pub use output::{Printer, ROOM};

// What can be wrong with a line, which ends the work: it is none of the kinds, it has a number that its field does not hold, it
// reaches past what is lent, it has more bytes than a buffer, or it is the last line and lacks its line feed. All but the last are
// found by whoever obeys the lines.
#[derive(Clone, Copy)]
pub enum Problem {
    NotALine,
    OutOfRange,
    PastLent,
    TooManyBytes,
    NoLineFeed,
}
