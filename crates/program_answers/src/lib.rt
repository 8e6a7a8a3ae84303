// What `simulate` prints for a call and of a state, and what it explains on standard error.
#![tactic(auto)]

mod answers;
mod explain;

pub use answers::Console;
