// A line of a script: what it says, what it overwrites of a lent board or state, and how much of the memory and of the buffer it
// lends. What else a line does is for whoever obeys it.
#![tactic(auto)]

mod command;
mod lending;
mod overwriting;

pub use command::{Command, FIELD_COUNT, INPUT, Kind, Part, parse};
pub use lending::{BUFFER_ROOM, BYTES_OVER, Lending, MEMORY_ROOM};
pub use overwriting::overwrite;
