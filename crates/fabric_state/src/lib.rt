// The state of a board's fabric, and what a clock shows of it (rules 4.1, 4.13, 4.18).
#![tactic(auto)]

use fabric_transfer::Transfer;

// One slave (rule 4.1): last owner, grants that remain to it, whether it serves, accesses done, waits passed. A slave that does not serve
// has the last two as well: `slot_by` keeps them.
#[derive(Clone, Copy)]
pub struct Slot {
    pub owner: u32,
    pub remaining: u32,
    pub serving: bool,
    pub done: u32,
    pub waited: u32,
}

// Rule 4.2: of a slave that the board does not have, a reset leaves all 0.
pub const NO_SLOT: Slot = Slot {
    owner: 0,
    remaining: 0,
    serving: false,
    done: 0,
    waited: 0,
};

// An unmapped transfer in the log (rule 4.18): its master, its address, its direction.
#[derive(Clone, Copy)]
pub struct Entry {
    pub master: u32,
    pub address: u32,
    pub write: bool,
}

// Rules 4.2, 4.19: an entry of zeros.
pub const NO_ENTRY: Entry = Entry {
    master: 0,
    address: 0,
    write: false,
};

// The log of unmapped transfers (rule 4.18): how many entries stand, whether one was dropped, the entries, the oldest first. The count
// stands beside an array of fixed length, as in the lent state: the library allocates nothing.
#[derive(Clone, Copy)]
pub struct Log {
    pub count: u32,
    pub lost: bool,
    pub entries: [Entry; 8],
}

// The transfer of each master (rule 3.3), the slot of each slave (rule 4.1), the latency clocks that each master still has to pass
// (rule 4.16), and the log (rule 4.18).
#[derive(Clone, Copy)]
pub struct State {
    pub transfers: [Transfer; 8],
    pub slots: [Slot; 16],
    pub late: [u32; 8],
    pub log: Log,
}

// What one slave shows in one clock (rule 4.13): phase, owner, byte offset, lanes, length of the run, place in the run. The phase is a
// number, since a caller's array of lines has any (include/fabric.h).
#[derive(Clone, Copy)]
pub struct Line {
    pub phase: u32,
    pub owner: u32,
    pub offset: u32,
    pub lanes: u32,
    pub run: u32,
    pub place: u32,
}

// Rule 4.13: the phases of a slave that waits, and of one that carries out an access.
pub const WAITING: u32 = 1;

pub const ACCESS: u32 = 2;

// Rule 4.13: a line of phase 0 is all 0.
pub const NO_LINE: Line = Line {
    phase: 0,
    owner: 0,
    offset: 0,
    lanes: 0,
    run: 0,
    place: 0,
};

// One slave's clock: the slot after it, its line, whether it carries out its owner's last access (rules 4.3 to 4.9, 4.13). `last` is
// the definition's (`served`), and says something of the line, whatever the line is.
#[derive(Clone, Copy)]
pub struct Step {
    pub slot: Slot,
    pub line: Line,
    pub last: bool,
}

// The answer of clock (rule 4.13): bit m of the mask is 1 where master m is finished; each master's response, each slave's line. It is
// the answer of a definition (`clocked_of`), which gives a refusal by its number; no code makes it.
#[derive(Clone, Copy)]
pub struct Clocked {
    pub number: u32,
    pub state: State,
    pub mask: u32,
    pub responses: [u32; 8],
    pub lines: [Line; 16],
}
