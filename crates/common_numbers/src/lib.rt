// The numbers that the rules (docs/RULES.md) fix, each once: refusals, limits, and the lengths of what is lent.
// include/fabric.h has those that C needs, under the same names with FABRIC_ in front; tests/names.py compares the two.
#![tactic(auto)]

ghost use Rattle.std.specs.Prelude.{◌≡◌};
ghost use Rattle.common_numbers.specs.Refusals.{refusal_number, refusal_in};

// Why something is refused; refusal k is rule 7.k.
#[derive(Clone, Copy, PartialEq, Eq)]
pub enum Refusal {
    BadText = 1,
    BadOrder = 2,
    BadValue = 3,
    BadBase = 4,
    Overlap = 5,
    SpanTotal = 6,
    BadShare = 7,
    BadLength = 8,
    BadState = 9,
    ShortOutput = 10,
    NoMaster = 11,
    Held = 12,
    BadBeats = 13,
    BadAddress = 14,
    BadLanes = 15,
    NotConnected = 16,
    PastEnd = 17,
    BadWords = 18,
    TooNarrow = 19,
    NoShare = 20,
    ShareOrder = 21,
    EmptyLog = 22,
}

impl Refusal {
    // All of them, in the order of their numbers.
    pub const ALL: [Refusal; 22] = [
        Refusal::BadText,
        Refusal::BadOrder,
        Refusal::BadValue,
        Refusal::BadBase,
        Refusal::Overlap,
        Refusal::SpanTotal,
        Refusal::BadShare,
        Refusal::BadLength,
        Refusal::BadState,
        Refusal::ShortOutput,
        Refusal::NoMaster,
        Refusal::Held,
        Refusal::BadBeats,
        Refusal::BadAddress,
        Refusal::BadLanes,
        Refusal::NotConnected,
        Refusal::PastEnd,
        Refusal::BadWords,
        Refusal::TooNarrow,
        Refusal::NoShare,
        Refusal::ShareOrder,
        Refusal::EmptyLog,
    ];

    // The number that C, the programs and the rules have for it.
    pub fn number(self) -> u32
        ensures { result ≡ refusal_number self }
    {
        self as u32
    }
}

// The number that is told of an answer: that of its refusal, or 0.
pub fn number_in<T: Copy>(answer: Result<T, Refusal>) -> u32
    ensures { result ≡ refusal_in answer }
{
    match answer {
        Ok(_) => TAKEN,
        Err(refusal) => refusal.number(),
    }
}

// What is told of an answer that is not refused.
pub const TAKEN: u32 = 0;

// The highest refusal.
pub const LAST_REFUSAL: u32 = Refusal::ALL.len() as u32;

// The responses of a clock (rules 4.13, 4.17).
pub const OKAY: u32 = 0;

pub const DECODE_ERROR: u32 = 3;

// Rules 1.1, 1.8: the most masters and slaves, and the most pairs, each with a number for its shares.
pub const MASTERS: usize = 8;

pub const SLAVES: usize = 16;

pub const PAIRS: usize = MASTERS * SLAVES;

// Rule 1.2: the most bytes of a description, and the room to read one into, with a byte more, so that a longer one is seen.
pub const TEXT_BYTES: usize = 8192;

pub const TEXT_ROOM: usize = TEXT_BYTES + 1;

// Rule 1.3: the numbers of a slave line; no line of a description has more. The definitions have it as `slave_length`.
pub const SLAVE_FIELDS: usize = 8;

pub const LINE_NUMBERS: usize = SLAVE_FIELDS;

// Rule 1.6: the highest base, wait, native, latency and shares.
pub const MOST_BASE: u64 = 4294967295;

pub const MOST_WAIT: u64 = 255;

pub const MOST_NATIVE: u64 = 1;

pub const MOST_LATENCY: u64 = 63;

pub const MOST_SHARES: u64 = 100;

// Rule 1.7: the most bytes of all spans, and so of the memory.
pub const MEMORY_BYTES: u64 = 65536;

// Rule 2.2: the bytes of the buffer, and of one master's part of it.
pub const BUFFER_BYTES: usize = 4096;

pub const PART_BYTES: usize = 512;

// What a board, a state and a clock's lines are as arrays (rules 1.10, 2.4, 4.13): how many numbers each record has, the index
// where each kind begins, and how many numbers there are.
pub const MASTER_NUMBERS: usize = 2;

pub const SLAVE_NUMBERS: usize = SLAVE_FIELDS;

pub const MASTERS_FROM: usize = 2;

pub const SLAVES_FROM: usize = MASTERS_FROM + MASTERS * MASTER_NUMBERS;

pub const SHARES_FROM: usize = SLAVES_FROM + SLAVES * SLAVE_NUMBERS;

pub const DEFAULT_AT: usize = SHARES_FROM + PAIRS;

pub const BOARD_NUMBERS: usize = DEFAULT_AT + 1;

pub const TRANSFER_NUMBERS: usize = 5;

pub const SLOT_NUMBERS: usize = 5;

pub const SLOTS_FROM: usize = MASTERS * TRANSFER_NUMBERS;

pub const LATE_FROM: usize = SLOTS_FROM + SLAVES * SLOT_NUMBERS;

pub const LOG_FROM: usize = LATE_FROM + MASTERS;

pub const LOST_AT: usize = LOG_FROM + 1;

pub const ENTRIES_FROM: usize = LOG_FROM + 2;

pub const ENTRY_NUMBERS: usize = 3;

// Rule 4.18: the most entries of the log.
pub const LOG_ENTRIES: usize = 8;

pub const STATE_NUMBERS: usize = ENTRIES_FROM + LOG_ENTRIES * ENTRY_NUMBERS;

pub const LINE_FIELDS: usize = 6;

pub const LINES_NUMBERS: usize = SLAVES * LINE_FIELDS;

// Rule 5.8: the bytes of a wait and a serve.
pub const WAIT_BYTES: usize = 16;
