// Parts of the board and the state, overwritten by what a line says, number by number in the order of the line's fields.
ghost use Rattle.std.specs.Prelude.{◌+◌, ◌<◌, ◌≤◌, length};

use crate::{Command, Part};
use common_numbers::{
    BOARD_NUMBERS, DEFAULT_AT, ENTRIES_FROM, ENTRY_NUMBERS, LATE_FROM, LOG_FROM, MASTER_NUMBERS,
    MASTERS, MASTERS_FROM, SHARES_FROM, SLAVE_NUMBERS, SLAVES, SLAVES_FROM, SLOT_NUMBERS,
    SLOTS_FROM, STATE_NUMBERS, TRANSFER_NUMBERS,
};

// The field of a transfer line after the master's index and the transfer's numbers: the latency clocks that the master still has
// to pass (rule 4.16).
const LATE_FIELD: usize = TRANSFER_NUMBERS + 1;

// The fields of a log line, its count and its lost mark, which stand in front of the entries.
const LOG_FIELDS: usize = ENTRIES_FROM - LOG_FROM;

// `count` fields of a line, from field `first` on, at an index of an array and after it.
fn put(numbers: &mut [u32], at: usize, count: usize, c: &Command, first: usize)
    requires { at + count ≤ length numbers.old }
{
    let fields = c.values.iter().skip(first);
    for (number, value) in numbers[at..at + count].iter_mut().zip(fields) {
        *number = u32::try_from(*value).unwrap_or(u32::MAX);
    }
}

// The index of a master, or of an entry of the log, of which there are as many. The line's limits keep it below the divisor.
fn master_in(c: &Command) -> usize
    ensures { result < 8 }
{
    c.value_at(0) as usize % MASTERS
}

// The index of a card, in a field.
fn card_in(c: &Command, field: usize) -> usize
    ensures { result < 16 }
{
    c.value_at(field) as usize % SLAVES
}

// The count of a transfer line stands after the slots.
fn put_transfer(state: &mut [u32; STATE_NUMBERS], c: &Command) {
    let m = master_in(c);
    put(state, TRANSFER_NUMBERS * m, TRANSFER_NUMBERS, c, 1);
    put(state, LATE_FROM + m, 1, c, LATE_FIELD);
}

// A master's shares of a slave: the first two fields are their indices.
fn put_share(board: &mut [u32; BOARD_NUMBERS], c: &Command) {
    let m = master_in(c);
    let s = card_in(c, 1);
    put(board, SHARES_FROM + SLAVES * m + s, 1, c, 2);
}

// A part of the state or of the board overwritten. The first field is the part's index if there are several of its kind. The counts
// of a board stand in front of the masters.
pub fn overwrite(
    board: &mut [u32; BOARD_NUMBERS],
    state: &mut [u32; STATE_NUMBERS],
    part: Part,
    c: &Command,
) {
    let m = master_in(c);
    let s = card_in(c, 0);
    match part {
        Part::Transfer => put_transfer(state, c),
        Part::Slot => put(state, SLOTS_FROM + SLOT_NUMBERS * s, SLOT_NUMBERS, c, 1),
        Part::Log => put(state, LOG_FROM, LOG_FIELDS, c, 0),
        Part::Entry => put(state, ENTRIES_FROM + ENTRY_NUMBERS * m, ENTRY_NUMBERS, c, 1),
        Part::Master => put(
            board,
            MASTERS_FROM + MASTER_NUMBERS * m,
            MASTER_NUMBERS,
            c,
            1,
        ),
        Part::Slave => put(board, SLAVES_FROM + SLAVE_NUMBERS * s, SLAVE_NUMBERS, c, 1),
        Part::Share => put_share(board, c),
        Part::Count => put(board, 0, MASTERS_FROM, c, 0),
        Part::Default => put(board, DEFAULT_AT, 1, c, 0),
    }
}
