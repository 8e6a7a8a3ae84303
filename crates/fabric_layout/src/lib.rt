// A state, a clock's responses and its lines in lent arrays of numbers (rules 2.4, 4.13): each record is read and put at its index.
#![tactic(auto)]

ghost use Rattle.std.specs.Prelude.{◌≡◌, cond, ◌≢◌, ◌+◌, ◌*◌, ◌≤◌, ◌<◌, set, replicate};
ghost use Rattle.std.proofs.lemmas.List.Edits.{sets};
ghost use Rattle.fabric_transfer.specs.Accesses.{no_transfer};
ghost use Rattle.fabric_state.specs.Records.{no_log, transfer_at, slot_at, late_at, entry_at};
ghost use Rattle.fabric_state.specs.Logging.{entered, without_oldest, with_log};
ghost use Rattle.fabric_state.specs.Resetting.{reset_state};
ghost use Rattle.fabric_layout.specs.Layout.{state_in, lines_in};
ghost use Rattle.fabric_layout.specs.Numbers.{numbers_of_entry, numbers_of_state, oldest_removed};
ghost use Rattle.fabric_layout.specs.Code.Puts.{with_slot, with_late, with_entry, responses_for, first_lines, reset_slot};
ghost use Rattle.fabric_layout.specs.Code.Puts.{Leaves, TransferPut, entry_moved};

use common_numbers::{
    DECODE_ERROR, ENTRIES_FROM, ENTRY_NUMBERS, LATE_FROM, LINE_FIELDS, LINES_NUMBERS, LOG_FROM,
    LOST_AT, MASTERS, OKAY, SLOT_NUMBERS, SLOTS_FROM, STATE_NUMBERS, TRANSFER_NUMBERS,
};
use fabric_state::{Entry, Line, NO_ENTRY, NO_LINE, NO_SLOT, Slot};
use fabric_transfer::{NO_TRANSFER, Transfer};

// The transfer of master m (rule 2.4).
pub fn transfer_at(st: &[u32; STATE_NUMBERS], m: usize) -> Transfer
    requires { m < 8 }
    ensures { result ≡ transfer_at (state_in st.now) m }
{
    let p = TRANSFER_NUMBERS * m;
    Transfer {
        held: st[p] != 0,
        write: st[p + 1] != 0,
        address: st[p + 2],
        lanes: st[p + 3],
        beats: st[p + 4],
    }
}

// The beats of master m's transfer (rule 2.4).
pub fn beats_at(st: &[u32; STATE_NUMBERS], m: usize) -> u32
    requires { m < 8 }
    ensures { result ≡ (transfer_at (state_in st.now) m).beats }
{
    st[TRANSFER_NUMBERS * m + 4]
}

// The slot of slave s (rules 2.4, 4.1).
pub fn slot_at(st: &[u32; STATE_NUMBERS], s: usize) -> Slot
    requires { s < 16 }
    ensures { result ≡ slot_at (state_in st.now) s }
{
    let p = SLOTS_FROM + SLOT_NUMBERS * s;
    Slot {
        owner: st[p],
        remaining: st[p + 1],
        serving: st[p + 2] != 0,
        done: st[p + 3],
        waited: st[p + 4],
    }
}

// The latency clocks that master m still has to pass (rules 2.4, 4.16).
pub fn late_at(st: &[u32; STATE_NUMBERS], m: usize) -> u32
    requires { m < 8 }
    ensures { result ≡ late_at (state_in st.now) m }
{
    st[LATE_FROM + m]
}

// Master m holds t (rules 2.4, 3.3).
pub fn put_transfer(st: &mut [u32; STATE_NUMBERS], m: usize, t: Transfer)
    requires { m < 8 }
    ensures { TransferPut st.old st.new m t }
{
    let p = TRANSFER_NUMBERS * m;
    st[p] = description_layout::mark_of(t.held);
    st[p + 1] = description_layout::mark_of(t.write);
    st[p + 2] = t.address;
    st[p + 3] = t.lanes;
    st[p + 4] = t.beats;
}

// The slot of slave s becomes x (rules 2.4, 4.1).
pub fn put_slot(st: &mut [u32; STATE_NUMBERS], s: usize, x: Slot)
    requires { s < 16 }
    ensures { Leaves st.old st.new (with_slot (state_in st.old) s x) }
{
    let p = SLOTS_FROM + SLOT_NUMBERS * s;
    st[p] = x.owner;
    st[p + 1] = x.remaining;
    st[p + 2] = description_layout::mark_of(x.serving);
    st[p + 3] = x.done;
    st[p + 4] = x.waited;
}

// Master m has n latency clocks to pass (rules 2.4, 4.16).
pub fn put_late(st: &mut [u32; STATE_NUMBERS], m: usize, n: u32)
    requires { m < 8 }
    ensures { Leaves st.old st.new (with_late (state_in st.old) m n) }
{
    st[LATE_FROM + m] = n;
}

// How many entries the log has (rules 2.4, 4.18).
pub fn log_count(st: &[u32; STATE_NUMBERS]) -> u32
    ensures { result ≡ (state_in st.now).log.count }
{
    st[LOG_FROM]
}

// Entry i of the log (rules 2.4, 4.18).
pub fn entry_at(st: &[u32; STATE_NUMBERS], i: usize) -> Entry
    requires { i < 8 }
    ensures { result ≡ entry_at (state_in st.now).log i }
{
    let p = ENTRIES_FROM + ENTRY_NUMBERS * i;
    Entry {
        master: st[p],
        address: st[p + 1],
        write: st[p + 2] != 0,
    }
}

// Entry i of the log becomes e (rules 2.4, 4.18).
fn put_entry(st: &mut [u32; STATE_NUMBERS], i: usize, e: Entry)
    requires { i < 8 }
    ensures { (state_in st.new ≡ with_entry (state_in st.old) i e)
        × (st.new ≡ sets st.old (130 + 3 * i) (numbers_of_entry e)) }
{
    let p = ENTRIES_FROM + ENTRY_NUMBERS * i;
    st[p] = e.master;
    st[p + 1] = e.address;
    st[p + 2] = description_layout::mark_of(e.write);
}

// An unmapped transfer enters the log; where eight stand it is dropped, and the lost mark is set (rule 4.18).
pub fn enter(st: &mut [u32; STATE_NUMBERS], e: Entry)
    requires { (state_in st.old).log.count ≤ 8 }
    ensures { Leaves st.old st.new
        (with_log (state_in st.old) (entered (state_in st.old).log e)) }
{
    let n = log_count(st);
    if n < 8 {
        st[LOG_FROM] = n + 1;
        put_entry(st, n as usize, e);
        return;
    }
    st[LOST_AT] = 1;
}

// Entry i of the log becomes the one behind it, number for number (rule 4.19).
fn move_entry(st: &mut [u32; STATE_NUMBERS], i: usize)
    requires { i < 7 }
    ensures { (state_in st.new
        ≡ with_entry (state_in st.old) i (entry_at (state_in st.old).log (i + 1)))
        × (st.new ≡ entry_moved st.old i) }
{
    let p = ENTRIES_FROM + ENTRY_NUMBERS * i;
    let q = p + ENTRY_NUMBERS;
    let master = st[q];
    let address = st[q + 1];
    let write = st[q + 2];
    st[p] = master;
    st[p + 1] = address;
    st[p + 2] = write;
}

// The log's count is one fewer, every entry moves one place down, and the last place becomes 0 (rule 4.19).
pub fn remove_oldest(st: &mut [u32; STATE_NUMBERS])
    requires { (state_in st.old).log.count ≢ 0 }
    ensures { (state_in st.new
        ≡ with_log (state_in st.old) (without_oldest (state_in st.old).log))
        × (st.new ≡ oldest_removed st.old) }
{
    st[LOG_FROM] = log_count(st) - 1;
    for i in 0..7 {
        move_entry(st, i);
    }
    put_entry(st, 7, NO_ENTRY);
}

// The log is empty, and none is lost (rule 4.2).
fn clear_log(st: &mut [u32; STATE_NUMBERS])
    ensures { state_in st.new ≡ with_log (state_in st.old) no_log }
{
    st[LOG_FROM] = 0;
    st[LOST_AT] = 0;
    for i in 0..8 {
        put_entry(st, i, NO_ENTRY);
    }
}

// The response of a master, by whether it has an unmapped transfer (rules 4.13, 4.17).
fn response_for(on: bool) -> u32
    ensures { result ≡ cond on 3 0 }
{
    if on { DECODE_ERROR } else { OKAY }
}

// The clock's responses: 3 for each master of the mask, 0 for the others (rules 4.13, 4.17); of the test see
// fabric_arbiter::is_requesting.
pub fn put_responses(responses: &mut [u32; MASTERS], mask: u32)
    ensures { responses.new ≡ responses_for mask }
{
    for (m, response) in responses.iter_mut().enumerate() {
        *response = response_for((mask >> m) % 2 == 1);
    }
}

// The clock's line of slave s becomes x (rule 4.13).
pub fn put_line(lines: &mut [u32; LINES_NUMBERS], s: usize, x: Line)
    requires { s < 16 }
    ensures { lines_in lines.new ≡ set (lines_in lines.old) s x }
{
    let p = LINE_FIELDS * s;
    lines[p] = x.phase;
    lines[p + 1] = x.owner;
    lines[p + 2] = x.offset;
    lines[p + 3] = x.lanes;
    lines[p + 4] = x.run;
    lines[p + 5] = x.place;
}

// The clock's lines from n on show nothing (rule 4.13).
pub fn first_lines(lines: &mut [u32; LINES_NUMBERS], n: usize)
    ensures { lines_in lines.new ≡ first_lines n (lines_in lines.old) }
{
    for s in n..16 {
        put_line(lines, s, NO_LINE);
    }
}

// The slot of slave s after a reset, where the first n slaves have an owner (rule 4.2).
fn reset_slot(owner: u32, n: u32, s: usize) -> Slot
    ensures { result ≡ reset_slot owner n s }
{
    if s < n as usize {
        Slot { owner, ..NO_SLOT }
    } else {
        NO_SLOT
    }
}

// No transfer is held, and no latency clocks are to pass (rule 4.2).
fn clear_masters(st: &mut [u32; STATE_NUMBERS])
    ensures { ((state_in st.new).transfers ≡ replicate 8 no_transfer)
        × ((state_in st.new).late ≡ replicate 8 0) }
{
    for m in 0..8 {
        put_transfer(st, m, NO_TRANSFER);
        put_late(st, m, 0);
    }
}

// The state after a reset where `owner` is the last owner of the first n slaves (rule 4.2), whatever stood in the array before.
pub fn reset_state(st: &mut [u32; STATE_NUMBERS], owner: u32, n: u32)
    ensures { (state_in st.new ≡ reset_state owner n)
        × (st.new ≡ numbers_of_state (reset_state owner n)) }
{
    clear_masters(st);
    clear_log(st);
    for s in 0..16 {
        put_slot(st, s, reset_slot(owner, n, s));
    }
}
