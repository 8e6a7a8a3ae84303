// One clock of an accepted board in a state that breaks no rule, slave by slave (rules 4.3 to 4.9, 4.11, 4.16), and then the masters
// that hold unmapped transfers (rules 4.17, 4.18).
// The state is changed where it stands. Board, state, lines, memory and buffer are lent one by one, as C lends them: a struct of the five
// would be taken apart again at each call, since each function asks for some of them.
#![tactic(auto)]

ghost use Rattle.std.specs.Prelude.{◌≡◌, ◌*◌, ◌≤◌, ◌<◌, length};
ghost use Rattle.common_laws.specs.Lists.{table, sum};
ghost use Rattle.description_board.specs.Records.{master_at, memory_length};
ghost use Rattle.fabric_transfer.specs.Bytes.{buffer_length};
ghost use Rattle.fabric_state.specs.Records.{late_at};
ghost use Rattle.description_layout.specs.Layout.{board_in};
ghost use Rattle.fabric_layout.specs.Layout.{state_in, lines_in};
ghost use Rattle.fabric_layout.specs.Numbers.{Marks};
ghost use Rattle.fabric_layout.specs.Code.Puts.{Leaves};
ghost use Rattle.fabric_check.specs.Code.Targets.{targets_in, request_mask, unmapped_mask};
ghost use Rattle.fabric_grant.specs.Code.Asking.{slot_asked};
ghost use Rattle.fabric_cycle.specs.Code.Cycles.{Passes, Acted, Clocks};
ghost use Rattle.fabric_cycle.specs.Code.Unmapped.{bytes_held, cleared_behind, answered_at, cleared_at, Answered, Answerable};
ghost use Rattle.fabric_cycle.specs.Code.Latency.{counted_at, Counted};
ghost use Rattle.fabric_cycle.specs.Code.SlaveClocks.{ended_transfer, Ready, Serving, SlaveClocked};

use common_numbers::{BOARD_NUMBERS, LINES_NUMBERS, SLAVES, STATE_NUMBERS};
use fabric_accesses::{Pair, Posting};
use fabric_state::{Entry, NO_LINE, Slot};
use fabric_transfer::{NO_TRANSFER, Transfer};

// Who has no latency clocks to pass, and who passes its last one in a clock (rule 4.16): bit m for master m.
#[derive(Clone, Copy)]
pub struct Latent {
    pub free: u32,
    pub finished: u32,
}

// One of its n latency clocks passes for master m (rule 4.16); with the last one its transfer ends.
#[tactic(auto, using(crate::proofs::LatencyLaws::counted_none, crate::proofs::LatencyLaws::counted_last, crate::proofs::LatencyLaws::counted_less, fabric_layout::proofs::MarkLaws::marks_same, fabric_layout::proofs::MarkLaws::marks_then))]
fn count_late(st: &mut [u32; STATE_NUMBERS], m: usize, n: u32)
    requires { m < 8 }
    ensures { Leaves st.old st.new (counted_at (state_in st.old) m n) }
{
    if n == 0 {
        return;
    }
    fabric_layout::put_late(st, m, n - 1);
    if n == 1 {
        fabric_layout::put_transfer(st, m, NO_TRANSFER);
    }
}

// The latency clocks that all masters together have to pass (rule 4.16).
#[tactic(auto, using(crate::proofs::LatencyLaws::sum_more), unfolding(common_laws::specs::Lists::sum))]
fn late_clocks(st: &[u32; STATE_NUMBERS]) -> u64
    ensures { result ≡ sum (late_at (state_in st.now)) 8 }
{
    let mut total: u64 = 0;
    for m in 0..8 {
        total += u64::from(fabric_layout::late_at(st, m));
    }
    total
}

// One latency clock passes for each master that has some (rule 4.16). Mostly none has: then no master is looked at by itself.
fn pass_latency(st: &mut [u32; STATE_NUMBERS]) -> Latent
    ensures { Counted (state_in st.old) (state_in st.new) 8 result × Marks st.old st.new }
{
    if late_clocks(st) == 0 {
        return Latent {
            free: 255,
            finished: 0,
        };
    }
    let mut free: u32 = 0;
    let mut finished: u32 = 0;
    for m in 0..8 {
        let late = fabric_layout::late_at(st, m as usize);
        count_late(st, m as usize, late);
        free += fabric_check::weight_of(late == 0, m);
        finished += fabric_check::weight_of(late == 1, m);
    }
    Latent { free, finished }
}

// Behind the last access of master m its transfer ends (rule 4.9), or its latency begins (rule 4.16).
#[tactic(auto, using(fabric_layout::proofs::MarkLaws::marks_same), unfolding(crate::specs::Code::SlaveClocks::ended_transfer))]
fn end_transfer(st: &mut [u32; STATE_NUMBERS], m: usize, last: bool, latency: u32)
    requires { m < 8 }
    ensures { Leaves st.old st.new (ended_transfer (state_in st.old) m last latency) }
{
    if last {
        if latency == 0 {
            fabric_layout::put_transfer(st, m, NO_TRANSFER);
        } else {
            fabric_layout::put_late(st, m, latency);
        }
    }
}

// Rules 2 and 3 (rules 4.8, 4.9) at slave s, which serves: `slot` is its slot after rule 1. Answers the bit of its owner, where
// it is finished (rules 4.13, 4.16).
#[tactic(auto, using(crate::proofs::SlaveClockLaws::serves_as))]
fn serve_at(
    board: &[u32; BOARD_NUMBERS],
    st: &mut [u32; STATE_NUMBERS],
    s: usize,
    slot: Slot,
    start: usize,
    lines: &mut [u32; LINES_NUMBERS],
    memory: &mut [u8],
    buffer: &mut [u8],
) -> u32
    requires { Serving (board_in board.now) (state_in st.old) s slot start
        (record { memory = memory.old; buffer = buffer.old }) }
    ensures { SlaveClocked (board_in board.now) (state_in st.old)
        (state_in st.new) s slot start
        (lines_in lines.old) (lines_in lines.new) result
        (record { memory = memory.old; buffer = buffer.old })
        (record { memory = memory.new; buffer = buffer.new }) × Marks st.old st.new }
{
    let o = slot.owner as usize;
    let master = description_layout::master_at(board, o);
    let slave = description_layout::slave_at(board, s);
    let transfer = fabric_layout::transfer_at(st, o);
    let posting = Posting {
        pair: Pair { master, slave },
        transfer,
    };
    let step = fabric_slave::serve(posting, slot, start, memory, buffer);
    let next = step.slot;
    let line = step.line;
    fabric_layout::put_slot(st, s, next);
    fabric_layout::put_line(lines, s, line);
    let latency = posting.latency_of();
    end_transfer(st, o, step.last, latency);
    fabric_check::weight_of(step.last & (latency == 0), slot.owner)
}

// Slave s in one clock (rules 4.3 to 4.9); its span starts at `start`. Answers the bit of the master that it finishes. A slave
// that does not serve shows nothing (rule 4.13).
#[tactic(auto, using(crate::proofs::SlaveClockLaws::serving_as, crate::proofs::SlaveClockLaws::stepped_as))]
fn clock_slave(
    board: &[u32; BOARD_NUMBERS],
    st: &mut [u32; STATE_NUMBERS],
    s: usize,
    mask: u32,
    start: usize,
    lines: &mut [u32; LINES_NUMBERS],
    memory: &mut [u8],
    buffer: &mut [u8],
) -> u32
    requires { Ready (board_in board.now) (state_in st.old) s mask start
        (record { memory = memory.old; buffer = buffer.old }) }
    ensures { SlaveClocked (board_in board.now) (state_in st.old) (state_in st.new) s
        (slot_asked (board_in board.now) (state_in st.old) s mask) start
        (lines_in lines.old) (lines_in lines.new) result
        (record { memory = memory.old; buffer = buffer.old })
        (record { memory = memory.new; buffer = buffer.new }) × Marks st.old st.new }
{
    let slot = fabric_grant::slot_asked(board, st, s, mask);
    if slot.serving {
        return serve_at(board, st, s, slot, start, lines, memory, buffer);
    }
    fabric_layout::put_slot(st, s, slot);
    fabric_layout::put_line(lines, s, NO_LINE);
    0
}

// What the slaves do in a clock that is not refused (rules 4.1, 4.3 to 4.14, 4.16): the latency clocks, then one pass over them; `holders`
// are the masks of who holds a transfer for each of them before the clock, and of these the masters without latency clocks request it. A
// slave's slot is read in its own clock only, and a transfer that a slave is to serve is for that slave alone, and in no latency: so
// what a slave reads in the state that is being changed stood there before the clock. Answers the mask of masters whose
// transfers are completed.
fn act(
    board: &[u32; BOARD_NUMBERS],
    st: &mut [u32; STATE_NUMBERS],
    holders: &[u32; SLAVES],
    lines: &mut [u32; LINES_NUMBERS],
    memory: &mut [u8],
    buffer: &mut [u8],
) -> u32
    requires { Passes (board_in board.now) (state_in st.old)
        × (holders.now ≡ table (request_mask (targets_in (board_in board.now) (state_in st.old).transfers)) 16)
        × (length memory.old ≡ memory_length (board_in board.now)) × (length buffer.old ≡ buffer_length) }
    ensures { Acted (board_in board.now) (state_in st.old) (state_in st.new)
        (lines_in lines.new) result (record { memory = memory.old; buffer = buffer.old })
        (record { memory = memory.new; buffer = buffer.new }) × Marks st.old st.new }
{
    let count = description_layout::slave_count(board) as usize;
    let Latent { free, mut finished } = pass_latency(st);
    let mut start: usize = 0;
    for s in 0..count {
        finished += clock_slave(
            board,
            st,
            s,
            holders[s] & free,
            start,
            lines,
            memory,
            buffer,
        );
        let sl = description_layout::slave_at(board, s);
        start += sl.span as usize;
    }
    fabric_layout::first_lines(lines, count);
    finished
}

// The words of the unmapped transfer t of master m become 0 where it is a read (rule 4.17).
#[tactic(auto, using(crate::proofs::UnmappedLaws::clear_write, crate::proofs::UnmappedLaws::words_fit))]
fn clear_read(board: &[u32; BOARD_NUMBERS], m: usize, t: Transfer, buffer: &mut [u8])
    requires { (m < 8) × (length buffer.old ≡ buffer_length) × (t.beats * (master_at (board_in board.now) m).width ≤ 512) }
    ensures { buffer.new ≡ cleared_behind (board_in board.now) m t buffer.old }
{
    if t.write {
        return;
    }
    let ma = description_layout::master_at(board, m);
    let bytes = t.beats * ma.width;
    fabric_bytes::clear_front(buffer, m, bytes as usize);
}

// The unmapped transfer of master m (rules 4.17, 4.18): the words of a read become 0, the transfer enters the log and ends.
#[tactic(auto, using(fabric_layout::proofs::MarkLaws::marks_then, crate::proofs::UnmappedLaws::answer_held, crate::proofs::UnmappedLaws::answer_cleared, crate::proofs::UnmappedLaws::held_fits))]
fn answer_at(
    board: &[u32; BOARD_NUMBERS],
    st: &mut [u32; STATE_NUMBERS],
    m: usize,
    buffer: &mut [u8],
)
    requires { (m < 8) × ((state_in st.old).log.count ≤ 8) × (length buffer.old ≡ buffer_length)
        × (bytes_held (board_in board.now) (state_in st.old) m ≤ 512) }
    ensures { Leaves st.old st.new (answered_at (state_in st.old) m)
        × (buffer.new ≡ cleared_at (board_in board.now) (state_in st.old) m buffer.old) }
{
    let t = fabric_layout::transfer_at(st, m);
    clear_read(board, m, t, buffer);
    fabric_layout::put_transfer(st, m, NO_TRANSFER);
    let e = Entry {
        master: m as u32,
        address: t.address,
        write: t.write,
    };
    fabric_layout::enter(st, e);
}

// The unmapped transfers of the masters in the mask, by master number (rules 4.17, 4.18). No slave has a part in them: the memory is
// not lent.
fn answer_unmapped(
    board: &[u32; BOARD_NUMBERS],
    st: &mut [u32; STATE_NUMBERS],
    mask: u32,
    buffer: &mut [u8],
)
    requires { Answerable (board_in board.now) (state_in st.old) mask buffer.old }
    ensures { Answered (board_in board.now) (state_in st.old) (state_in st.new) mask 8
        buffer.old buffer.new × Marks st.old st.new }
{
    for m in 0..8 {
        // of the test see fabric_arbiter::is_requesting
        if (mask >> m) % 2 == 1 {
            answer_at(board, st, m, buffer);
        }
    }
}

// A clock that is not refused (rules 4.1, 4.3 to 4.18): what the slaves do, then the unmapped transfers; `unmapped` is the mask of who holds
// one. Answers the mask of masters finished.
pub fn cycle(
    board: &[u32; BOARD_NUMBERS],
    st: &mut [u32; STATE_NUMBERS],
    holders: &[u32; SLAVES],
    unmapped: u32,
    lines: &mut [u32; LINES_NUMBERS],
    memory: &mut [u8],
    buffer: &mut [u8],
) -> u32
    requires { Passes (board_in board.now) (state_in st.old)
        × (holders.now ≡ table (request_mask (targets_in (board_in board.now) (state_in st.old).transfers)) 16)
        × (unmapped ≡ unmapped_mask (board_in board.now) (state_in st.old))
        × (length memory.old ≡ memory_length (board_in board.now)) × (length buffer.old ≡ buffer_length) }
    ensures { Clocks (board_in board.now) (state_in st.old) (state_in st.new)
        (lines_in lines.new) result (record { memory = memory.old; buffer = buffer.old })
        (record { memory = memory.new; buffer = buffer.new }) × Marks st.old st.new }
{
    let completed = act(board, st, holders, lines, memory, buffer);
    if unmapped == 0 {
        return completed;
    }
    answer_unmapped(board, st, unmapped, buffer);
    completed + unmapped
}
