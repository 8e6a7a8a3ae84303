// The public calls on a board's fabric: reset, post, clock, a run of clocks and take, on lent arrays of numbers.
#![tactic(auto)]

ghost use Rattle.std.specs.Prelude.{◌≡◌, cond, ◌*◌, ◌<◌, length};
ghost use Rattle.common_numbers.specs.Refusals.{refusal_in, answer_or};
ghost use Rattle.description_board.specs.Items.{board_refusal};
ghost use Rattle.description_layout.specs.Layout.{board_in};
ghost use Rattle.fabric_layout.specs.Layout.{state_in};
ghost use Rattle.fabric_state.specs.Records.{no_entry};
ghost use Rattle.fabric_calls.specs.Calls.{request_refusal, post_refusal_by, take_refusal, taken_of};
ghost use Rattle.fabric_calls.specs.Lent.{Resets, Posts, Clocks, Runs, Takes};

use common_numbers::{
    BOARD_NUMBERS, BUFFER_BYTES, LINES_NUMBERS, MASTERS, Refusal, SLAVES, STATE_NUMBERS,
};
use description_board::Master;
use fabric_state::Entry;
use fabric_transfer::Transfer;

// The answer of a run of clocks beside its responses and lines (rules 4.15, 8.1): the clocks passed and the last one's mask.
#[derive(Clone, Copy)]
pub struct Ran {
    pub clocks: u32,
    pub mask: u32,
}

// Reset (rule 4.2): no transfer is held, every slave's last owner is the highest master. The board alone is judged (rule 8.5); a
// refusal leaves the state (rule 8.1).
#[tactic(auto, using(fabric_calls::proofs::ResetLaws::reset_taken))]
pub fn reset(board: &[u32; BOARD_NUMBERS], state: &mut [u32; STATE_NUMBERS]) -> Result<(), Refusal>
    ensures { Resets (board_in board.now) state.old state.new (refusal_in result) }
{
    description_check::board_refusal(board)?;
    let owner = description_layout::master_count(board) - 1;
    let count = description_layout::slave_count(board);
    fabric_layout::reset_state(state, owner, count);
    Ok(())
}

// The bytes that a post hands in with a transfer (rule 7.18): none for a read. In 64 bits no product of two numbers wraps.
#[tactic(auto, using(common_laws::proofs::Arithmetic::product_le))]
fn words_length(ma: Master, t: Transfer) -> u64
    ensures { result ≡ cond t.write (t.beats * ma.width) 0 }
{
    if t.write {
        u64::from(t.beats) * u64::from(ma.width)
    } else {
        0
    }
}

// What the transfer t of master m, with `length` bytes of words, is refused for (rules 7.13 to 7.18): whether m holds another is
// not asked.
#[tactic(auto, using(common_numbers::proofs::RefusalLaws::refusal_positive), unfolding(fabric_calls::specs::Calls::request_refusal, fabric_calls::specs::Calls::wrong_words))]
fn request_refusal(
    board: &[u32; BOARD_NUMBERS],
    m: usize,
    t: Transfer,
    length: usize,
) -> Result<(), Refusal>
    requires { (board_refusal (board_in board.now) ≡ 0) × (m < (board_in board.now).master_count) }
    ensures { refusal_in result ≡ request_refusal (board_in board.now) m t length }
{
    fabric_check::transfer_refusal(board, m, t)?;
    let ma = description_layout::master_at(board, m);
    if length as u64 != words_length(ma, t) {
        return Err(Refusal::BadWords);
    }
    Ok(())
}

// What a post is refused for (rules 7.8, 7.9, 7.11 to 7.18, 8.4, 8.5): of the transfer t by master m, with a buffer of `room` bytes
// and `length` bytes of words.
#[tactic(auto, using(common_numbers::proofs::RefusalLaws::refusal_positive), unfolding(fabric_calls::specs::Calls::post_refusal_by))]
fn post_refusal_by(
    board: &[u32; BOARD_NUMBERS],
    state: &[u32; STATE_NUMBERS],
    room: usize,
    m: u32,
    t: Transfer,
    length: usize,
) -> Result<(), Refusal>
    ensures { refusal_in result ≡ post_refusal_by (board_in board.now) (state_in state.now) room m t length }
{
    let mut targets = [0u32; MASTERS];
    let sound = fabric_check::ready(board, state, &mut targets)?;
    if room != BUFFER_BYTES {
        return Err(Refusal::BadLength);
    }
    if !sound {
        return Err(Refusal::BadState);
    }
    if description_layout::master_count(board) <= m {
        return Err(Refusal::NoMaster);
    }
    let before = fabric_layout::transfer_at(state, m as usize);
    if before.held {
        return Err(Refusal::Held);
    }
    request_refusal(board, m as usize, t, length)
}

// Post: master `master` is to hold one transfer (rules 3.1 to 3.3). The words of a write are copied to the front of its part of
// the buffer. What is refused is judged in rising order (rule 8.4), and leaves state and buffer (rule 8.1).
pub fn post(
    board: &[u32; BOARD_NUMBERS],
    state: &mut [u32; STATE_NUMBERS],
    buffer: &mut [u8],
    master: u32,
    write: bool,
    address: u32,
    lanes: u32,
    beats: u32,
    words: &[u8],
) -> Result<(), Refusal>
    ensures { Posts (board_in board.now)
        (record { master = master; write = write; address = address; lanes = lanes; beats = beats; words = words.now })
        state.old state.new buffer.old buffer.new (refusal_in result) }
{
    let t = Transfer {
        held: true,
        write,
        address,
        lanes,
        beats,
    };
    post_refusal_by(board, state, buffer.len(), master, t, words.len())?;
    let m = master as usize;
    fabric_bytes::post_words(buffer, m, words);
    fabric_layout::put_transfer(state, m, t);
    Ok(())
}

// One clock (rules 4.1, 4.3 to 4.14, 4.16 to 4.18). What is refused is judged in rising order (rule 8.4), and leaves state, memory and
// buffer (rule 8.1); if nothing is, each slave acts, and unmapped transfers are answered. The answer beside responses and lines is the
// mask of masters finished (rule 4.13).
pub fn clock(
    board: &[u32; BOARD_NUMBERS],
    state: &mut [u32; STATE_NUMBERS],
    memory: &mut [u8],
    buffer: &mut [u8],
    lines: &mut [u32; LINES_NUMBERS],
    responses: &mut [u32; MASTERS],
) -> Result<u32, Refusal>
    ensures { Clocks (board_in board.now) state.old state.new responses.new
        lines.new
        (record { memory = memory.old; buffer = buffer.old })
        (record { memory = memory.new; buffer = buffer.new })
        (refusal_in result) (answer_or 0 result) }
{
    let mut holders = [0u32; SLAVES];
    match fabric_begin::begin(board, state, memory, buffer, &mut holders) {
        Ok(unmapped) => {
            fabric_layout::put_responses(responses, unmapped);
            Ok(fabric_cycle::cycle(board, state, &holders, unmapped, lines, memory, buffer))
        }
        Err(refusal) => {
            fabric_layout::first_lines(lines, 0);
            fabric_layout::put_responses(responses, 0);
            Err(refusal)
        }
    }
}

// A run of clocks (rule 4.15), until a master finishes or `most` of them have passed; refused as a clock is. Board and state are
// checked once: a clock leaves a state that breaks no rule, and as long as no master finishes every transfer is for the slave
// that it was for. An unmapped transfer is finished by the first clock, so that responses other than 0 are of a run's last clock.
pub fn run(
    board: &[u32; BOARD_NUMBERS],
    state: &mut [u32; STATE_NUMBERS],
    memory: &mut [u8],
    buffer: &mut [u8],
    lines: &mut [u32; LINES_NUMBERS],
    responses: &mut [u32; MASTERS],
    most: u32,
) -> Result<Ran, Refusal>
    ensures { Runs (board_in board.now) most state.old state.new responses.new
        lines.new
        (record { memory = memory.old; buffer = buffer.old })
        (record { memory = memory.new; buffer = buffer.new })
        (refusal_in result)
        (answer_or (record { clocks = 0; mask = 0 }) result).clocks
        (answer_or (record { clocks = 0; mask = 0 }) result).mask }
{
    let mut holders = [0u32; SLAVES];
    let begun = fabric_begin::begin(board, state, memory, buffer, &mut holders);
    fabric_layout::first_lines(lines, 0);
    fabric_layout::put_responses(responses, 0);
    let unmapped = begun?;
    for passed in 0..most {
        let mask = fabric_cycle::cycle(board, state, &holders, unmapped, lines, memory, buffer);
        if mask != 0 {
            fabric_layout::put_responses(responses, unmapped);
            return Ok(Ran {
                clocks: passed + 1,
                mask,
            });
        }
    }
    Ok(Ran {
        clocks: most,
        mask: 0,
    })
}

// What a take is refused for (rules 7.9, 7.22, 8.4, 8.5).
#[tactic(auto, using(common_numbers::proofs::RefusalLaws::refusal_positive), unfolding(fabric_calls::specs::Calls::take_refusal))]
fn take_refusal(board: &[u32; BOARD_NUMBERS], state: &[u32; STATE_NUMBERS]) -> Result<(), Refusal>
    ensures { refusal_in result ≡ take_refusal (board_in board.now) (state_in state.now) }
{
    let mut targets = [0u32; MASTERS];
    let sound = fabric_check::ready(board, state, &mut targets)?;
    if !sound {
        return Err(Refusal::BadState);
    }
    if fabric_layout::log_count(state) == 0 {
        return Err(Refusal::EmptyLog);
    }
    Ok(())
}

// Take (rule 4.19): the oldest entry of the log is answered and taken out of it. What is refused leaves the state (rule 8.1).
pub fn take(
    board: &[u32; BOARD_NUMBERS],
    state: &mut [u32; STATE_NUMBERS],
) -> Result<Entry, Refusal>
    ensures { Takes (board_in board.now) state.old state.new (taken_of (refusal_in result) (answer_or no_entry result)) }
{
    take_refusal(board, state)?;
    let oldest = fabric_layout::entry_at(state, 0);
    fabric_layout::remove_oldest(state);
    Ok(oldest)
}
