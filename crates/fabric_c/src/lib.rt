// The calls for C, as include/fabric.h declares them: each is the library's call of that name, on the same arrays.
// What a call answers beside its number goes to numbers that C lends for it.
#![tactic(auto)]

ghost use Rattle.std.specs.Prelude.{◌≡◌, ◌≤◌, get_or, length};
ghost use Rattle.description_layout.specs.Layout.{board_in, marked};
ghost use Rattle.description.specs.Lent.{Read};
ghost use Rattle.description.specs.Blame.{refused_at, line_part, master_part};
ghost use Rattle.wait.specs.Answers.{wait_refusal, wait_output};
ghost use Rattle.fabric_calls.specs.Lent.{Resets, Posts, Clocks, Runs, Takes};

use common_numbers::{BOARD_NUMBERS, ENTRY_NUMBERS, LINES_NUMBERS, MASTERS, STATE_NUMBERS};
use description::Charged;
use fabric::Ran;
use fabric_state::NO_ENTRY;

// Wait and serve of a pair, on a description's bytes (rule 5.8): wait::wait_call.
#[unsafe(no_mangle)]
pub extern "C" fn fabric_wait(text: &[u8], master: u32, slave: u32, out: &mut [u8]) -> u32
    ensures answer { result ≡ wait_refusal text.now master slave out.old }
    ensures output { out.new ≡ wait_output text.now master slave out.old }
{
    common_numbers::number_in(wait::wait_call(text, master, slave, out))
}

// The board that a text describes (rules 1.10, 8.2).
#[unsafe(no_mangle)]
pub extern "C" fn fabric_read(text: &[u8], board: &mut [u32; BOARD_NUMBERS]) -> u32
    ensures { Read text.now board.old board.new result }
{
    common_numbers::number_in(description::read(text, board))
}

// The line that is charged, from 1, or 0.
fn line_part(charged: Charged) -> usize
    ensures { result ≡ line_part charged }
{
    match charged {
        Charged::Line(n) => n,
        _ => 0,
    }
}

// The master that is named, or 0.
fn master_part(charged: Charged) -> u32
    ensures { result ≡ master_part charged }
{
    match charged {
        Charged::Master(m) => m,
        _ => 0,
    }
}

// The line that a text's refusal is charged to (rule 8.3).
#[unsafe(no_mangle)]
pub extern "C" fn fabric_refused_at(text: &[u8], line: &mut [usize; 1]) -> u32
    ensures answer { result ≡ (refused_at text.now).number }
    ensures line { get_or line.new 0 0 ≡ (refused_at text.now).line }
{
    match description::refused_at(text) {
        Ok(()) => {
            line[0] = 0;
            0
        }
        Err(blame) => {
            line[0] = line_part(blame.charged);
            blame.refusal.number()
        }
    }
}

// The master that a text's refusal with 20 names (rule 8.3).
#[unsafe(no_mangle)]
pub extern "C" fn fabric_refused_master(text: &[u8]) -> u32
    ensures { result ≡ (refused_at text.now).master }
{
    match description::refused_at(text) {
        Ok(()) => 0,
        Err(blame) => master_part(blame.charged),
    }
}

// A reset (rule 4.2).
#[unsafe(no_mangle)]
pub extern "C" fn fabric_reset(
    board: &[u32; BOARD_NUMBERS],
    state: &mut [u32; STATE_NUMBERS],
) -> u32
    ensures { Resets (board_in board.now) state.old state.new result }
{
    common_numbers::number_in(fabric::reset(board, state))
}

// A post (rules 3.1 to 3.3). As in a state, `write` is a mark (rule 2.4).
#[unsafe(no_mangle)]
pub extern "C" fn fabric_post(
    board: &[u32; BOARD_NUMBERS],
    state: &mut [u32; STATE_NUMBERS],
    buffer: &mut [u8],
    master: u32,
    write: u32,
    address: u32,
    lanes: u32,
    beats: u32,
    words: &[u8],
) -> u32
    ensures { Posts (board_in board.now)
        (record { master = master; write = marked write; address = address; lanes = lanes; beats = beats; words = words.now })
        state.old state.new buffer.old buffer.new result }
{
    common_numbers::number_in(fabric::post(
        board,
        state,
        buffer,
        master,
        write != 0,
        address,
        lanes,
        beats,
        words,
    ))
}

// One clock (rules 4.1, 4.3 to 4.14, 4.16 to 4.18).
#[unsafe(no_mangle)]
pub extern "C" fn fabric_clock(
    board: &[u32; BOARD_NUMBERS],
    state: &mut [u32; STATE_NUMBERS],
    memory: &mut [u8],
    buffer: &mut [u8],
    lines: &mut [u32; LINES_NUMBERS],
    responses: &mut [u32; MASTERS],
    mask: &mut [u32; 1],
) -> u32
    ensures { Clocks (board_in board.now) state.old state.new responses.new
        lines.new
        (record { memory = memory.old; buffer = buffer.old })
        (record { memory = memory.new; buffer = buffer.new })
        result (get_or mask.new 0 0) }
{
    let answer = fabric::clock(board, state, memory, buffer, lines, responses);
    mask[0] = answer.unwrap_or(0);
    common_numbers::number_in(answer)
}

// A run of clocks (rule 4.15).
#[unsafe(no_mangle)]
pub extern "C" fn fabric_run(
    board: &[u32; BOARD_NUMBERS],
    state: &mut [u32; STATE_NUMBERS],
    memory: &mut [u8],
    buffer: &mut [u8],
    lines: &mut [u32; LINES_NUMBERS],
    responses: &mut [u32; MASTERS],
    most: u32,
    clocks: &mut [u32; 1],
    mask: &mut [u32; 1],
) -> u32
    ensures { Runs (board_in board.now) most state.old state.new responses.new
        lines.new
        (record { memory = memory.old; buffer = buffer.old })
        (record { memory = memory.new; buffer = buffer.new })
        result (get_or clocks.new 0 0) (get_or mask.new 0 0) }
{
    let answer = fabric::run(board, state, memory, buffer, lines, responses, most);
    let ran = answer.unwrap_or(Ran { clocks: 0, mask: 0 });
    clocks[0] = ran.clocks;
    mask[0] = ran.mask;
    common_numbers::number_in(answer)
}

// A take (rule 4.19): master, address and direction of the entry, the direction as a mark of 0 or 1.
#[unsafe(no_mangle)]
pub extern "C" fn fabric_take(
    board: &[u32; BOARD_NUMBERS],
    state: &mut [u32; STATE_NUMBERS],
    entry: &mut [u32; ENTRY_NUMBERS],
) -> u32
    ensures { Takes (board_in board.now) state.old state.new
        (record {
          number = result;
          master = get_or entry.new 0 0;
          address = get_or entry.new 1 0;
          write = marked (get_or entry.new 2 0);
        })
        × (get_or entry.new 2 0 ≤ 1) }
{
    let answer = fabric::take(board, state);
    let oldest = answer.unwrap_or(NO_ENTRY);
    entry[0] = oldest.master;
    entry[1] = oldest.address;
    entry[2] = description_layout::mark_of(oldest.write);
    common_numbers::number_in(answer)
}
