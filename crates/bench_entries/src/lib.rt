// What the benchmark calls of the library beside the calls for C: traffic made in Rattle, so that the calls can be inlined, and the
// table.
#![tactic(auto)]

ghost use Rattle.std.specs.Prelude.{◌<◌};

use common_numbers::{BOARD_NUMBERS, LINES_NUMBERS, MASTERS, STATE_NUMBERS};
use description_board::{Master, Slave};

// The slave that transfer number `index` of master m is for: one slave after another.
fn slave_for(count: u32, m: u32, index: u32) -> usize
    ensures { result < 16 }
{
    if count == 0 {
        return 0;
    }
    ((u64::from(m) + u64::from(index)) % u64::from(count) % 16) as usize
}

// A transfer to post: all but its master, its one beat, and its words, which are zeros.
#[derive(Clone, Copy)]
pub struct Next {
    pub write: bool,
    pub address: u32,
    pub lanes: u32,
    pub length: usize,
}

// A master's transfer number `index`: all lanes at the front of the slave, reads and writes alternate.
fn next_transfer(ma: Master, sl: Slave, index: u32) -> Next
    ensures { result.length < 9 }
{
    let write = index % 2 == 1;
    Next {
        write,
        address: sl.base,
        lanes: fabric_lanes::all_lanes(ma.width.min(8)),
        length: if write { (ma.width % 9) as usize } else { 0 },
    }
}

// Posts transfer number `index` of master m.
fn post_next(
    board: &[u32; BOARD_NUMBERS],
    state: &mut [u32; STATE_NUMBERS],
    buffer: &mut [u8],
    m: u32,
    index: u32,
)
    requires { m < 8 }
{
    let words = [0u8; 8];
    let count = description_layout::slave_count(board);
    let sl = description_layout::slave_at(board, slave_for(count, m, index));
    let ma = description_layout::master_at(board, m as usize);
    let next = next_transfer(ma, sl, index);
    let n = next.length;
    let _ = fabric::post(
        board,
        state,
        buffer,
        m,
        next.write,
        next.address,
        next.lanes,
        1,
        &words[..n],
    );
}

// Posts the next transfer of each master that is idle: bit m of `idle` is master m's.
fn post_idle(
    board: &[u32; BOARD_NUMBERS],
    state: &mut [u32; STATE_NUMBERS],
    buffer: &mut [u8],
    posted: &mut [u32; MASTERS],
    idle: u32,
) {
    for m in 0..description_layout::master_count(board).min(8) {
        if (idle >> m) % 2 == 1 {
            let index = posted[m as usize];
            post_next(board, state, buffer, m, index);
            posted[m as usize] = index.wrapping_add(1);
        }
    }
}

// So many clocks, every master posting again as soon as it is idle; the sum of the masks.
fn clock_all(
    board: &[u32; BOARD_NUMBERS],
    state: &mut [u32; STATE_NUMBERS],
    memory: &mut [u8],
    buffer: &mut [u8],
    clocks: u32,
) -> u32 {
    let mut lines = [0u32; LINES_NUMBERS];
    let mut responses = [0u32; MASTERS];
    let mut posted = [0u32; MASTERS];
    let mut idle: u32 = 255;
    let mut sum: u32 = 0;
    for _ in 0..clocks {
        post_idle(board, state, buffer, &mut posted, idle);
        let answer = fabric::clock(board, state, memory, buffer, &mut lines, &mut responses);
        idle = answer.unwrap_or(0);
        sum = sum.wrapping_add(idle);
    }
    sum
}

// Reads the text, resets and clocks the traffic.
#[unsafe(no_mangle)]
pub extern "C" fn bench_clocks(
    text: &[u8],
    memory: &mut [u8],
    buffer: &mut [u8],
    clocks: u32,
) -> u32 {
    let mut board = [0u32; BOARD_NUMBERS];
    let mut state = [0u32; STATE_NUMBERS];
    let _ = description::read(text, &mut board);
    let _ = fabric::reset(&board, &mut state);
    clock_all(&board, &mut state, memory, buffer, clocks)
}

// The table of a text, as `print_table` makes it; the answer is its length.
#[unsafe(no_mangle)]
pub extern "C" fn bench_table(text: &[u8], out: &mut [u8]) -> usize {
    wait_table::print_table(text, out).unwrap_or(0)
}
