// A board in a lent array of numbers (rule 1.10), as the library keeps and allocates nothing: each record is read and put at its index.
// specs/Layout.antt says what the numbers mean.
#![tactic(auto)]

ghost use Rattle.std.specs.Prelude.{◌≡◌, ◌<◌, get_or, length, replicate};
ghost use Rattle.description_board.specs.Records.{master_at, slave_at, shares_at};
ghost use Rattle.description_board.specs.Rules.{with_master, with_slave, with_default};
ghost use Rattle.description_layout.specs.Layout.{mark_of, board_length, board_in, numbers_of_board};
ghost use Rattle.description_layout.specs.Code.Puts.{with_share_at};

use common_numbers::{
    BOARD_NUMBERS, DEFAULT_AT, MASTER_NUMBERS, MASTERS_FROM, SHARES_FROM, SLAVE_NUMBERS,
    SLAVES_FROM,
};
use description_board::{Master, Slave};

// The number of a mark (rule 2.4).
#[tactic(auto, unfolding(crate::specs::Layout::mark_of))]
pub fn mark_of(b: bool) -> u32
    ensures { result ≡ mark_of b }
{
    u32::from(b)
}

// The count of masters (rules 1.1, 1.10).
#[tactic(auto, unfolding(crate::specs::Layout::board_in))]
pub fn master_count(board: &[u32; BOARD_NUMBERS]) -> u32
    ensures { result ≡ (board_in board.now).master_count }
{
    board[0]
}

// The count of slaves (rules 1.1, 1.10).
#[tactic(auto, unfolding(crate::specs::Layout::board_in))]
pub fn slave_count(board: &[u32; BOARD_NUMBERS]) -> u32
    ensures { result ≡ (board_in board.now).slave_count }
{
    board[1]
}

// Master m (rules 1.1, 1.10). An index stays a number with its bound as a `requires`, here and in the crates above: a loop over 0..8 or
// 0..16 gives the bound by itself, and a type for it would be made and read back at each use.
#[tactic(auto, using(crate::proofs::BoardLaws::master_read), unfolding(crate::specs::Layout::master_from))]
pub fn master_at(board: &[u32; BOARD_NUMBERS], m: usize) -> Master
    requires { m < 8 }
    ensures { result ≡ master_at (board_in board.now) m }
{
    let p = MASTERS_FROM + MASTER_NUMBERS * m;
    Master {
        width: board[p],
        burst: board[p + 1],
    }
}

// Slave s (rules 1.1, 1.10).
#[tactic(auto, using(crate::proofs::BoardLaws::slave_read), unfolding(crate::specs::Layout::slave_from))]
pub fn slave_at(board: &[u32; BOARD_NUMBERS], s: usize) -> Slave
    requires { s < 16 }
    ensures { result ≡ slave_at (board_in board.now) s }
{
    let p = SLAVES_FROM + SLAVE_NUMBERS * s;
    Slave {
        base: board[p],
        span: board[p + 1],
        width: board[p + 2],
        burst: board[p + 3],
        read_wait: board[p + 4],
        write_wait: board[p + 5],
        native: board[p + 6],
        latency: board[p + 7],
    }
}

// The shares at index i of the 128 (rules 1.8, 1.10).
#[tactic(auto, using(crate::proofs::BoardLaws::share_found))]
pub fn share_in(board: &[u32; BOARD_NUMBERS], i: usize) -> u32
    requires { i < 128 }
    ensures { result ≡ get_or (board_in board.now).shares i 0 }
{
    board[SHARES_FROM + i]
}

// The shares of master m at slave s (rules 1.8, 1.10); 0: not connected.
#[tactic(auto, using(crate::proofs::BoardLaws::share_read))]
pub fn shares_at(board: &[u32; BOARD_NUMBERS], m: usize, s: usize) -> u32
    requires { (m < 8) × (s < 16) }
    ensures { result ≡ shares_at (board_in board.now) m s }
{
    board[SHARES_FROM + (16 * m + s)]
}

// Whether the board has the line `default` (rules 1.10, 1.11).
#[tactic(auto, unfolding(crate::specs::Layout::board_in))]
pub fn default_at(board: &[u32; BOARD_NUMBERS]) -> bool
    ensures { result ≡ (board_in board.now).default_line }
{
    board[DEFAULT_AT] != 0
}

// One master more (rules 1.1, 1.10).
#[tactic(auto, using(crate::proofs::PutLaws::master_put))]
pub fn put_master(board: &mut [u32; BOARD_NUMBERS], width: u32, burst: u32)
    requires { (board_in board.old).master_count < 8 }
    ensures { board_in board.new ≡ with_master (board_in board.old) width burst }
{
    let n = master_count(board);
    let p = MASTERS_FROM + MASTER_NUMBERS * n as usize;
    board[p] = width;
    board[p + 1] = burst;
    board[0] = n + 1;
}

// One slave more (rules 1.1, 1.10).
#[tactic(auto, using(crate::proofs::PutLaws::slave_put))]
pub fn put_slave(board: &mut [u32; BOARD_NUMBERS], s: Slave)
    requires { (board_in board.old).slave_count < 16 }
    ensures { board_in board.new ≡ with_slave (board_in board.old) s }
{
    let n = slave_count(board);
    let p = SLAVES_FROM + SLAVE_NUMBERS * n as usize;
    board[p] = s.base;
    board[p + 1] = s.span;
    board[p + 2] = s.width;
    board[p + 3] = s.burst;
    board[p + 4] = s.read_wait;
    board[p + 5] = s.write_wait;
    board[p + 6] = s.native;
    board[p + 7] = s.latency;
    board[1] = n + 1;
}

// Sets the shares at index i of the 128 (rules 1.8, 1.10).
#[tactic(auto, using(crate::proofs::PutLaws::share_put))]
pub fn put_share_at(board: &mut [u32; BOARD_NUMBERS], i: usize, n: u32)
    requires { i < 128 }
    ensures { board_in board.new ≡ with_share_at (board_in board.old) i n }
{
    board[SHARES_FROM + i] = n;
}

// The line `default` (rules 1.10, 1.11).
#[tactic(auto, using(crate::proofs::PutLaws::default_put))]
pub fn put_default(board: &mut [u32; BOARD_NUMBERS])
    ensures { board_in board.new ≡ with_default (board_in board.old) }
{
    board[DEFAULT_AT] = 1;
}

// A board's numbers, copied as they stand, and its mark, which is put as 0 or 1 (rules 1.10, 2.4).
#[tactic(auto, using(crate::proofs::NumbersLaws::copied))]
pub fn copy(to: &mut [u32; BOARD_NUMBERS], from: &[u32; BOARD_NUMBERS])
    ensures { to.new ≡ numbers_of_board (board_in from.now) }
{
    *to = *from;
    to[DEFAULT_AT] = mark_of(default_at(from));
}

// A board of zeros (rule 8.1).
pub fn clear(board: &mut [u32; BOARD_NUMBERS])
    ensures { board.new ≡ replicate board_length 0 }
{
    *board = [0; BOARD_NUMBERS];
}
