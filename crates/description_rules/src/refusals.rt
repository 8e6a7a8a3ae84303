// What a line of a description is refused for after what has been read (rules 7.2 to 7.7, 7.19, 7.21), and what is refused after the
// last line (rules 7.2, 7.20).
// Tests are joined by & and |, not by && and ||: each part is safe by itself, and a proof meets the whole as one test.
// The board read so far is lent as its array of numbers: see description_layout.
ghost use Rattle.std.specs.Prelude.{◌≡◌, ◌≤◌, ◌+◌, take, get_or, OnOk};
ghost use Rattle.common_numbers.specs.Refusals.{refusal_in};
ghost use Rattle.description_board.specs.Records.{master_at, slave_at, total_span, memory_length};
ghost use Rattle.description_board.specs.Rules.{slave_values, meets, overlaps, too_narrow};
ghost use Rattle.description_board.specs.Rules.{master_refusal, slave_refusal, pair_rank, share_refusal, default_refusal};
ghost use Rattle.description_board.specs.Rules.{has_share, without_share, end_refusal};
ghost use Rattle.description_layout.specs.Layout.{board_in};

use common_numbers::{
    BOARD_NUMBERS, MEMORY_BYTES, MOST_BASE, MOST_LATENCY, MOST_NATIVE, MOST_SHARES, MOST_WAIT,
    Refusal, SLAVES,
};
use description_board::{Slave, SlaveNumbers};

// The legal widths, in bytes (rule 1.6). These lists are of u64, as the numbers of a line are.
const WIDTHS: [u64; 4] = [1, 2, 4, 8];

// The legal bursts, in words (rule 1.6).
const BURSTS: [u64; 7] = [1, 2, 4, 8, 16, 32, 64];

// The legal spans, in bytes (rule 1.6).
const SPANS: [u64; 14] = [
    8, 16, 32, 64, 128, 256, 512, 1024, 2048, 4096, 8192, 16384, 32768, 65536,
];

// Whether every value of a slave line is in its list or range (rule 1.6).
#[tactic(auto, using(crate::proofs::Contained::listed), unfolding(description_board::specs::Rules::slave_values))]
fn slave_values(n: SlaveNumbers) -> bool
    ensures { result ≡ slave_values n }
{
    let last = (n.native <= MOST_NATIVE) & (n.latency <= MOST_LATENCY);
    let limits = (n.read_wait <= MOST_WAIT) & ((n.write_wait <= MOST_WAIT) & last);
    let lists = WIDTHS.contains(&n.width) & (BURSTS.contains(&n.burst) & limits);
    (n.base <= MOST_BASE) & (SPANS.contains(&n.span) & lists)
}

// Whether the span at base and that of slave s have an address in common (rule 1.7). An end can pass the last address: it is a
// u64.
#[tactic(auto, unfolding(description_board::specs::Rules::meets))]
fn meets(base: u32, span: u32, s: Slave) -> bool
    ensures { result ≡ meets base span s }
{
    let s_end = u64::from(s.base) + u64::from(s.span);
    let end = u64::from(base) + u64::from(span);
    (u64::from(base) < s_end) & (u64::from(s.base) < end)
}

// Whether the span at base has an address in common with one of the first n slaves (rules 1.7, 7.5).
pub fn overlaps(board: &[u32; BOARD_NUMBERS], n: usize, base: u32, span: u32) -> bool
    requires { n ≤ 16 }
    ensures { result ≡ overlaps base span (take n (board_in board.now).slaves) }
{
    for i in 0..n {
        if meets(base, span, description_layout::slave_at(board, i)) {
            return true;
        }
    }
    false
}

// The spans of the first n slaves, and one span more, together (rules 1.7, 2.1): at most 17 u32, so no sum wraps.
fn total_span(board: &[u32; BOARD_NUMBERS], n: usize, span: u32) -> u64
    requires { n ≤ 16 }
    ensures { result ≡ total_span (take n (board_in board.now).slaves) + span }
{
    let mut total = u64::from(span);
    for i in 0..n {
        total += u64::from(description_layout::slave_at(board, i).span);
    }
    total
}

// The bytes of the memory (rule 2.1). The count of a board that no reader made can be any number; its array has 16 slaves.
pub fn memory_length(board: &[u32; BOARD_NUMBERS]) -> u64
    ensures { result ≡ memory_length (board_in board.now) }
{
    let count = description_layout::slave_count(board) as usize;
    total_span(board, count.min(SLAVES), 0)
}

// What a master line is refused for (rules 7.2, 7.3).
pub fn master_refusal(board: &[u32; BOARD_NUMBERS], width: u64, burst: u64) -> Result<(), Refusal>
    ensures { refusal_in result ≡ master_refusal (board_in board.now) width burst }
{
    let masters = description_layout::master_count(board);
    let slaves = description_layout::slave_count(board);
    if (0 < slaves) | (8 <= masters) {
        return Err(Refusal::BadOrder);
    }
    if !(WIDTHS.contains(&width) & BURSTS.contains(&burst)) {
        return Err(Refusal::BadValue);
    }
    Ok(())
}

// What a slave line is refused for after lines of which the last was a share line or not (rules 7.2 to 7.6). The board has the
// line `default` only if that stands above.
pub fn slave_refusal(
    board: &[u32; BOARD_NUMBERS],
    sharing: bool,
    n: SlaveNumbers,
) -> Result<(), Refusal>
    ensures { refusal_in result ≡ slave_refusal (board_in board.now) sharing n }
{
    let masters = description_layout::master_count(board);
    let slaves = description_layout::slave_count(board);
    let after = description_layout::default_at(board);
    if (masters == 0) | (sharing | (after | (16 <= slaves))) {
        return Err(Refusal::BadOrder);
    }
    if !slave_values(n) {
        return Err(Refusal::BadValue);
    }
    if n.base % n.span != 0 {
        return Err(Refusal::BadBase);
    }
    if overlaps(board, slaves as usize, n.base as u32, n.span as u32) {
        return Err(Refusal::Overlap);
    }
    if MEMORY_BYTES < total_span(board, slaves as usize, n.span as u32) {
        return Err(Refusal::SpanTotal);
    }
    Ok(())
}

// The shares at an index of the 128 (rule 1.8); 0 past them, where the counts of a board that no reader made can lead.
#[tactic(auto, using(description_layout::proofs::BoardLaws::shares_length))]
pub fn share_or_none(board: &[u32; BOARD_NUMBERS], at: u64) -> u32
    ensures { result ≡ get_or (board_in board.now).shares at 0 }
{
    if at < 128 {
        description_layout::share_in(board, at as usize)
    } else {
        0
    }
}

// The width of master m (rule 1.3); 0 past the array.
#[tactic(auto, using(description_layout::proofs::BoardLaws::masters_length))]
fn width_or_none(board: &[u32; BOARD_NUMBERS], m: u64) -> u32
    ensures { result ≡ (master_at (board_in board.now) m).width }
{
    if m < 8 {
        description_layout::master_at(board, m as usize).width
    } else {
        0
    }
}

// Whether slave s has native alignment and master m is narrower (rule 7.19). No slave past the array has it.
fn too_narrow(board: &[u32; BOARD_NUMBERS], m: u64, s: u64) -> bool
    ensures { result ≡ too_narrow (master_at (board_in board.now) m) (slave_at (board_in board.now) s) }
{
    if s < 16 {
        let slave = description_layout::slave_at(board, s as usize);
        return (slave.native == 1) & (width_or_none(board, m) < slave.width);
    }
    false
}

// The rank of a pair by master, then slave, from 1 (rules 1.4, 1.9).
#[tactic(auto, unfolding(description_board::specs::Rules::pair_rank))]
pub fn pair_rank(m: u64, s: u64) -> u64
    requires { (m ≤ 4294967295) × (s ≤ 4294967295) }
    ensures { result ≡ pair_rank m s }
{
    16 * m + s + 1
}

// What a share line is refused for (rules 7.2, 7.3, 7.7, 7.19, 7.21); above is the rank of the pair on the line above. A pair
// that is not refused is one of the board's, whose counts have 32 bits.
pub fn share_refusal(
    board: &[u32; BOARD_NUMBERS],
    above: u64,
    m: u64,
    s: u64,
    shares: u64,
) -> Result<(), Refusal>
    ensures number { refusal_in result ≡ share_refusal (board_in board.now) above m s shares }
    ensures pair { OnOk result ((m ≤ 4294967295) × (s ≤ 4294967295)) }
{
    let masters = description_layout::master_count(board);
    let slaves = description_layout::slave_count(board);
    let after = description_layout::default_at(board);
    if (slaves == 0) | after {
        return Err(Refusal::BadOrder);
    }
    if (shares < 1) | (MOST_SHARES < shares) {
        return Err(Refusal::BadValue);
    }
    if u64::from(masters) <= m {
        return Err(Refusal::BadShare);
    }
    if u64::from(slaves) <= s {
        return Err(Refusal::BadShare);
    }
    if 0 < share_or_none(board, 16 * m + s) {
        return Err(Refusal::BadShare);
    }
    if too_narrow(board, m, s) {
        return Err(Refusal::TooNarrow);
    }
    if pair_rank(m, s) < above {
        return Err(Refusal::ShareOrder);
    }
    Ok(())
}

// What the line `default` is refused for (rule 7.2).
#[tactic(auto, unfolding(description_board::specs::Rules::default_refusal))]
pub fn default_refusal(board: &[u32; BOARD_NUMBERS]) -> Result<(), Refusal>
    ensures { refusal_in result ≡ default_refusal (board_in board.now) }
{
    let slaves = description_layout::slave_count(board);
    let second = description_layout::default_at(board);
    if (slaves == 0) | second {
        return Err(Refusal::BadOrder);
    }
    Ok(())
}

// Whether master m has a share line (rule 1.8); none past the array has.
fn has_share(board: &[u32; BOARD_NUMBERS], m: u32) -> bool
    ensures { result ≡ has_share (board_in board.now) m }
{
    let slaves = description_layout::slave_count(board);
    for s in 0..16 {
        let x = share_or_none(board, 16 * u64::from(m) + u64::from(s));
        if (s < slaves) & (0 < x) {
            return true;
        }
    }
    false
}

// The lowest master that has no share line, and the count of masters if each has one (rules 7.20, 8.3). No Option: the count is what
// the definition has, `first`, and one comparison with it tells the check of each clock all that it asks.
pub fn without_share(board: &[u32; BOARD_NUMBERS]) -> u32
    ensures { result ≡ without_share (board_in board.now) }
{
    let masters = description_layout::master_count(board);
    for m in 0..masters {
        if !has_share(board, m) {
            return m;
        }
    }
    masters
}

// What is refused after the last line (rules 7.2, 7.20).
#[tactic(auto, using(description_board::proofs::EndLaws::end_short, description_board::proofs::EndLaws::end_lacks, description_board::proofs::EndLaws::end_whole))]
pub fn end_refusal(board: &[u32; BOARD_NUMBERS]) -> Result<(), Refusal>
    ensures { refusal_in result ≡ end_refusal (board_in board.now) }
{
    let masters = description_layout::master_count(board);
    let slaves = description_layout::slave_count(board);
    if (masters == 0) | (slaves == 0) {
        return Err(Refusal::BadOrder);
    }
    if without_share(board) < masters {
        return Err(Refusal::NoShare);
    }
    Ok(())
}
