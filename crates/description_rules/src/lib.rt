// What has been read of a description, line by line (rule 8.2): the fold that the reader and the check of a board share.
// The board so far is a lent array of numbers, to which each line that is not refused is added.
#![tactic(auto)]

mod refusals;

ghost use Rattle.std.specs.Prelude.{◌≡◌, true, List, ℕ, ◌+◌, ◌*◌, ltb, replicate};
ghost use Rattle.description_board.specs.declared.Item.TheVariants.{ShareLine};
ghost use Rattle.description_board.specs.Rules.{slave_values, slave_of, start, step, finish};
ghost use Rattle.description_layout.specs.Layout.{board_length};
ghost use Rattle.description_rules.specs.Code.Readings.{reading_of, progress_in, Added};

use common_numbers::{BOARD_NUMBERS, Refusal, TAKEN};
use description_board::{Item, Slave, SlaveNumbers};
pub use refusals::{memory_length, overlaps, share_or_none, without_share};

// The slave of a line whose values are in their lists and ranges (rules 1.3, 1.6). No TryFrom: the test of the values has said that
// they fit, so that nothing is left to refuse.
fn slave_of(n: SlaveNumbers) -> Slave
    requires { slave_values n ≡ true }
    ensures { result ≡ slave_of n }
{
    Slave {
        base: n.base as u32,
        span: n.span as u32,
        width: n.width as u32,
        burst: n.burst as u32,
        read_wait: n.read_wait as u32,
        write_wait: n.write_wait as u32,
        native: n.native as u32,
        latency: n.latency as u32,
    }
}

// Whether the shares of master m at slave s are among the 128 (rule 1.8). The first two tests keep the sum in a u64.
fn in_table(m: u64, s: u64) -> bool
    ensures { result ≡ ltb (16 * m + s) 128 }
{
    m < 8 && s < 128 && 16 * m + s < 128
}

// A share line more, if it is not refused (rules 7.2, 7.3, 7.7, 7.19, 7.21). Past the 128 there are no shares, as in share_or_none.
fn add_share(
    board: &mut [u32; BOARD_NUMBERS],
    above: u64,
    m: u64,
    s: u64,
    shares: u64,
) -> Result<u64, Refusal>
    ensures { Added (reading_of (Ok above) board.old) (ShareLine m s shares) result board.new }
{
    refusals::share_refusal(board, above, m, s, shares)?;
    if in_table(m, s) {
        description_layout::put_share_at(board, (16 * m + s) as usize, shares as u32);
    }
    Ok(refusals::pair_rank(m, s))
}

// A line more, if it is not refused (rules 7.1 to 7.7, 7.19, 7.21): then the rank of its pair, from 1, or 0 if it is no share line
// (rule 1.4); above is that of the line above.
fn add_line(board: &mut [u32; BOARD_NUMBERS], above: u64, x: Item) -> Result<u64, Refusal>
    ensures { Added (reading_of (Ok above) board.old) x result board.new }
{
    match x {
        Item::Malformed => Err(Refusal::BadText),
        Item::MasterLine(width, burst) => {
            refusals::master_refusal(board, width, burst)?;
            description_layout::put_master(board, width as u32, burst as u32);
            Ok(0)
        }
        Item::SlaveLine(n) => {
            refusals::slave_refusal(board, 0 < above, n)?;
            description_layout::put_slave(board, slave_of(n));
            Ok(0)
        }
        Item::ShareLine(m, s, shares) => add_share(board, above, m, s, shares),
        Item::DefaultLine => {
            refusals::default_refusal(board)?;
            description_layout::put_default(board);
            Ok(0)
        }
    }
}

// One line more (rules 7.1 to 7.7, 7.19, 7.21, 8.2), after what the line above was answered. With a refusal the board is all zero (rule
// 8.1), and the refusal stays.
#[tactic(auto, using(crate::proofs::ReadingLaws::step_stopped, crate::proofs::ReadingLaws::step_passed))]
pub fn step(
    board: &mut [u32; BOARD_NUMBERS],
    above: Result<u64, Refusal>,
    x: Item,
) -> Result<u64, Refusal>
    ensures { reading_of result board.new ≡ step (reading_of above board.old) x }
{
    let rank = above?;
    let answer = add_line(board, rank, x);
    if answer.is_err() {
        description_layout::clear(board);
    }
    answer
}

// After the last line (rules 7.2, 7.20, 8.2), likewise.
pub fn finish(board: &mut [u32; BOARD_NUMBERS], above: Result<u64, Refusal>) -> Result<u64, Refusal>
    ensures { reading_of result board.new ≡ finish (reading_of above board.old) }
{
    let rank = above?;
    match refusals::end_refusal(board) {
        Ok(()) => Ok(rank),
        Err(refusal) => {
            description_layout::clear(board);
            Err(refusal)
        }
    }
}

// What has been read, as a caller keeps it that has numbers alone: the refusal's number or 0, and the rank of the pair on the line
// above, from 1; 0 if that is no share line (rules 1.4, 8.2). The number may be none of a refusal.
#[derive(Clone, Copy)]
pub struct Progress {
    pub number: u32,
    pub above: u64,
}

// What a line, or the end, was answered, by numbers.
#[tactic(auto, using(crate::proofs::ProgressLaws::told_is))]
fn told(answer: Result<u64, Refusal>) -> Progress
    ensures { (l : List ℕ) → progress_in result l ≡ reading_of answer l }
{
    Progress {
        number: common_numbers::number_in(answer),
        above: answer.unwrap_or(0),
    }
}

impl Progress {
    // Before the first line (rule 8.2). The board is an array of zeros then.
    #[tactic(auto, using(crate::proofs::ProgressLaws::of_start))]
    pub fn start() -> Progress
        ensures { progress_in result (replicate board_length 0) ≡ start }
    {
        Progress {
            number: TAKEN,
            above: 0,
        }
    }

    // One line more, as `step`.
    pub fn step(self, board: &mut [u32; BOARD_NUMBERS], x: Item) -> Progress
        ensures { progress_in result board.new ≡ step (progress_in self board.old) x }
    {
        if self.number == TAKEN {
            told(step(board, Ok(self.above), x))
        } else {
            self
        }
    }

    // After the last line, as `finish`.
    pub fn finish(self, board: &mut [u32; BOARD_NUMBERS]) -> Progress
        ensures { progress_in result board.new ≡ finish (progress_in self board.old) }
    {
        if self.number != TAKEN {
            return self;
        }
        told(finish(board, Ok(self.above)))
    }
}
