// The table of a board: one line for each connected pair (rule 5.9).
#![tactic(auto)]

ghost use Rattle.std.specs.Prelude.{◌≡◌, ◌+◌, ◌≤◌, ◌<◌, length};
ghost use Rattle.common_numbers.specs.Refusals.{refusal_in};
ghost use Rattle.common_text.specs.Code.Scanning.{Put, HasRoom, Wrote};
ghost use Rattle.description_board.specs.Legal.{Legal};
ghost use Rattle.description_layout.specs.Layout.{board_in};
ghost use Rattle.description.specs.Reader.{read_text};
ghost use Rattle.wait_turns.specs.Code.Pairs.{PairOf, slave_turns};
ghost use Rattle.wait_table.specs.Tables.{pair_line, pair_lines, table_text, print_answer, print_output};
ghost use Rattle.wait_table.specs.Tables.{printed_in, printed, page_output};
ghost use Rattle.wait_table.specs.Code.PairLines.{quote_line, master_lines, Summed};

use common_numbers::{BOARD_NUMBERS, Refusal, SLAVES};
use common_text::Writer;
use wait_turns::{Quote, Turns};

// Writes the table's line of a pair (rule 5.9).
fn put_quote(writer: &mut Writer<'_>, m: u32, s: u32, q: Quote)
    requires { HasRoom writer.old (quote_line m s q) }
    ensures { Wrote writer.old (quote_line m s q) writer.new }
{
    let numbers = [u64::from(s), q.wait, q.serve];
    writer.put_number(u64::from(m));
    writer.put_fields(&numbers);
    writer.put_end();
}

// Writes the line of master m at slave s, where they are connected (rule 5.9), by the turns there.
#[tactic(auto, using(crate::proofs::TableLines::line_none, crate::proofs::TableLines::line_some, common_text::proofs::Puts::wrote_none))]
fn put_pair(writer: &mut Writer<'_>, board: &[u32; BOARD_NUMBERS], t: Turns, m: u32, s: u32)
    requires pair_of { PairOf (board_in board.now) m s × (t ≡ slave_turns (board_in board.now) s) }
    requires s_in_bounds { HasRoom writer.old (pair_line (board_in board.now) m s) }
    ensures { Wrote writer.old (pair_line (board_in board.now) m s) writer.new }
{
    if description_layout::shares_at(board, m as usize, s as usize) == 0 {
        return;
    }
    let q = wait_turns::figures_by(board, t, m, s);
    put_quote(writer, m, s, q);
}

// The turns of each slave (rules 5.1, 5.6, 5.7), added up once for all masters. The array has a place for each slave that a board can
// have: it is gone through by the board's own count, and what stands after that is zeros.
fn add_turns(board: &[u32; BOARD_NUMBERS]) -> [Turns; SLAVES]
    requires { Legal (board_in board.now) }
    ensures { Summed (board_in board.now) (board_in board.now).slave_count result }
{
    let mut turns = [Turns {
        single: 0,
        v: 0,
        sum: 0,
    }; SLAVES];
    for s in 0..description_layout::slave_count(board) {
        turns[s as usize] = wait_turns::slave_turns(board, s);
    }
    turns
}

// Writes the lines of master m, slave after slave (rule 5.9).
#[tactic(auto, using(crate::proofs::TableLines::lines_room))]
fn put_master_lines(
    writer: &mut Writer<'_>,
    board: &[u32; BOARD_NUMBERS],
    turns: &[Turns; SLAVES],
    m: u32,
)
    requires legal { Legal (board_in board.now) × (m < (board_in board.now).master_count) }
    requires summed { Summed (board_in board.now) (board_in board.now).slave_count turns.now }
    requires m_in_bounds { HasRoom writer.old (master_lines (board_in board.now) m) }
    ensures { Wrote writer.old (master_lines (board_in board.now) m) writer.new }
{
    for s in 0..description_layout::slave_count(board) {
        put_pair(writer, board, turns[s as usize], m, s);
    }
}

// Writes the lines of all pairs, master after master (rule 5.9).
#[tactic(auto, using(crate::proofs::TableLines::pairs_room))]
fn put_pairs(writer: &mut Writer<'_>, board: &[u32; BOARD_NUMBERS])
    requires legal { Legal (board_in board.now) }
    requires board_in_bounds { HasRoom writer.old (pair_lines (board_in board.now)) }
    ensures { Wrote writer.old (pair_lines (board_in board.now)) writer.new }
{
    let turns = add_turns(board);
    for m in 0..description_layout::master_count(board) {
        put_master_lines(writer, board, &turns, m);
    }
}

// No accepted board's table has more bytes: the first line's 24, and for each of 8 masters 10 lines of 19 (a slave of one digit)
// and 6 of 20.
pub const LONGEST_TABLE: usize = 24 + 8 * (10 * 19 + 6 * 20);

// Writes a board's table at the front of out (rule 5.9).
fn put_table(out: &mut [u8], board: &[u32; BOARD_NUMBERS]) -> usize
    requires legal { Legal (board_in board.now) }
    requires board_in_bounds { length (table_text (board_in board.now)) ≤ length out.old }
    ensures { Put out.old 0 (table_text (board_in board.now)) out.new result }
{
    let mut writer = Writer { out, at: 0 };
    writer.put_bytes(b"master,slave,wait,serve\n");
    put_pairs(&mut writer, board);
    writer.at
}

// The table of the board that a text describes, at the front of out, and the count of its bytes (rules 5.9, 8.6). It is made aside,
// in an array since nothing is allocated, so that out stays as it was if it is too short (rules 7.10, 8.1). An output of LONGEST_TABLE
// bytes has room for every table.
#[tactic(auto, using(crate::proofs::PrintLaws::refused_answer, crate::proofs::PrintLaws::refused_output, common_numbers::proofs::RefusalLaws::refusal_positive))]
pub fn print_table(text: &[u8], out: &mut [u8]) -> Result<usize, Refusal>
    ensures answer { printed_in result ≡ print_answer text.now out.old }
    ensures output { out.new ≡ print_output text.now out.old }
    ensures room { LONGEST_TABLE ≤ length out.old → refusal_in result ≡ (read_text text.now).number }
{
    let mut board = [0; BOARD_NUMBERS];
    description::read(text, &mut board)?;
    let mut page = [0; LONGEST_TABLE];
    let n = put_table(&mut page, &board);
    if out.len() < n {
        return Err(Refusal::ShortOutput);
    }
    out[..n].copy_from_slice(&page[..n]);
    Ok(n)
}

// What the table program prints for a text, at the front of the page (rules 5.9, 8.6): the table, or the line that says what the
// text is refused with. The answer is the count of its bytes; those after it stay.
pub fn print_page(text: &[u8], page: &mut [u8; LONGEST_TABLE]) -> usize
    ensures answer { result ≡ length (printed text.now) }
    ensures output { page.new ≡ page_output text.now page.old }
{
    match print_table(text, page) {
        Ok(length) => length,
        Err(refusal) => {
            let numbers = [u64::from(refusal.number())];
            let mut writer = Writer { out: page, at: 0 };
            writer.put_line(b"refused", &numbers);
            writer.at
        }
    }
}
