// The calls that look up wait and serve of a pair: one on a board, one on a text (rules 5.5, 5.7, 5.8).
#![tactic(auto)]

ghost use Rattle.std.specs.Prelude.{◌≡◌, ◌++◌, ◌≤◌, length};
ghost use Rattle.common_numbers.specs.Refusals.{refusal_in};
ghost use Rattle.common_text.specs.Code.Scanning.{Put};
ghost use Rattle.description_board.specs.Legal.{Legal};
ghost use Rattle.description_layout.specs.Layout.{board_in};
ghost use Rattle.wait.specs.Answers.{bytes64, pair_refusal, wait_refusal, wait_output};
ghost use Rattle.wait.specs.Calls.{quoted_in, quote_of};

use common_numbers::{BOARD_NUMBERS, Refusal};
use common_text::Writer;
use wait_turns::Quote;

// Writes wait and serve, 8 bytes each, the lowest first (rule 5.8).
fn put_figures(out: &mut [u8], q: Quote) -> usize
    requires { 16 ≤ length out.old }
    ensures { Put out.old 0 (bytes64 q.wait ++ bytes64 q.serve) out.new result }
{
    let wait = q.wait.to_le_bytes();
    let serve = q.serve.to_le_bytes();
    let mut writer = Writer { out, at: 0 };
    writer.put_bytes(&wait);
    writer.put_bytes(&serve);
    writer.at
}

// What a pair of a legal board that a wait is looked up for is refused for (rules 7.11, 7.16).
#[tactic(auto, using(crate::proofs::LookUpLaws::pair_past, crate::proofs::LookUpLaws::pair_outside, crate::proofs::LookUpLaws::pair_apart, crate::proofs::LookUpLaws::pair_found))]
fn pair_refusal(board: &[u32; BOARD_NUMBERS], m: u32, s: u32) -> Result<(), Refusal>
    requires { Legal (board_in board.now) }
    ensures { refusal_in result ≡ pair_refusal (board_in board.now) m s }
{
    if description_layout::master_count(board) <= m {
        return Err(Refusal::NoMaster);
    }
    if description_layout::slave_count(board) <= s {
        return Err(Refusal::NotConnected);
    }
    if description_layout::shares_at(board, m as usize, s as usize) == 0 {
        return Err(Refusal::NotConnected);
    }
    Ok(())
}

// Wait and serve of a pair of a board (rules 5.5, 5.7). The board need not come from the reader: it is judged first (rule 8.5).
#[tactic(auto, using(crate::proofs::LookUpLaws::quote_board, crate::proofs::LookUpLaws::quote_pair, crate::proofs::LookUpLaws::pair_accepted, crate::proofs::LookUpLaws::quote_taken))]
pub fn quote_of(board: &[u32; BOARD_NUMBERS], master: u32, slave: u32) -> Result<Quote, Refusal>
    ensures { quoted_in result ≡ quote_of (board_in board.now) master slave }
{
    description_check::board_refusal(board)?;
    pair_refusal(board, master, slave)?;
    Ok(wait_turns::figures_of(board, master, slave))
}

// Wait and serve of master m at slave s of the board that a text describes, as 16 bytes at the front of out (rules 5.8, 8.6). If it
// is refused, out is as it was (rules 7.10, 8.1, 8.4).
pub fn wait_call(text: &[u8], master: u32, slave: u32, out: &mut [u8]) -> Result<(), Refusal>
    ensures value { refusal_in result ≡ wait_refusal text.now master slave out.old }
    ensures out_after { out.new ≡ wait_output text.now master slave out.old }
{
    let mut board = [0; BOARD_NUMBERS];
    description::read(text, &mut board)?;
    if out.len() < 16 {
        return Err(Refusal::ShortOutput);
    }
    pair_refusal(&board, master, slave)?;
    let q = wait_turns::figures_of(&board, master, slave);
    put_figures(out, q);
    Ok(())
}
