// Descriptions: a text to a board in a lent array, and a board to its text (rules 1.2 to 1.10).
#![tactic(auto)]

ghost use Rattle.std.specs.Prelude.{◌≡◌, ◌≤◌, length, replicate, IfErr};
ghost use Rattle.common_numbers.specs.Refusals.{refusal_in};
ghost use Rattle.common_text.specs.Code.Scanning.{Put};
ghost use Rattle.description_board.specs.Items.{board_refusal};
ghost use Rattle.description_layout.specs.Layout.{board_length, board_in};
ghost use Rattle.description.specs.Reader.{reading};
ghost use Rattle.description.specs.Blame.{charged_line, named_master, refused_at, charge_of, charged_by};
ghost use Rattle.description.specs.Lent.{Read};
ghost use Rattle.description.specs.Code.Reading.{named, Comes, LinesCome};
ghost use Rattle.description.specs.Writer.{write_text, write_answer, written_of, write_output};

use common_numbers::{BOARD_NUMBERS, Refusal, TEXT_BYTES};
use common_text::Writer;
use description_board::Board;

// No accepted board's text has more bytes (rules 1.3, 1.6): 8 master lines of 12, 16 slave lines of 41, 128 share lines of 15, the line
// `default` of 8.
pub const LONGEST: usize = 8 * 12 + 16 * 41 + 128 * 15 + 8;

// What the definitions say a text is read to: a refusal's number with the zero board, or 0 and the board (rule 8.1). No code makes
// one.
#[derive(Clone, Copy)]
pub struct Parsed {
    pub number: u32,
    pub board: Board,
}

// What is charged with a refusal (rule 8.3): a line, from 1; with NoShare the lowest master that has no share line; or the text.
#[derive(Clone, Copy, PartialEq, Eq)]
pub enum Charged {
    Line(usize),
    Master(u32),
    Text,
}

// A refusal of a text, and what is charged with it (rule 8.3).
#[derive(Clone, Copy, PartialEq, Eq)]
pub struct Blame {
    pub refusal: Refusal,
    pub charged: Charged,
}

// What a refusal at the end is charged to (rule 8.3): with 20 the lowest master that has no share line.
fn named(refusal: Refusal, lowest: u32) -> Blame
    ensures { result ≡ named refusal lowest }
{
    let charged = match refusal {
        Refusal::NoShare => Charged::Master(lowest),
        _ => Charged::Text,
    };
    Blame { refusal, charged }
}

// The lines of a text one after another, counted, up to the first that is refused (rules 8.2, 8.3): a later line cannot change the
// answer. The board is read into an array of zeros. If finish refuses it, it is zeros again: so the master that 20 names is looked
// for before. No `for`: where a line starts is known only after the line before it is read.
fn read_lines(text: &[u8], board: &mut [u32; BOARD_NUMBERS]) -> Result<(), Blame>
    requires { board.old ≡ replicate board_length 0 }
    ensures { LinesCome text.now board.new result }
{
    let mut above = 0;
    let mut line = 0;
    let mut at = 0;
    while at < text.len() {
        let found = description_lines::line_from(text, at);
        line += 1;
        match description_rules::step(board, Ok(above), found.item) {
            Ok(rank) => above = rank,
            Err(refusal) => {
                let charged = Charged::Line(line);
                return Err(Blame { refusal, charged });
            }
        }
        at = found.next;
    }
    let lowest = description_rules::without_share(board);
    match description_rules::finish(board, Ok(above)) {
        Ok(_) => Ok(()),
        Err(refusal) => Err(named(refusal, lowest)),
    }
}

// The length first (rule 8.2): a text that is too long is refused before a byte of it is read.
fn read_bounded(text: &[u8], board: &mut [u32; BOARD_NUMBERS]) -> Result<(), Blame>
    requires { board.old ≡ replicate board_length 0 }
    ensures { Comes (reading text.now) (charged_line text.now) (named_master text.now)
        board.new result }
{
    if text.len() <= TEXT_BYTES {
        return read_lines(text, board);
    }
    Err(Blame {
        refusal: Refusal::BadText,
        charged: Charged::Text,
    })
}

// Reads the board that a text describes, or answers what the text is refused for (rules 7.1 to 7.7, 7.19 to 7.21, 8.2): then no
// number of board is changed (rule 8.1).
pub fn read(text: &[u8], board: &mut [u32; BOARD_NUMBERS]) -> Result<(), Refusal>
    ensures { Read text.now board.old board.new (refusal_in result) }
{
    let mut own = [0; BOARD_NUMBERS];
    match read_bounded(text, &mut own) {
        Ok(()) => {
            description_layout::copy(board, &own);
            Ok(())
        }
        Err(blame) => Err(blame.refusal),
    }
}

// What read refuses a text for, and what is charged with it (rule 8.3).
pub fn refused_at(text: &[u8]) -> Result<(), Blame>
    ensures charge { charge_of result ≡ refused_at text.now }
    ensures charged { IfErr result (λ b. b.charged ≡ charged_by (refused_at text.now)) }
{
    let mut own = [0; BOARD_NUMBERS];
    read_bounded(text, &mut own)
}

// Writes the text of a board at the front of out (rule 1.9), entry by entry; an entry with no line has no bytes.
fn put_board(out: &mut [u8], board: &[u32; BOARD_NUMBERS]) -> usize
    requires { length (write_text (board_in board.now)) ≤ length out.old }
    ensures { Put out.old 0 (write_text (board_in board.now)) out.new result }
{
    let n = description_check::entry_count(board);
    let mut writer = Writer { out, at: 0 };
    for k in 0..n {
        if let Some(item) = description_check::line_at(board, k) {
            description_lines::put_item(&mut writer, item);
        }
    }
    writer.at
}

// How many bytes put_board writes (rule 1.9) for a board that is accepted: then it has few entries.
fn board_length(board: &[u32; BOARD_NUMBERS]) -> usize
    requires { board_refusal (board_in board.now) ≡ 0 }
    ensures { result ≡ length (write_text (board_in board.now)) }
{
    let n = description_check::entry_count(board);
    let mut sum: usize = 0;
    for k in 0..n {
        if let Some(item) = description_check::line_at(board, k) {
            sum += description_lines::item_length(item);
        }
    }
    sum
}

// Writes a board's text (rules 1.9, 8.6), if the board is not refused (rule 8.5) and its text has room (rule 7.10): otherwise no
// byte of out is changed (rule 8.1). The length is known before the first byte is written. An output of LONGEST bytes has room
// for every board.
pub fn write(board: &[u32; BOARD_NUMBERS], out: &mut [u8]) -> Result<usize, Refusal>
    ensures answer { written_of result ≡ write_answer (board_in board.now) out.old }
    ensures output { out.new ≡ write_output (board_in board.now) out.old }
    ensures room { LONGEST ≤ length out.old
        → refusal_in result ≡ board_refusal (board_in board.now) }
{
    description_check::board_refusal(board)?;
    let length = board_length(board);
    if out.len() < length {
        return Err(Refusal::ShortOutput);
    }
    Ok(put_board(out, board))
}
