// Reads records from standard input, each a decimal length, a line feed and that many bytes of a description. Prints for
// each the number that the reader answers and, where that is 0, the writer's text of the board. A damaged record ends it. Where
// the input cannot be read, or the answers cannot be printed, standard error says so.
#![tactic(auto)]

ghost use Rattle.std.specs.Prelude.{◌≡◌, ◌+◌, ◌≤◌, length, IfSome};

use common_numbers::{BOARD_NUMBERS, TEXT_ROOM};
use common_text::Writer;
use program_streams::Outcome;

// The bytes of a piece of the input, and of what is printed at once.
const PIECE: usize = 65536;

// The input. Of the piece that was read last the bytes from `at` up to `end` are still to be taken. `last`: no further piece is
// to be read, since the input has ended or cannot be read: a mark alone, since a failed read is reported at once.
#[derive(Drop)]
struct Input {
    piece: [u8; PIECE],
    at: usize,
    end: usize,
    last: bool,
    ghost in_piece: { end ≤ 65536 },
}

impl Input {
    // Nothing is read.
    fn new() -> Input {
        Input {
            piece: [0; PIECE],
            at: 0,
            end: 0,
            last: false,
        }
    }

    // Reads the next piece.
    fn refill(&mut self, rt: &HostRuntime) {
        let got = program_streams::read_all(rt, &mut rt.stdin(), &mut self.piece);
        self.at = 0;
        self.end = got.end;
        self.last = matches!(got.outcome, Outcome::Ended);
        if let Outcome::Failed(error) = got.outcome {
            program_streams::report(rt, b"texts", b"standard input", &error);
            self.end = 0;
            self.last = true;
        }
    }

    // Takes a byte, if there is one: a piece that is used up gives way to the next.
    fn next(&mut self, rt: &HostRuntime) -> Option<u8> {
        if self.end <= self.at && !self.last {
            self.refill(rt);
        }
        let byte = self.piece[..self.end].get(self.at).copied()?;
        self.at += 1;
        Some(byte)
    }
}

// The most bytes of the line of a record's length: ten digits and the line feed.
const HEAD_BYTES: usize = 11;

// Takes the line of a record's length. One that the input ends in is no length.
fn take_head(rt: &HostRuntime, input: &mut Input) -> Option<u64> {
    let mut line = [0u8; HEAD_BYTES];
    for kept in 0..HEAD_BYTES {
        let byte = input.next(rt)?;
        if byte == b'\n' {
            return common_text::number_of(&line[..kept]);
        }
        line[kept] = byte;
    }
    None
}

// Takes a text of `size` bytes, if the input has the whole of it, and keeps the first of them, as many as there is room for. The
// answer is their number.
fn take_body(rt: &HostRuntime, input: &mut Input, size: u64, into: &mut [u8]) -> Option<usize>
    ensures { IfSome result (λ kept. kept ≤ length into.new) }
{
    let mut kept = 0;
    for _ in 0..size {
        let byte = input.next(rt)?;
        if kept < into.len() {
            into[kept] = byte;
            kept += 1;
        }
    }
    Some(kept)
}

// Room for every answer: a short line, and a description of TEXT_BYTES.
const ANSWER_ROOM: usize = 8300;

// Puts the answer for a description into the output from `at` on; the answer is the position after it. A board that was read is
// one that the writer takes, and its text is no longer than the record's, so that the room is enough. The output and the position are
// two fields of `Output`, lent by themselves: what is written last is a part of the output, and no line of a `Writer`.
fn put_answer(out: &mut [u8], at: usize, record: &[u8]) -> usize
    requires { at + 8300 ≤ length out.old }
    ensures { result ≤ length out.old }
{
    let mut board = [0; BOARD_NUMBERS];
    let mut writer = Writer { out, at };
    match description::read(record, &mut board) {
        Ok(()) => {
            writer.put_line(b"read", &[0]);
            let next = writer.at;
            next + description::write(&board, &mut writer.out[next..]).unwrap_or(0)
        }
        Err(refusal) => {
            writer.put_line(b"read", &[u64::from(refusal.number())]);
            writer.at
        }
    }
}

// The answers that are still to be printed.
#[derive(Drop)]
struct Output {
    room: [u8; PIECE],
    filled: usize,
    ghost in_room: { filled ≤ 65536 },
}

impl Output {
    fn new() -> Output {
        Output {
            room: [0; PIECE],
            filled: 0,
        }
    }

    // Prints what is filled. Whether standard output took it.
    fn flush(&mut self, rt: &HostRuntime) -> bool
        ensures { self.new.filled ≡ 0 }
    {
        let filled = self.filled;
        self.filled = 0;
        program_options::print(rt, b"texts", &self.room[..filled])
    }

    // The same if an answer might find no room after it.
    fn make_room(&mut self, rt: &HostRuntime) -> bool
        ensures { self.new.filled + 8300 ≤ 65536 }
    {
        ANSWER_ROOM <= PIECE - self.filled || self.flush(rt)
    }
}

// Takes one record and puts its answer. `record` is where its text is kept. None: there is no further one, or standard output does
// not take the answers.
fn answer_record(
    rt: &HostRuntime,
    input: &mut Input,
    record: &mut [u8],
    output: &mut Output,
) -> Option<()> {
    let size = take_head(rt, input)?;
    let kept = take_body(rt, input, size, record)?;
    if !output.make_room(rt) {
        return None;
    }
    let at = output.filled;
    output.filled = put_answer(&mut output.room, at, &record[..kept]);
    Some(())
}

// Answers every record, up to the input's end. Nothing says that an input ends, so the records are as many as no input has. Of a
// record one byte more is kept than a description may have, so that a longer one is refused by its length.
fn main(rt: HostRuntime) {
    let mut input = Input::new();
    let mut record = [0u8; TEXT_ROOM];
    let mut output = Output::new();
    for _ in 0..u64::MAX {
        if answer_record(&rt, &mut input, &mut record, &mut output).is_none() {
            break;
        }
    }
    output.flush(&rt);
}
