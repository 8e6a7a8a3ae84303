// What each line of a script does.
ghost use Rattle.std.specs.Prelude.{◌≡◌, ◌<◌, length};
ghost use Rattle.program_script.specs.Lent.{Within};

use common_numbers::{
    BOARD_NUMBERS, BUFFER_BYTES, LINES_NUMBERS, MASTERS, MEMORY_BYTES, Refusal, STATE_NUMBERS,
    number_in,
};
use fabric_state::NO_ENTRY;
use program_answers::Console;
use program_lines::{Next, Problem, Reader};
use program_script::{BUFFER_ROOM, Command, INPUT, Kind, Lending, MEMORY_ROOM};
use wait_turns::Quote;

// What a script acts on: the board, which it can overwrite, and its text, the state, and what is lent to the calls. The memory has
// the bytes that spans total at most, and some more, so that a length over the exact one can be lent. Of the buffer, the words are
// lent, which have the exact length, and a longer length from `longer`: see Lending.
#[derive(Drop)]
struct Simulator<'a> {
    text: &'a [u8],
    board: &'a mut [u32; BOARD_NUMBERS],
    state: [u32; STATE_NUMBERS],
    lending: Lending,
    memory: &'a mut [u8],
    words: &'a mut [u8],
    longer: &'a mut [u8],
    ghost lent: { Within lending },
    ghost rooms: { (length memory.now ≡ 65544) × (length words.now ≡ 4096) × (length longer.now ≡ 4104) },
}

impl Simulator<'_> {
    // Prints what a call answered; a refusal is explained with the board's lowest master that has no share line.
    fn answer(&self, console: &mut Console, word: &[u8], answer: Result<(), Refusal>)
        requires { length word.now < 900 }
    {
        let lowest = description_rules::without_share(&*self.board);
        console.answer(word, number_in(answer), lowest);
    }

    // A refused reset leaves the state as it was.
    fn reset(&mut self, console: &mut Console) {
        let answer = fabric::reset(&*self.board, &mut self.state);
        self.answer(console, b"reset", answer);
    }

    // A post's bytes are the line's last field.
    fn post(&mut self, console: &mut Console, c: &Command) {
        let mut bytes = [0; BUFFER_BYTES];
        program_lines::decode(c.last, &mut bytes);
        let end = BUFFER_BYTES.min(c.value_at(5) as usize);
        let write = c.value_at(1) == 1;
        let answer = fabric::post(
            &*self.board,
            &mut self.state,
            self.lending.buffer(&mut *self.words, &mut *self.longer),
            c.number_at(0),
            write,
            c.number_at(2),
            c.number_at(3),
            c.number_at(4),
            &bytes[..end],
        );
        self.answer(console, b"post", answer);
    }

    // One clock, with its answer.
    fn clock_once(&mut self, console: &mut Console) -> Result<u32, Refusal> {
        let mut lines = [0; LINES_NUMBERS];
        let mut responses = [0; MASTERS];
        let memory = self.lending.memory(&mut *self.memory);
        let buffer = self.lending.buffer(&mut *self.words, &mut *self.longer);
        let answer = fabric::clock(
            &*self.board,
            &mut self.state,
            memory,
            buffer,
            &mut lines,
            &mut responses,
        );
        let slaves = description_layout::slave_count(&*self.board);
        let mask = answer.unwrap_or(0);
        console.put_clock(number_in(answer), mask, &lines, slaves, &responses);
        answer
    }

    // `count` clocks, each with its answer, up to one whose answer could not be printed. A refused clock changes nothing, so that those
    // after it are refused alike: the last one's refusal explains them all.
    fn clock(&mut self, console: &mut Console, count: u64) {
        let mut answer = Ok(0);
        for _ in 0..count {
            answer = self.clock_once(console);
            if console.printer.is_broken() {
                break;
            }
        }
        let lowest = description_rules::without_share(&*self.board);
        console.explain(number_in(answer), lowest);
    }

    // The oldest entry of the log, taken out of it; of a refused take zeros are printed.
    fn take(&mut self, console: &mut Console) {
        let answer = fabric::take(&*self.board, &mut self.state);
        let oldest = answer.unwrap_or(NO_ENTRY);
        let numbers = [
            u64::from(number_in(answer)),
            u64::from(oldest.master),
            u64::from(oldest.address),
            u64::from(oldest.write),
        ];
        console.printer.put_line(b"take", &numbers);
        let lowest = description_rules::without_share(&*self.board);
        console.explain(number_in(answer), lowest);
    }

    // The wait is that of the board as it was read, on which every master has a share line.
    fn wait(&self, console: &mut Console, c: &Command) {
        let mut board = [0; BOARD_NUMBERS];
        // the text was read before: the board is not refused
        let _ = description::read(self.text, &mut board);
        let answer = wait::quote_of(&board, c.number_at(0), c.number_at(1));
        let quote = answer.unwrap_or(Quote { wait: 0, serve: 0 });
        let numbers = [u64::from(number_in(answer)), quote.wait, quote.serve];
        console.printer.put_line(b"wait", &numbers);
        console.explain(number_in(answer), 0);
    }

    // Both this and `show` lend the fields by themselves: the check does not cover a method that hands out a part of what a field
    // that is a `&mut` refers to.
    fn fill(&mut self, c: &Command) -> Result<(), Problem> {
        let to = self
            .lending
            .part(c, &mut *self.memory, &mut *self.words, &mut *self.longer)?;
        program_lines::decode(c.last, to);
        Ok(())
    }

    fn show(&mut self, console: &mut Console, c: &Command) -> Result<(), Problem> {
        let from = self
            .lending
            .part(c, &mut *self.memory, &mut *self.words, &mut *self.longer)?;
        console.printer.put_hex(from);
        Ok(())
    }

    // A line. Err: its problem, which ends the script.
    fn obey(&mut self, console: &mut Console, line: &[u8]) -> Result<(), Problem> {
        let c = program_script::parse(line)?;
        match c.kind {
            Kind::Overwrite(part) => {
                program_script::overwrite(&mut *self.board, &mut self.state, part, &c);
            }
            Kind::Reset => self.reset(console),
            Kind::Post => self.post(console, &c),
            Kind::Clock => self.clock(console, c.value_at(0)),
            Kind::Take => self.take(console),
            Kind::State => console.put_state(&self.state),
            Kind::Wait => self.wait(console, &c),
            Kind::Fill => return self.fill(&c),
            Kind::Show => return self.show(console, &c),
            Kind::Lend => {
                return self.lending.lend(&c, &mut *self.words, &mut *self.longer);
            }
        }
        Ok(())
    }

    // The lines of standard input, up to the first with a problem, which is answered, or to the end. Nothing says that a script
    // ends, so the passes are counted, up to a number that no script uses up.
    fn obey_lines(&mut self, console: &mut Console) -> Option<Problem> {
        let mut input = [0; INPUT];
        let mut reader = Reader::new();
        for _ in 0..u64::MAX {
            let next = reader.next_line(&mut input, &mut console.printer);
            console.line = reader.number;
            match next {
                Next::Line => {
                    if let Err(problem) = self.obey(console, reader.line(&input)) {
                        return Some(problem);
                    }
                }
                Next::Unread => {}
                Next::Over(problem) => return problem,
            }
            if console.printer.is_broken() {
                return None;
            }
        }
        None
    }
}

// Obeys a script from standard input on a board; `text` is the board's. Before the first line the memory and the buffer are lent,
// each in its exact length. The spans of a board that was read total no more than MEMORY_BYTES (rule 1.7); `min` gives that bound
// without a `requires` on the board.
pub fn obey_script(rt: &HostRuntime, text: &[u8], board: &mut [u32; BOARD_NUMBERS]) {
    let length = MEMORY_BYTES.min(description_rules::memory_length(board)) as usize;
    let mut memory = [0; MEMORY_ROOM];
    let mut words: [u8; BUFFER_BYTES] = [0; 4096];
    let mut longer = [0; BUFFER_ROOM];
    let mut simulator = Simulator {
        text,
        board,
        state: [0; STATE_NUMBERS],
        lending: Lending::new(length),
        memory: &mut memory,
        words: &mut words,
        longer: &mut longer,
    };
    let mut console = Console::new(rt);
    let problem = simulator.obey_lines(&mut console);
    console.finish(problem);
}
