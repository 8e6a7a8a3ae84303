// What the simulator prints.
ghost use Rattle.std.specs.Prelude.{◌+◌, ◌*◌, ◌<◌, ◌≤◌, length};

use crate::explain;
use common_numbers::{
    ENTRIES_FROM, ENTRY_NUMBERS, LATE_FROM, LINE_FIELDS, LINES_NUMBERS, LOG_ENTRIES, LOG_FROM,
    LOST_AT, MASTERS, SLAVES, SLOT_NUMBERS, SLOTS_FROM, STATE_NUMBERS, TRANSFER_NUMBERS,
};
use program_lines::{Printer, Problem};
use program_script::FIELD_COUNT;

// What is said of a script: what is printed, and the number of the line that is obeyed.
#[derive(Drop)]
pub struct Console<'a> {
    pub printer: Printer<'a>,
    pub line: u64,
}

impl Console<'_> {
    // Before the first line.
    pub fn new<'a>(rt: &'a HostRuntime) -> Console<'a> {
        Console {
            printer: Printer::new(rt, b"simulate"),
            line: 0,
        }
    }

    // Explains a call if its answer's number is not 0, with lowest as for explain::call. The answer is written out before, so that the
    // explanation comes after it if both go to one file.
    pub fn explain(&mut self, number: u32, lowest: u32) {
        if number != 0 {
            self.printer.flush();
            explain::call(self.printer.rt, self.line, number, lowest);
        }
    }

    // Prints what a call answered, and explains a refusal.
    pub fn answer(&mut self, word: &[u8], number: u32, lowest: u32)
        requires { length word.now < 900 }
    {
        self.printer.put_line(word, &[u64::from(number)]);
        self.explain(number, lowest);
    }

    // Prints what is left to print, and names a line with a problem by its number.
    pub fn finish(&mut self, problem: Option<Problem>) {
        if problem.is_some() {
            self.printer.put_line(b"error", &[self.line]);
        }
        self.printer.flush();
        if let Some(problem) = problem {
            explain::problem(self.printer.rt, self.line, problem);
        }
    }

    // Prints the record of an array that has the index `own`: the index, and the record's numbers. A record of a state is then the
    // line that overwrites it.
    fn put_record(&mut self, word: &[u8], own: usize, numbers: &[u32])
        requires { (length word.now < 9) × (length numbers.now < 10) }
    {
        let mut fields = [0; FIELD_COUNT];
        fields[0] = own as u64;
        for (field, number) in fields[1..].iter_mut().zip(numbers) {
            *field = u64::from(*number);
        }
        let end = numbers.len() + 1;
        self.printer.put_line(word, &fields[..end]);
    }

    // Prints records of `count` numbers each, which stand one after the other.
    fn put_records(&mut self, word: &[u8], records: &[u32], count: usize)
        requires { (length word.now < 9) × (0 < count) × (count < 10) }
    {
        for (i, record) in records.chunks_exact(count).enumerate() {
            self.put_record(word, i, record);
        }
    }

    // Prints the responses that are not 0 (rule 4.17).
    fn put_responses(&mut self, responses: &[u32; MASTERS]) {
        for (m, response) in responses.iter().enumerate() {
            if *response != 0 {
                self.printer
                    .put_line(b"response", &[m as u64, u64::from(*response)]);
            }
        }
    }

    // Prints what a clock answered: slave lines and responses only if it was not refused. A script can overwrite the count of a
    // board's slaves.
    pub fn put_clock(
        &mut self,
        number: u32,
        mask: u32,
        lines: &[u32; LINES_NUMBERS],
        slave_count: u32,
        responses: &[u32; MASTERS],
    ) {
        self.printer
            .put_line(b"clock", &[u64::from(number), u64::from(mask)]);
        if number != 0 {
            return;
        }
        let end = LINE_FIELDS * SLAVES.min(slave_count as usize);
        self.put_records(b"slave", &lines[..end], LINE_FIELDS);
        self.put_responses(responses);
    }

    // Prints the transfer of master m, and after its numbers the latency clocks that the master still has to pass (rule 4.16),
    // which stand after the slots in a state: the line that overwrites both.
    fn put_transfer(&mut self, m: usize, state: &[u32; STATE_NUMBERS])
        requires { m < 8 }
    {
        let p = TRANSFER_NUMBERS * m;
        let numbers = [
            state[p],
            state[p + 1],
            state[p + 2],
            state[p + 3],
            state[p + 4],
            state[LATE_FROM + m],
        ];
        self.put_record(b"transfer", m, &numbers);
    }

    fn put_transfers(&mut self, state: &[u32; STATE_NUMBERS]) {
        for m in 0..MASTERS {
            self.put_transfer(m, state);
        }
    }

    // Prints the log of a state: its count and its lost mark, and all entries, those from the count on too.
    fn put_log(&mut self, state: &[u32; STATE_NUMBERS]) {
        let numbers = [u64::from(state[LOG_FROM]), u64::from(state[LOST_AT])];
        self.printer.put_line(b"log", &numbers);
        let end = ENTRIES_FROM + ENTRY_NUMBERS * LOG_ENTRIES;
        self.put_records(b"entry", &state[ENTRIES_FROM..end], ENTRY_NUMBERS);
    }

    // Prints all of a state. Its marks are 0 or 1: a line of the script and the library write no other.
    pub fn put_state(&mut self, state: &[u32; STATE_NUMBERS]) {
        self.put_transfers(state);
        let end = SLOTS_FROM + SLOT_NUMBERS * SLAVES;
        self.put_records(b"slot", &state[SLOTS_FROM..end], SLOT_NUMBERS);
        self.put_log(state);
    }
}
