// Reads the text. What is held of it is the input that is lent, which has room for the longest line that says something.
ghost use Rattle.std.specs.Prelude.{◌≡◌, ◌≢◌, ◌⊎◌, ◌+◌, ◌≤◌, true, length, None};
ghost use Rattle.program_streams.specs.declared.Outcome.TheVariants as Outcome;
ghost use Rattle.program_streams.specs.Reading.{IsFailed};
ghost use Rattle.program_lines.specs.declared.input.Next.TheVariants.{Line, Over};

use crate::{Printer, Problem};
use program_streams::{Got, Outcome};

// What the text has next: a line; more that is to be read, so that it is asked for again; or nothing, and the problem of what
// stands after the last line feed.
#[derive(Clone, Copy)]
pub enum Next {
    Line,
    Unread,
    Over(Option<Problem>),
}

// How far a program has come with the text: positions in the input. In an input that is shorter than they say they count as its
// end.
#[derive(Clone, Copy)]
pub struct Reader {
    // What is read of the text and not found yet stands in the input from `from` to `end`.
    from: usize,
    end: usize,
    // The line that was found last stands there from `start` to `stop`, up to the next read.
    start: usize,
    stop: usize,
    // The text ends, or it goes on with a line that is too long: no read is made after it.
    ended: bool,
    // The number of the line that was found last; of what the text ends in, once that is found.
    pub number: u64,
    ghost unfound: { from ≤ end },
    ghost found: { start ≤ stop },
}

impl Reader {
    // Nothing is read.
    pub fn new() -> Reader
        ensures { (result.end ≡ 0) × (result.stop ≡ 0) }
    {
        Reader {
            from: 0,
            end: 0,
            start: 0,
            stop: 0,
            ended: false,
            number: 0,
        }
    }

    // The line that was found last, in the input that it was found in.
    pub fn line<'a>(&self, input: &'a [u8]) -> &'a [u8] {
        let stop = self.stop.min(input.len());
        let start = self.start.min(stop);
        &input[start..stop]
    }

    // One line more. The number of a text's lines is far below 2 ^ 64.
    fn count_line(&mut self)
        ensures { (self.new.end ≡ self.old.end) × (self.new.stop ≡ self.old.stop) }
    {
        self.number = self.number.wrapping_add(1);
    }

    // The text has ended, and n bytes stand after its last line feed: a line that lacks its own, and may be cut short. It is not
    // found, so that it is not obeyed, and that is its problem.
    fn text_end(&mut self, n: usize) -> Next
        ensures unfound { result ≢ Line }
        ensures kept { (self.new.end ≡ self.old.end) × (self.new.stop ≡ self.old.stop) }
    {
        self.count_line();
        if n == 0 {
            return Next::Over(None);
        }
        Next::Over(Some(Problem::NoLineFeed))
    }

    // One line fills the input, and no byte more finds room: the last line, since it says nothing that could be done.
    fn full_line(&mut self) -> Next
        ensures { (self.new.end ≡ self.old.end) × (self.new.stop ≡ self.old.end) }
    {
        self.start = 0;
        self.stop = self.end;
        self.from = self.end;
        self.ended = true;
        self.count_line();
        Next::Line
    }

    // After a read into the input from `kept` on: the bytes before are an unfinished line. A text that cannot be read has no
    // further line, and the unfinished one is none if the text has ended.
    fn after_read(&mut self, printer: &Printer, got: Got, kept: usize) -> Next
        requires { kept + got.end ≤ usize.MAX }
        ensures failed { IsFailed got.outcome → result ≡ Over None }
        ensures ended { got.outcome ≡ Outcome.Ended → result ≢ Line }
        ensures within { self.new.end ≡ kept + got.end }
        ensures found { (self.new.stop ≡ self.old.stop) ⊎ (self.new.stop ≡ kept + got.end) }
    {
        self.from = 0;
        self.end = kept + got.end;
        self.ended = matches!(got.outcome, Outcome::Ended);
        match got.outcome {
            Outcome::Failed(error) => {
                program_streams::report(printer.rt, printer.program, b"standard input", &error);
                Next::Over(None)
            }
            _ if 0 < got.end => Next::Unread,
            Outcome::Ended => self.text_end(kept),
            Outcome::Full => self.full_line(),
        }
    }

    // Keeps what is not found yet, from `from` to `end`, as an unfinished line, and reads after it until the input is full or the
    // text ends. If it has ended, there is no further line. What has gathered is written out before, so that a read that fails is
    // reported after it.
    fn read_more(
        &mut self,
        input: &mut [u8],
        printer: &mut Printer,
        from: usize,
        end: usize,
    ) -> Next
        requires { (from ≤ end) × (end ≤ length input.old) }
        ensures unfound { self.old.ended ≡ true → result ≢ Line }
        ensures within { (self.old.end ≤ length input.old) × (self.old.stop ≤ length input.old)
            → (self.new.end ≤ length input.new) × (self.new.stop ≤ length input.new) }
    {
        let kept = end - from;
        input.copy_within(from..end, 0);
        if self.ended {
            return self.text_end(kept);
        }
        printer.flush();
        if printer.is_broken() {
            return Next::Over(None);
        }
        let rt = printer.rt;
        let got = program_streams::read_all(rt, &mut rt.stdin(), &mut input[kept..]);
        self.after_read(printer, got, kept)
    }

    // Finds the next line in what is read, or reads more into the input; a read or a write that fails is reported in the program's
    // name.
    pub fn next_line(&mut self, input: &mut [u8], printer: &mut Printer) -> Next
        ensures { (self.old.end ≤ length input.old) × (self.old.stop ≤ length input.old)
            → (self.new.end ≤ length input.new) × (self.new.stop ≤ length input.new) }
    {
        let end = self.end.min(input.len());
        let from = self.from.min(end);
        let found = input[from..end].iter().position(|b| *b == b'\n');
        let Some(length) = found else {
            return self.read_more(input, printer, from, end);
        };
        self.start = from;
        self.stop = from + length;
        self.from = from + length + 1;
        self.count_line();
        Next::Line
    }
}
