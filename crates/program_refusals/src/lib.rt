// What each refusal means, in a few words (section 7 of docs/RULES.md has them whole), for programs that explain one on standard
// error. Each line is put together and written by one call (program_streams::tell); what can be asked for on standard output too
// answers whether all of it was written.
#![tactic(auto)]

use common_numbers::{Refusal, SLAVE_FIELDS};
use description::Charged;
use program_messages::{Line, ROOM};
use std::io;
use std::io::Write;

// Those of a description, by their numbers: 19 to 21 came after the numbers of the calls.
pub const OF_TEXT: [Refusal; 10] = [
    Refusal::BadText,
    Refusal::BadOrder,
    Refusal::BadValue,
    Refusal::BadBase,
    Refusal::Overlap,
    Refusal::SpanTotal,
    Refusal::BadShare,
    Refusal::TooNarrow,
    Refusal::NoShare,
    Refusal::ShareOrder,
];

// The commas of a slave line that lacks its last number, latency, and of one that lacks its last two, native and latency.
const COMMAS_TO_NATIVE: usize = SLAVE_FIELDS - 1;

const COMMAS_TO_WAITS: usize = SLAVE_FIELDS - 2;

// What a refusal means: of 1 and 2, if a line is to blame.
fn words_of(refusal: Refusal) -> &'static str {
    match refusal {
        Refusal::BadText => {
            "no final line feed, unknown first word, wrong count of fields, or bad number"
        }
        Refusal::BadOrder => "line kind out of order, over the count or behind default",
        Refusal::BadValue => "value outside its list or range",
        Refusal::BadBase => "base no multiple of span",
        Refusal::Overlap => "slave overlaps an earlier one",
        Refusal::SpanTotal => "spans total over 65536",
        Refusal::BadShare => "share line names no master or slave, or a pair twice",
        Refusal::BadLength => "memory or buffer not of its exact length",
        Refusal::BadState => "the state breaks a rule",
        Refusal::ShortOutput => "output shorter than what is to be written",
        Refusal::NoMaster => "no such master",
        Refusal::Held => "master holds a transfer",
        Refusal::BadBeats => "beats 0 or over the master's burst",
        Refusal::BadAddress => "address no multiple of the master's width",
        Refusal::BadLanes => "lanes not legal, or a burst without all lanes",
        Refusal::NotConnected => "no connected slave there",
        Refusal::PastEnd => "burst passes the slave's end",
        Refusal::BadWords => "data not beats times width bytes",
        Refusal::TooNarrow => "master narrower than native slave",
        Refusal::NoShare => "a master has no share line",
        Refusal::ShareOrder => "share line out of order: by master, then slave",
        Refusal::EmptyLog => "the log is empty: there is no entry to take",
    }
}

// What 1 and 2 mean if the text as a whole is to blame (rule 8.3).
fn words_of_text(refusal: Refusal) -> Option<&'static str> {
    match refusal {
        Refusal::BadText => Some("text over 8192 bytes"),
        Refusal::BadOrder => Some("at the end, no master or no slave"),
        _ => None,
    }
}

// The refusal with a number, if one has it.
fn refusal_of(number: u32) -> Option<Refusal> {
    Refusal::ALL
        .iter()
        .copied()
        .find(|refusal| refusal.number() == number)
}

// What a number means, likewise.
fn words_of_number(number: u32) -> &'static str {
    match refusal_of(number) {
        Some(refusal) => words_of(refusal),
        None => "no refusal has this number",
    }
}

// A number by itself: of 1 and 2 both kinds of cause.
fn say_meaning(line: &mut Line, number: u32) {
    if let Some(words) = refusal_of(number).and_then(words_of_text) {
        line.say_bytes(words.as_bytes());
        line.say_bytes(b"; ");
    }
    line.say_bytes(words_of_number(number).as_bytes());
}

// Puts `refusal 4: ` into a line.
fn say_refusal(line: &mut Line, number: u32) {
    line.say_bytes(b"refusal ");
    let _ = line.say(number);
    line.say_bytes(b": ");
}

// Puts what a number means into a line, as `refusal 4: base no multiple of span`, if no line of a text is known for it. 20 names
// the master, lowest (rule 8.3).
pub fn say_cause(line: &mut Line, number: u32, lowest: u32) {
    say_refusal(line, number);
    match refusal_of(number) {
        Some(Refusal::NoShare) => {
            line.say_bytes(b"master ");
            let _ = line.say(lowest);
            line.say_bytes(b" has no share line");
        }
        _ => say_meaning(line, number),
    }
}

// The line of a text with a number, from 1 on: none if the text has no such line.
fn line_of(text: &[u8], number: usize) -> &[u8] {
    let mut lines = text
        .split(|byte| *byte == b'\n')
        .skip(number.saturating_sub(1));
    lines.next().unwrap_or(b"")
}

// What a slave line lacks with as many commas as descriptions have that were written before there was latency, or before there was
// native. A share line has another second letter.
fn words_of_old_line(line: &[u8]) -> Option<&'static str> {
    if !line.starts_with(b"sl") {
        return None;
    }
    match line.iter().filter(|byte| **byte == b',').count() {
        COMMAS_TO_NATIVE => Some("the last is latency: 0 to 63 clocks"),
        COMMAS_TO_WAITS => Some(
            "the last two are native and latency: 0 bus sizing, 1 native alignment; 0 to 63 clocks",
        ),
        _ => None,
    }
}

// The same, put into a line that explains it.
fn say_of_old_line(line: &mut Line, old: &[u8]) {
    if let Some(lacking) = words_of_old_line(old) {
        line.say_bytes(b"; a slave line has ");
        let _ = line.say(SLAVE_FIELDS);
        line.say_bytes(b" numbers, ");
        line.say_bytes(lacking.as_bytes());
    }
}

// Why a text is refused, as `line 3: refusal 4: base no multiple of span`. Of 1 and 2 the cause is told by what is charged; 20 is
// charged to a master.
fn say_blame(line: &mut Line, text: &[u8], number: u32, charged: Charged) {
    let refusal = refusal_of(number);
    let words = words_of_number(number);
    match charged {
        Charged::Master(master) => say_cause(line, number, master),
        Charged::Text => {
            let words = refusal.and_then(words_of_text).unwrap_or(words);
            say_refusal(line, number);
            line.say_bytes(words.as_bytes());
        }
        Charged::Line(own) => {
            line.say_bytes(b"line ");
            let _ = line.say(own);
            line.say_bytes(b": ");
            say_refusal(line, number);
            line.say_bytes(words.as_bytes());
            if refusal == Some(Refusal::BadText) {
                say_of_old_line(line, line_of(text, own));
            }
        }
    }
}

// How the line begins: with the program, and with the path. The text of standard input has no path, and none is said.
fn line_from<'a>(room: &'a mut [u8; ROOM], program: &[u8], path: &[u8]) -> Line<'a> {
    if !path.is_empty() {
        return Line::headed(room, program, path);
    }
    let mut line = Line::fresh(room);
    line.say_bytes(program);
    line
}

// One line on standard error, as `table: board.txt: line 3: refusal 4: base no multiple of span`.
pub fn explain(
    rt: &HostRuntime,
    program: &[u8],
    path: &[u8],
    text: &[u8],
    number: u32,
    charged: Charged,
) {
    let mut room = [0; ROOM];
    let mut line = line_from(&mut room, program, path);
    line.say_bytes(b": ");
    say_blame(&mut line, text, number, charged);
    program_streams::warn(rt, line);
}

// A number and what it means.
fn print_entry<W: Write>(rt: &HostRuntime, to: &mut W, number: u32) -> io::Result<()> {
    let mut room = [0; ROOM];
    let mut line = Line::fresh(&mut room);
    line.say_bytes(b"  ");
    let _ = line.say(number);
    line.say_bytes(b" ");
    say_meaning(&mut line, number);
    program_streams::tell(rt, to, line)
}

// A line for each number from 1 to last, for a program's help.
pub fn list<W: Write>(rt: &HostRuntime, to: &mut W, last: u32) -> io::Result<()> {
    for number in 1..=last {
        print_entry(rt, to, number)?;
    }
    Ok(())
}

// The same for some refusals.
pub fn list_of<W: Write>(rt: &HostRuntime, to: &mut W, refusals: &[Refusal]) -> io::Result<()> {
    for refusal in refusals {
        print_entry(rt, to, refusal.number())?;
    }
    Ok(())
}

// What a program prints of a description that is refused.
pub fn print(rt: &HostRuntime, number: u32) -> io::Result<()> {
    let mut room = [0; ROOM];
    let mut line = Line::fresh(&mut room);
    line.say_bytes(b"refused,");
    let _ = line.say(number);
    program_streams::tell(rt, &mut rt.stdout(), line)
}
