// What is said on standard error of a line of the script: what is wrong with it, or why its call is refused.
use program_lines::Problem;
use program_messages::{Line, ROOM};

// How each explanation begins.
fn line_about<'a>(room: &'a mut [u8; ROOM], line: u64) -> Line<'a> {
    let mut text = Line::fresh(room);
    text.say_bytes(b"simulate: script line ");
    let _ = text.say(line);
    text.say_bytes(b": ");
    text
}

fn words_of(problem: Problem) -> &'static str {
    match problem {
        Problem::NotALine => "not a line of a script",
        Problem::OutOfRange => "a number is out of its range",
        Problem::PastLent => "reaches past what is lent",
        Problem::TooManyBytes => "more than 4096 bytes",
        Problem::NoLineFeed => "lacks its line feed: the script may be cut short",
    }
}

// A line's problem.
pub fn problem(rt: &HostRuntime, line: u64, problem: Problem) {
    let mut room = [0; ROOM];
    let mut text = line_about(&mut room, line);
    text.say_bytes(words_of(problem).as_bytes());
    program_streams::warn(rt, text);
}

// Explains a refused call. It answers no more than a refusal of a board that the script has overwritten, so that no line of the board
// can be charged; lowest is the lowest master of that board that has no share line, which 20 names.
pub fn call(rt: &HostRuntime, line: u64, number: u32, lowest: u32) {
    let mut room = [0; ROOM];
    let mut text = line_about(&mut room, line);
    program_refusals::say_cause(&mut text, number, lowest);
    program_streams::warn(rt, text);
}
