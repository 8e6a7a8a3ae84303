// Reading an input up to its end, writing all bytes, and telling why a call of the operating system failed. Only the answer 0 of
// a read is the end of an input: a read that fails has read nothing, and says nothing of what is still to come.
#![tactic(auto)]

ghost use Rattle.std.specs.Prelude.{◌≡◌, pos, IsErrAnd};
ghost use Rattle.std.specs.Str.{IsUtf8};
ghost use Rattle.program_streams.specs.Calls.{judged, judged_error, number_of, Call};
ghost use Rattle.program_streams.specs.Reading.{Gathered};

use program_messages::{Line, ROOM};
use std::fs::File;
use std::io::{Error, ErrorKind, Read, Write};
use std::time::{Clock, Duration};
use std::{io, thread};

// How a reading went. Its bytes stand in front of `end`.
#[derive(Clone, Copy)]
pub struct Got {
    pub end: usize,
    pub outcome: Outcome,
}

// The room is full; a read answered 0, the end of the input; or a read failed for good.
#[derive(Clone, Copy)]
pub enum Outcome {
    Full,
    Ended,
    Failed(Error),
}

// What one call of read or write did: it moved bytes, or none; it was interrupted, and is tried again at once; it could not go on
// without waiting, and is tried again later; or it failed for good.
#[derive(Clone, Copy)]
enum Told {
    Bytes(usize),
    Nothing,
    Again,
    Later,
    Failed(Error),
}

// The operating system's number of an error, or 0 for one that is not the system's.
pub fn number_of(error: &Error) -> i32
    ensures { result ≡ number_of error.now }
{
    error.raw_os_error().unwrap_or(0)
}

// The operating system's numbers of these two failures: a signal came before a byte was moved, and the call would have to wait.
const EINTR: i32 = 4;

const EAGAIN: i32 = 11;

// What a call did that failed. No match: of an arm for a constant of a signed type a proof can cite no equation.
fn judge_error(error: Error) -> Told
    ensures { result ≡ judged_error error }
{
    let number = number_of(&error);
    if number == EINTR {
        return Told::Again;
    }
    if number == EAGAIN {
        return Told::Later;
    }
    Told::Failed(error)
}

// What a call did that went so.
fn judge(went: io::Result<usize>) -> Told
    ensures { result ≡ judged went }
{
    match went {
        Ok(0) => Told::Nothing,
        Ok(got) => Told::Bytes(got),
        Err(error) => judge_error(error),
    }
}

// Sleeps for a millisecond.
fn pause<C: Clock>(clock: &C) {
    thread::sleep(clock, Duration::from_millis(1));
}

// One read into the front of `room`.
fn read_once<R: Read>(from: &mut R, room: &mut [u8]) -> Told
    ensures { Call room.new result }
{
    let went = from.read(room);
    judge(went)
}

// One write of the bytes at the front of `bytes`.
fn write_once<W: Write>(to: &mut W, bytes: &[u8]) -> Told
    ensures { Call bytes.now result }
{
    let went = to.write(bytes);
    judge(went)
}

// The failure of a call that cannot go on, where no call of the system failed.
fn stuck() -> Error {
    Error::from(ErrorKind::WriteZero)
}

// Reads until `into` is full, a read answers 0 or a read fails for good. A read that was interrupted or would have to wait is tried
// again, the second after a short sleep. Each read goes after the bytes read before it, into room for a byte at least: a read that
// is lent no room answers 0 too. Nothing says that an input ends, so the reads are as many as no input uses up; a reading that does
// has failed.
pub fn read_all<C: Clock, R: Read>(clock: &C, from: &mut R, into: &mut [u8]) -> Got
    ensures { Gathered into.new result }
{
    let mut end = 0;
    for _ in 0..u64::MAX {
        if into.len() <= end {
            break;
        }
        match read_once(from, &mut into[end..]) {
            Told::Bytes(n) => end += n,
            Told::Nothing => {
                return Got {
                    end,
                    outcome: Outcome::Ended,
                };
            }
            Told::Again => {}
            Told::Later => pause(clock),
            Told::Failed(error) => {
                return Got {
                    end,
                    outcome: Outcome::Failed(error),
                };
            }
        }
    }
    if end < into.len() {
        return Got {
            end,
            outcome: Outcome::Failed(stuck()),
        };
    }
    Got {
        end,
        outcome: Outcome::Full,
    }
}

// Writes all of `bytes`, and tries again as `read_all` does. Err: a write failed for good, or it took nothing.
pub fn write_all<C: Clock, W: Write>(clock: &C, to: &mut W, bytes: &[u8]) -> io::Result<()> {
    let mut rest = bytes;
    for _ in 0..u64::MAX {
        if rest.is_empty() {
            break;
        }
        match write_once(to, rest) {
            Told::Bytes(n) => rest = &rest[n..],
            Told::Nothing => return Err(stuck()),
            Told::Again => {}
            Told::Later => pause(clock),
            Told::Failed(error) => return Err(error),
        }
    }
    if rest.is_empty() {
        Ok(())
    } else {
        Err(stuck())
    }
}

// Ends a line and writes it, by one call unless the system takes fewer bytes. The answer is as write_all has it.
pub fn tell<C: Clock, W: Write>(clock: &C, to: &mut W, mut line: Line) -> io::Result<()> {
    line.say_bytes(b"\n");
    write_all(clock, to, line.bytes())
}

// The same on standard error. A line that it does not take is lost: nothing is left to tell that by.
pub fn warn(rt: &HostRuntime, line: Line) {
    let _ = tell(rt, &mut rt.stderr(), line);
}

// The operating system's number of bytes that are no text.
const NO_TEXT: i32 = 84;

// Opens the file that a path names for reading alone. The library has text alone for a path, so that one that is no text names no
// file.
pub fn open(rt: &HostRuntime, path: &[u8]) -> io::Result<File>
    ensures { ¬ IsUtf8 path.now → IsErrAnd result (λ e. number_of e ≡ pos 84) }
{
    match str::from_utf8(path) {
        Ok(name) => File::open(rt, name),
        Err(_) => Err(Error::from_raw_os_error(NO_TEXT)),
    }
}

// A line on standard error: `program: what: words`, with the words of the operating system for the error's number.
pub fn report(rt: &HostRuntime, program: &[u8], what: &[u8], error: &Error) {
    let mut room = [0; ROOM];
    let mut line = Line::headed(&mut room, program, what);
    line.say_bytes(b": ");
    line.say_error(number_of(error));
    warn(rt, line);
}
