// A line and its pieces, one after another, as far as they fit.
ghost use Rattle.std.specs.Prelude.{◌≡◌, ◌≤◌, [], ◌++◌, length, take, OnOk};
ghost use Rattle.std.specs.Fmt.{WritesText};
ghost use Rattle.program_messages.specs.Code.Messages.{head, Holds, Said, begun, told, headed};

use crate::errors;
use std::fmt;
use std::fmt::{Display, Write};
use std::marker::Model;

// The room for what a line begins with, two paths, each of 4,095 bytes at most, and `: ` between them; and the room for a line: no
// cause has more bytes than what is left.
const HEAD_ROOM: usize = 8192;

pub const ROOM: usize = HEAD_ROOM + 512;

// Puts bytes after the first `at` of a room, as far as they fit. The answer is the position after them.
pub fn say(room: &mut [u8], at: usize, bytes: &[u8]) -> usize
    ensures { Holds room.new result (take at room.old ++ bytes.now) }
{
    let from = at.min(room.len());
    let n = (room.len() - from).min(bytes.len());
    let end = from + n;
    room[from..end].copy_from_slice(&bytes[..n]);
    end
}

// Puts `program: what` at the front of a room.
fn put_head(room: &mut [u8], program: &[u8], what: &[u8]) -> usize
    ensures { Holds room.new result (head program.now what.now) }
{
    let a = say(room, 0, program);
    let b = say(room, a, b": ");
    say(room, b, what)
}

// The bytes that were said, at the front of a room that is lent.
#[derive(Drop)]
pub struct Line<'a> {
    room: &'a mut [u8],
    filled: usize,
}

impl<'a> Model for Line<'a> {
    ghost Value = { Said };

    ghost view = { λ l. record { most = length l.room.now; said = take l.filled l.room.now } };

    ghost invariant = { λ l. l.filled ≤ length l.room.now };
}

impl<'a> fmt::Write for Line<'a> {
    ghost write_str_gives = { λ before text after. after ≡ told before text };

    fn write_str(&mut self, text: &str) -> fmt::Result {
        self.say_bytes(text.as_bytes());
        Ok(())
    }
}

impl<'a> Line<'a> {
    // A line of which the first `at` bytes of the room are said already: all of the room, if it has no more.
    pub fn after(room: &'a mut [u8], at: usize) -> Line<'a>
        ensures { result ≡ begun room.old at }
    {
        let filled = at.min(room.len());
        Line { room, filled }
    }

    pub fn new(room: &'a mut [u8]) -> Line<'a>
        ensures { result ≡ begun room.old 0 }
    {
        Line::after(room, 0)
    }

    // The same in the room that each line of a program has.
    #[tactic(auto, unfolding(crate::specs::Code::Messages::begun))]
    pub fn fresh(room: &'a mut [u8; ROOM]) -> Line<'a>
        ensures { result ≡ record { most = 8704; said = [] } }
    {
        Line::new(room)
    }

    pub fn bytes(&self) -> &[u8]
        ensures { result.now ≡ self.now.said }
    {
        &self.room[..self.filled]
    }

    // Puts bytes at the end, as far as they fit.
    pub fn say_bytes(&mut self, bytes: &[u8])
        ensures { self.new ≡ told self.old bytes.now }
    {
        let at = self.filled;
        self.filled = say(&mut *self.room, at, bytes);
    }

    // Puts what a value prints there, as a number, and answers whether it printed all of it: a line takes it without an error. Words are
    // put by say_bytes.
    pub fn say<D: Display + Drop>(&mut self, value: D) -> fmt::Result
        ensures { OnOk result
            (WritesText (λ before text after. after ≡ told before text) self.old (D.output value) self.new) }
    {
        self.write(value)
    }

    // A line that begins with `program: what`, no more of it than HEAD_ROOM bytes: a cause finds room after it.
    pub fn about(room: &'a mut [u8], program: &[u8], what: &[u8]) -> Line<'a>
        ensures { result ≡ headed (length room.old) program.now what.now }
    {
        let most = HEAD_ROOM.min(room.len());
        let filled = put_head(&mut room[..most], program, what);
        Line { room, filled }
    }

    // The same in the room that each line of a program has.
    pub fn headed(room: &'a mut [u8; ROOM], program: &[u8], what: &[u8]) -> Line<'a>
        ensures { result ≡ record { most = 8704; said = take 8192 (head program.now what.now) } }
    {
        Line::about(room, program, what)
    }

    // Puts the words of the operating system's error with a number.
    pub fn say_error(&mut self, error: i32) {
        match errors::words_of(error) {
            Some(words) => self.say_bytes(words.as_bytes()),
            None => {
                self.say_bytes(b"Unknown error ");
                let _ = self.say(error);
            }
        }
    }
}
