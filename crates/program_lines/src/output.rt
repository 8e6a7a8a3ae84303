// What is printed. It gathers in a buffer, which is written out when full, before a read, and at the end.
ghost use Rattle.std.specs.Prelude.{◌≡◌, ◌+◌, ◌*◌, ◌<◌, ◌≤◌, true, length};

use crate::hex;
use common_text::Writer;

// The length of the buffer.
pub const ROOM: usize = 65536;

// The output of a program that has this name: what has gathered, and whether a write failed, from when on nothing more is written.
#[derive(Drop)]
pub struct Printer<'a> {
    pub rt: &'a HostRuntime,
    pub program: &'a [u8],
    bytes: [u8; ROOM],
    filled: usize,
    broken: bool,
    ghost within: { filled ≤ 65536 },
}

impl Printer<'_> {
    // Nothing has gathered.
    pub fn new<'a>(rt: &'a HostRuntime, program: &'a [u8]) -> Printer<'a> {
        Printer {
            rt,
            program,
            bytes: [0; ROOM],
            filled: 0,
            broken: false,
        }
    }

    // Whether nothing can be printed any more.
    pub fn is_broken(&self) -> bool
        ensures { result ≡ self.now.broken }
    {
        self.broken
    }

    // Writes out what has gathered. If nothing can be printed any more, that is reported in the program's name.
    pub fn flush(&mut self)
        ensures { (self.new.filled ≡ 0) × (self.old.broken ≡ true → self.new.broken ≡ true) }
    {
        let n = self.filled;
        self.filled = 0;
        if self.broken {
            return;
        }
        self.broken = !program_options::print(self.rt, self.program, &self.bytes[..n]);
    }

    // Makes room for n bytes more.
    fn make_room(&mut self, n: usize)
        requires { n ≤ 65536 }
        ensures { self.new.filled + n ≤ 65536 }
    {
        if ROOM - self.filled < n {
            self.flush();
        }
    }

    // Prints a word and numbers, parted by commas, and a line feed. A number of 64 bits has at most 20 digits.
    pub fn put_line(&mut self, word: &[u8], numbers: &[u64])
        requires { length word.now + 21 * length numbers.now < 1000 }
    {
        let most = word.len() + 21 * numbers.len() + 1;
        self.make_room(most);
        let mut writer = Writer {
            out: &mut self.bytes,
            at: self.filled,
        };
        writer.put_line(word, numbers);
        self.filled = writer.at;
    }

    // Prints one byte in hex.
    fn put_byte(&mut self, b: u8) {
        self.make_room(2);
        let at = self.filled;
        self.bytes[at] = hex::glyph(b / 16);
        self.bytes[at + 1] = hex::glyph(b % 16);
        self.filled = at + 2;
    }

    // Prints bytes in hex, in their order, and a line feed.
    pub fn put_hex(&mut self, bytes: &[u8]) {
        for b in bytes {
            self.put_byte(*b);
        }
        self.put_line(b"", &[]);
    }
}
