// How much of the memory and of the buffer is lent.
ghost use Rattle.std.specs.Prelude.{◌≡◌, ◌+◌, ◌<◌, ◌≤◌, ◌&&◌, length, min, not, is_ok, IfOk, IfErr, if◌then◌else◌};
ghost use Rattle.program_script.specs.Lines.{value_at, names_memory, most_lent};
ghost use Rattle.program_script.specs.Lent.{Within};

use crate::Command;
use common_numbers::{BUFFER_BYTES, MEMORY_BYTES};
use program_lines::Problem;

// How many bytes over its exact length the memory or the buffer can be lent, so that a script sees refusal 8; and the most that
// is ever lent of each.
pub const BYTES_OVER: usize = 8;

pub const MEMORY_ROOM: usize = MEMORY_BYTES as usize + BYTES_OVER;

pub const BUFFER_ROOM: usize = BUFFER_BYTES + BYTES_OVER;

// The most that can be lent of the memory, and what is lent of it and of the buffer. Any values may stand here: `new` and `lend` say
// which they put, and what is lent is never more than there is.
#[derive(Clone, Copy)]
pub struct Lending {
    pub memory_most: usize,
    pub memory_lent: usize,
    pub buffer_lent: usize,
}

impl Lending {
    // Before the first line, with a memory of so many bytes.
    pub fn new(memory: usize) -> Lending
        requires { memory ≤ 65536 }
        ensures exact { (result.memory_most ≡ memory + 8) × (result.memory_lent ≡ memory) × (result.buffer_lent ≡ 4096) }
        ensures within { Within result }
    {
        Lending {
            memory_most: memory + BYTES_OVER,
            memory_lent: memory,
            buffer_lent: BUFFER_BYTES,
        }
    }

    // What is lent of the memory: all of it if it has less.
    pub fn memory<'a>(&self, memory: &'a mut [u8]) -> &'a mut [u8]
        ensures least { length result.now ≡ min self.now.memory_lent (length memory.old) }
        ensures whole { Within self.now → 65544 ≤ length memory.old → length result.now ≡ self.now.memory_lent }
    {
        let n = self.memory_lent.min(memory.len());
        &mut memory[..n]
    }

    // What is lent of the buffer. The masters' words are lent from an array of the exact length, and a longer length from one that
    // has room for it: all of it if it has less.
    pub fn buffer<'a>(&self, words: &'a mut [u8], longer: &'a mut [u8]) -> &'a mut [u8]
        ensures exact { self.now.buffer_lent ≤ 4096 → length result.now ≡ min self.now.buffer_lent (length words.old) }
        ensures over { 4096 < self.now.buffer_lent → length result.now ≡ min self.now.buffer_lent (length longer.old) }
        ensures whole { Within self.now → 4096 ≤ length words.old → 4104 ≤ length longer.old
            → length result.now ≡ self.now.buffer_lent }
    {
        let from = if self.buffer_lent <= BUFFER_BYTES {
            words
        } else {
            longer
        };
        let n = self.buffer_lent.min(from.len());
        &mut from[..n]
    }

    // What is lent of the store that a line names.
    fn store<'a>(
        &self,
        c: &Command,
        memory: &'a mut [u8],
        words: &'a mut [u8],
        longer: &'a mut [u8],
    ) -> &'a mut [u8] {
        if c.names_memory() {
            self.memory(memory)
        } else {
            self.buffer(words, longer)
        }
    }

    // The bytes of it from where the line says, as many as it says.
    pub fn part<'a>(
        &self,
        c: &Command,
        memory: &'a mut [u8],
        words: &'a mut [u8],
        longer: &'a mut [u8],
    ) -> Result<&'a mut [u8], Problem> {
        let start = c.value_at(1) as usize;
        let n = c.value_at(2) as usize;
        let lent = self.store(c, memory, words, longer);
        if lent.len() < start || lent.len() - start < n {
            return Err(Problem::PastLent);
        }
        Ok(&mut lent[start..start + n])
    }

    // The most that can be lent of the store that a line names.
    #[tactic(auto, unfolding(crate::specs::Lines::most_lent))]
    fn most(&self, c: &Command) -> usize
        ensures { result ≡ most_lent self.now.memory_most c.now.values }
    {
        if c.names_memory() {
            self.memory_most
        } else {
            BUFFER_ROOM
        }
    }

    // A line lends the memory or the buffer up to a length, at most BYTES_OVER bytes over the exact one. The array that the words
    // were lent from is copied to the other, as many bytes as both have, whichever is lent from now on; the bytes after the words
    // keep their values in the longer one.
    #[tactic(auto, unfolding(crate::specs::Lines::most_lent))]
    pub fn lend(&mut self, c: &Command, words: &mut [u8], longer: &mut [u8]) -> Result<(), Problem>
        ensures within { IfOk result (λ _. value_at c.now.values 1 ≤ most_lent self.old.memory_most c.now.values) }
        ensures over { IfErr result (λ e. (e ≡ Problem.OutOfRange)
            × (most_lent self.old.memory_most c.now.values < value_at c.now.values 1)) }
        ensures most { self.new.memory_most ≡ self.old.memory_most }
        ensures memory { self.new.memory_lent
            ≡ (if is_ok result && names_memory c.now.values then value_at c.now.values 1 else self.old.memory_lent) }
        ensures buffer { self.new.buffer_lent
            ≡ (if is_ok result && not (names_memory c.now.values) then value_at c.now.values 1 else self.old.buffer_lent) }
        ensures bytes { IfErr result (λ _. (words.new ≡ words.old) × (longer.new ≡ longer.old)) }
        ensures kept { Within self.old → Within self.new }
    {
        let length = c.value_at(1) as usize;
        let most = self.most(c);
        if most < length {
            return Err(Problem::OutOfRange);
        }
        if c.names_memory() {
            self.memory_lent = length;
            return Ok(());
        }
        let n = words.len().min(longer.len());
        if self.buffer_lent <= BUFFER_BYTES {
            longer[..n].copy_from_slice(&words[..n]);
        } else {
            words[..n].copy_from_slice(&longer[..n]);
        }
        self.buffer_lent = length;
        Ok(())
    }
}
