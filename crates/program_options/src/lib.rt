// What the programs have in common: what the words after a program's name ask for, the version, and the line on standard error
// that tells of output that could not be written.
#![tactic(auto)]

ghost use Rattle.std.specs.Prelude.{◌≡◌, ◌<◌, length};
ghost use Rattle.io.specs.Counts.{IsPrefixLen};
ghost use Rattle.program_options.specs.Options.{option_of, operands_from, lone_option, mode_by, mode_of, Asked};

use std::env::{Env, FillError};
use std::io;

// What a program is asked for: its help, its version, or its work on the operands, the words from an index on. Wrong: none of
// these.
#[derive(Clone, Copy)]
pub enum Mode {
    Help,
    Version,
    Operands(usize),
    Wrong,
}

// The room for an option's word: as much as a path has.
const WORD_ROOM: usize = 4096;

// An option, the end of the options, or a word that is neither.
#[derive(Clone, Copy)]
enum Word {
    Help,
    Version,
    End,
    Unknown,
}

// To work on the words from `first` on, if they are as many as the program takes. Its name, word 0, is counted too. Two tests, not
// `contains` of a range: with that the search for the proof reaches its limits.
fn operands_from(count: usize, first: usize, least: usize, most: usize) -> Mode
    ensures { result ≡ operands_from count first least most }
{
    match count.checked_sub(first) {
        Some(operands) if (least <= operands) & (operands <= most) => Mode::Operands(first),
        _ => Mode::Wrong,
    }
}

// An option that is asked for by itself.
fn alone(count: usize, mode: Mode) -> Mode
    ensures { result ≡ lone_option count mode }
{
    if count == 2 { mode } else { Mode::Wrong }
}

// What a word says that begins with `-`. No `match`: a proof has no equation after an arm of bytes that is not met. The two words of
// help are joined by |, so that no later goal has two paths.
fn option_of(word: &[u8]) -> Word
    ensures { result ≡ option_of word.now }
{
    if (word == b"-h".as_slice()) | (word == b"--help".as_slice()) {
        Word::Help
    } else if word == b"--version".as_slice() {
        Word::Version
    } else if word == b"--".as_slice() {
        Word::End
    } else {
        Word::Unknown
    }
}

// What an option asks for: `--` ends the options.
fn mode_by(option: Word, count: usize, least: usize, most: usize) -> Mode
    ensures { result ≡ mode_by option count least most }
{
    match option {
        Word::Help => alone(count, Mode::Help),
        Word::Version => alone(count, Mode::Version),
        Word::End => operands_from(count, 2, least, most),
        Word::Unknown => Mode::Wrong,
    }
}

// What so many words ask of a program that takes so many operands. The word after its name is at the front of `room`: an option if it
// begins with `-`. Of a word that is too long to be handed out n is 0, and the first byte still tells that it is an option.
fn mode_of(count: usize, room: &[u8], n: usize, least: usize, most: usize) -> Mode
    requires { (0 < length room.now) × IsPrefixLen n room.now }
    ensures { result ≡ mode_of count room.now n least most }
{
    if room[0] == b'-' {
        mode_by(option_of(&room[..n]), count, least, most)
    } else {
        operands_from(count, 1, least, most)
    }
}

// Whether there is a word at an index. None of it is copied.
fn is_word(rt: &HostRuntime, index: usize) -> bool {
    !matches!(rt.arg(index, &mut []), Err(FillError::NotPresent))
}

// How many words there are, the program's name among them.
pub fn word_count(rt: &HostRuntime) -> usize {
    (0..usize::MAX)
        .find(|i| !is_word(rt, *i))
        .unwrap_or(usize::MAX)
}

// The word at an index is put into `room`. The answer is its length, or 0 where there is none or it is too long.
pub fn word_at(rt: &HostRuntime, index: usize, room: &mut [u8]) -> usize
    ensures { IsPrefixLen result room.new }
{
    rt.arg(index, room).unwrap_or(0)
}

// What the words ask of a program that takes so many operands. They are counted once.
pub fn asked(rt: &HostRuntime, least: usize, most: usize) -> Mode
    ensures { Asked least most result }
{
    let mut word = [0u8; WORD_ROOM];
    let n = word_at(rt, 1, &mut word);
    let count = word_count(rt);
    mode_of(count, &word, n, least, most)
}

// Tells, straight after what was to be printed, where standard output did not take it.
pub fn printed(rt: &HostRuntime, program: &[u8], taken: io::Result<()>) -> bool {
    match taken {
        Ok(()) => true,
        Err(error) => {
            program_streams::report(rt, program, b"standard output", &error);
            false
        }
    }
}

// Prints bytes on standard output.
pub fn print(rt: &HostRuntime, program: &[u8], bytes: &[u8]) -> bool {
    let taken = program_streams::write_all(rt, &mut rt.stdout(), bytes);
    printed(rt, program, taken)
}

pub fn print_version(rt: &HostRuntime, program: &[u8]) {
    if print(rt, program, program) {
        print(rt, program, b" (Zelgwy) 1.7.1\n");
    }
}
