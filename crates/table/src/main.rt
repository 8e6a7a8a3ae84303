// Prints the table of a description, or its refusal, on standard output: of standard input, or of each file that is named, after
// a line with its name. What a refusal means goes to standard error: standard output is read by other programs.
#![tactic(auto)]

ghost use Rattle.std.specs.Prelude.{◌+◌, ◌≤◌, ◌<◌, length};
ghost use Rattle.description.specs.Reader.{most_bytes};
ghost use Rattle.wait_table.specs.Tables.{file_line, Begins};
ghost use Rattle.table.specs.Preparing.{Reads};

use common_numbers::TEXT_ROOM;
use common_text::Writer;
use program_options::Mode;
use program_streams::Outcome;
use std::io;
use std::io::{Read, Write};

fn usage<W: Write>(rt: &HostRuntime, to: &mut W) -> io::Result<()> {
    program_streams::write_all(rt, to, b"usage: table < BOARD\n       table BOARD..\n")?;
    program_streams::write_all(
        rt,
        to,
        b"Prints master,slave,wait,serve of every connected pair, or refused, and a number.\n",
    )?;
    program_streams::write_all(
        rt,
        to,
        b"Of each BOARD that is named, a line file,NAME comes first. The numbers:\n",
    )?;
    program_refusals::list_of(rt, to, &program_refusals::OF_TEXT)
}

fn help(rt: &HostRuntime) {
    let taken = usage(rt, &mut rt.stdout());
    program_options::printed(rt, b"table", taken);
}

// How many bytes of the text were read, and how many of the page are to be printed, or why the input cannot be read.
#[derive(Clone, Copy)]
struct Prepared {
    read: usize,
    page: io::Result<usize>,
}

// Reads a description, and makes the page of it. The text has room for one byte more than a description may have (rule 1.2): a
// longer one is then refused as such.
fn prepare<R: Read>(
    rt: &HostRuntime,
    from: &mut R,
    text: &mut [u8],
    page: &mut [u8; wait_table::LONGEST_TABLE],
) -> Prepared
    requires { most_bytes < length text.old }
    ensures { Reads text.new page.new result }
{
    let got = program_streams::read_all(rt, from, text);
    let read = got.end;
    let page = match got.outcome {
        Outcome::Failed(error) => Err(error),
        Outcome::Full | Outcome::Ended => Ok(wait_table::print_page(&text[..read], page)),
    };
    Prepared { read, page }
}

// Prints a page, and says at which line its text is refused, and why; standard input has no path. The answer is whether standard
// output took the page.
fn print_explained(rt: &HostRuntime, path: &[u8], text: &[u8], page: &[u8]) -> bool {
    let taken = program_options::print(rt, b"table", page);
    if let Err(blame) = description::refused_at(text) {
        let number = blame.refusal.number();
        program_refusals::explain(rt, b"table", path, text, number, blame.charged);
    }
    taken
}

// Prints the page of what an input gives, which a report calls `what`. A file is closed before: a program that is started with
// standard output closed may have that number for a file. Where it cannot be read, nothing is printed. The answer is whether
// standard output took what was printed.
fn table_from<R: Read + Drop>(rt: &HostRuntime, mut from: R, what: &[u8], path: &[u8]) -> bool {
    let mut text = [0; TEXT_ROOM];
    let mut page = [0; wait_table::LONGEST_TABLE];
    let made = prepare(rt, &mut from, &mut text, &mut page);
    match made.page {
        Ok(length) => {
            drop(from);
            print_explained(rt, path, &text[..made.read], &page[..length])
        }
        Err(error) => {
            program_streams::report(rt, b"table", what, &error);
            true
        }
    }
}

// The page of the file that a path names, likewise.
fn table_file(rt: &HostRuntime, path: &[u8]) -> bool {
    match program_streams::open(rt, path) {
        Ok(file) => table_from(rt, file, path, path),
        Err(error) => {
            program_streams::report(rt, b"table", path, &error);
            true
        }
    }
}

// No word that Linux hands to a program has so many bytes.
const WORD_ROOM: usize = 131072;

// Such a word, `file,` before it and a line feed after it.
const LINE_ROOM: usize = WORD_ROOM + 6;

// Puts the line before a file's page (rule 5.10).
fn put_file_line(line: &mut [u8], name: &[u8]) -> usize
    requires { length name.now + 6 ≤ length line.old }
    ensures { Begins (file_line name.now) line.new result }
{
    let mut writer = Writer { out: line, at: 0 };
    writer.put_bytes(b"file,");
    writer.put_bytes(name);
    writer.put_end();
    writer.at
}

// The line and the page of the file that the word at an index names, likewise.
fn table_word(rt: &HostRuntime, i: usize, word: &mut [u8], line: &mut [u8]) -> bool
    requires { length word.old + 6 ≤ length line.old }
{
    let length = program_options::word_at(rt, i, word);
    let path = &word[..length];
    let end = put_file_line(line, path);
    program_options::print(rt, b"table", &line[..end]) && table_file(rt, path)
}

// The files that the words from an index on name, up to the first whose line or page standard output does not take.
fn table_words(rt: &HostRuntime, first: usize) {
    let mut word = [0u8; WORD_ROOM];
    let mut line = [0u8; LINE_ROOM];
    for i in first..program_options::word_count(rt) {
        if !table_word(rt, i, &mut word, &mut line) {
            break;
        }
    }
}

// Standard input where no file is named.
fn table_all(rt: &HostRuntime, first: usize) {
    if first < program_options::word_count(rt) {
        table_words(rt, first);
    } else {
        table_from(rt, rt.stdin(), b"standard input", b"");
    }
}

fn main(rt: HostRuntime) {
    match program_options::asked(&rt, 0, usize::MAX) {
        Mode::Help => help(&rt),
        Mode::Version => program_options::print_version(&rt, b"table"),
        Mode::Operands(first) => table_all(&rt, first),
        Mode::Wrong => {
            // A usage that standard error does not take is lost.
            let _ = usage(&rt, &mut rt.stderr());
        }
    }
}
