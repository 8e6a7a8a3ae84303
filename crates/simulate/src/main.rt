// Simulates a bus fabric clock by clock: `simulate BOARD < SCRIPT`. BOARD names a description's file, the script's lines say
// what to do. `simulate --help` lists what the refusals' numbers mean.
#![tactic(auto)]

mod obey;

use common_numbers::{BOARD_NUMBERS, LAST_REFUSAL, Refusal, TEXT_ROOM};
use program_options::Mode;
use program_streams::Outcome;
use std::env::Env;
use std::fs::File;
use std::io;
use std::io::Write;

// The operating system's number of a name that is too long.
const NAME_TOO_LONG: i32 = 36;

fn usage<W: Write>(rt: &HostRuntime, to: &mut W) -> io::Result<()> {
    program_streams::write_all(rt, to, b"usage: simulate BOARD < SCRIPT\n")
}

// The usage, and what the numbers mean that the calls answer.
fn print_help(rt: &HostRuntime) -> io::Result<()> {
    usage(rt, &mut rt.stdout())?;
    program_streams::write_all(
        rt,
        &mut rt.stdout(),
        b"Runs the script's lines on the board and prints what each call answers, a refusal by its number:\n",
    )?;
    program_refusals::list(rt, &mut rt.stdout(), LAST_REFUSAL)
}

fn help(rt: &HostRuntime) {
    program_options::printed(rt, b"simulate", print_help(rt));
}

// The board is refused: its number on standard output, the line and the cause on standard error.
fn refuse(rt: &HostRuntime, path: &[u8], text: &[u8], refusal: Refusal) {
    let taken = program_refusals::print(rt, refusal.number());
    program_options::printed(rt, b"simulate", taken);
    if let Err(blame) = description::refused_at(text) {
        let number = blame.refusal.number();
        program_refusals::explain(rt, b"simulate", path, text, number, blame.charged);
    }
}

// Obeys the script on the board that a text describes.
fn simulate(rt: &HostRuntime, path: &[u8], text: &[u8]) {
    let mut board = [0; BOARD_NUMBERS];
    match description::read(text, &mut board) {
        Ok(()) => obey::obey_script(rt, text, &mut board),
        Err(refusal) => refuse(rt, path, text, refusal),
    }
}

// Reads the board's file, up to one byte more than a description may have: the reader refuses a longer one by its length. A
// program that is started with standard input, output or error closed has that number for the file. It is open for reading only,
// and closed before the script is read and anything is printed, so that it is neither read nor written for one of those.
fn simulate_from(rt: &HostRuntime, path: &[u8], mut file: File) {
    let mut text = [0; TEXT_ROOM];
    let got = program_streams::read_all(rt, &mut file, &mut text);
    if let Outcome::Failed(error) = got.outcome {
        program_streams::report(rt, b"simulate", path, &error);
        return;
    }
    drop(file);
    simulate(rt, path, &text[..got.end]);
}

fn simulate_file(rt: &HostRuntime, path: &[u8]) {
    match program_streams::open(rt, path) {
        Ok(file) => simulate_from(rt, path, file),
        Err(error) => program_streams::report(rt, b"simulate", path, &error),
    }
}

// The word at an index names the board's file.
fn simulate_word(rt: &HostRuntime, i: usize) {
    let mut path = [0; 4096];
    match rt.arg(i, &mut path) {
        Ok(n) => simulate_file(rt, &path[..n]),
        Err(_) => {
            let error = io::Error::from_raw_os_error(NAME_TOO_LONG);
            program_streams::report(rt, b"simulate", b"BOARD", &error);
        }
    }
}

fn main(rt: HostRuntime) {
    match program_options::asked(&rt, 1, 1) {
        Mode::Help => help(&rt),
        Mode::Version => program_options::print_version(&rt, b"simulate"),
        Mode::Operands(i) => simulate_word(&rt, i),
        Mode::Wrong => {
            // A usage that standard error does not take is lost.
            let _ = usage(&rt, &mut rt.stderr());
        }
    }
}
