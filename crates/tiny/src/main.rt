// Reads one word on a board of one master and one card, and says that the transfer is finished.
#![tactic(auto)]

use common_numbers::{BOARD_NUMBERS, BUFFER_BYTES, LINES_NUMBERS, MASTERS, Refusal, STATE_NUMBERS};

// Whether the one master's transfer is finished within a thousand clocks.
fn read_word() -> Result<bool, Refusal> {
    let text = b"master,4,8\nslave,4096,4096,4,8,0,0,0,0\nshare,0,0,1\n";
    let mut board = [0u32; BOARD_NUMBERS];
    let mut state = [0u32; STATE_NUMBERS];
    let mut lines = [0u32; LINES_NUMBERS];
    let mut responses = [0u32; MASTERS];
    let mut memory = [0u8; 4096];
    let mut buffer = [0u8; BUFFER_BYTES];
    description::read(text, &mut board)?;
    fabric::reset(&board, &mut state)?;
    fabric::post(&board, &mut state, &mut buffer, 0, false, 4096, 15, 1, b"")?;
    let ran = fabric::run(
        &board,
        &mut state,
        &mut memory,
        &mut buffer,
        &mut lines,
        &mut responses,
        1000,
    )?;
    Ok(ran.mask == 1)
}

fn main(rt: HostRuntime) {
    if let Ok(true) = read_word() {
        let _ = rt.write_all(b"finished\n");
    }
}
