// What a clock begins with: what it is refused for, who requests each slave, and who holds an unmapped transfer. A run of clocks begins
// with the same, once.
#![tactic(auto)]

ghost use Rattle.std.specs.Prelude.{◌≡◌, replicate};
ghost use Rattle.common_numbers.specs.Refusals.{refusal_in};
ghost use Rattle.description_board.specs.Records.{memory_length};
ghost use Rattle.description_layout.specs.Layout.{board_in};
ghost use Rattle.fabric_layout.specs.Layout.{state_in};
ghost use Rattle.fabric_calls.specs.Code.Refusals.{clock_refusal_by};
ghost use Rattle.fabric_begin.specs.Code.Beginnings.{Beginning};

use common_numbers::{BOARD_NUMBERS, BUFFER_BYTES, MASTERS, Refusal, SLAVES, STATE_NUMBERS};

// What a clock of an accepted board is refused for (rules 7.8, 7.9, 8.4): by the bytes lent and the state's check.
#[tactic(auto, unfolding(fabric_calls::specs::Code::Refusals::clock_refusal_by))]
fn clock_refusal_by(
    board: &[u32; BOARD_NUMBERS],
    sound: bool,
    memory: usize,
    buffer: usize,
) -> Result<(), Refusal>
    ensures { refusal_in result ≡ clock_refusal_by 0 (memory_length (board_in board.now)) sound memory buffer }
{
    if memory as u64 != description_rules::memory_length(board) {
        return Err(Refusal::BadLength);
    }
    if buffer != BUFFER_BYTES {
        return Err(Refusal::BadLength);
    }
    if sound {
        Ok(())
    } else {
        Err(Refusal::BadState)
    }
}

// Board, state and lengths checked once a call, in the order of refusals (rule 8.4). If nothing is refused, the masters that hold a
// transfer for each slave are left in `holders`, a mask for each (rule 4.3): the array is the caller's, so that none is copied. The
// answer is the mask of those that hold an unmapped transfer (rule 4.17).
pub fn begin(
    board: &[u32; BOARD_NUMBERS],
    state: &[u32; STATE_NUMBERS],
    memory: &[u8],
    buffer: &[u8],
    holders: &mut [u32; SLAVES],
) -> Result<u32, Refusal>
    requires { holders.old ≡ replicate 16 0 }
    ensures { Beginning (board_in board.now) (state_in state.now)
        (record { memory = memory.now; buffer = buffer.now }) holders.new result }
{
    let mut targets = [0u32; MASTERS];
    let sound = fabric_check::ready(board, state, &mut targets)?;
    clock_refusal_by(board, sound, memory.len(), buffer.len())?;
    fabric_check::request_masks(&targets, holders);
    Ok(fabric_check::unmapped_mask(board, state, &targets))
}
