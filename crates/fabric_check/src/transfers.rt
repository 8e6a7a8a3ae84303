// Transfers: which slave each is for, who requests a slave, and what a transfer is refused for (rules 3.6, 3.7, 4.3, 7.13 to 7.17).
// Tests of numbers at hand are joined by & and |, not by && and ||: each part is safe by itself, and a proof meets the whole as one test.
// && stands in front of a test that goes through an array or reads it, as in `target_of`.
ghost use Rattle.std.specs.Prelude.{◌≡◌, true, cond, ◌^◌, ◌<◌, replicate};
ghost use Rattle.common_laws.specs.Lists.{member, table};
ghost use Rattle.common_numbers.specs.Refusals.{refusal_in};
ghost use Rattle.description_board.specs.Rules.{widths};
ghost use Rattle.description_board.specs.Items.{board_refusal};
ghost use Rattle.fabric_transfer.specs.Decoding.{target_of};
ghost use Rattle.fabric_state.specs.Posting.{transfer_refusal_by, transfer_refusal};
ghost use Rattle.description_layout.specs.Layout.{board_in};
ghost use Rattle.fabric_check.specs.Code.Targets.{request_mask};
ghost use Rattle.fabric_check.specs.Code.Decoded.{Decodes};

use common_numbers::{BOARD_NUMBERS, MASTERS, Refusal, SLAVES};
use fabric_accesses::{Pair, Posting};
use fabric_transfer::Transfer;

// The slave that an address selects for master m, or the count of slaves (rule 3.6). Most slaves are ruled out by their address,
// so that shares are read only where it agrees. For no slave the count stands, as in the definition: a lent array of targets, and one
// comparison on the clock's path.
pub fn target_of(board: &[u32; BOARD_NUMBERS], m: usize, address: u32) -> u32
    requires { Decodes (board_in board.now) × m < 8 }
    ensures { result ≡ target_of (board_in board.now) m address }
{
    let count = description_layout::slave_count(board);
    for s in 0..count {
        let i = s as usize;
        let sl = description_layout::slave_at(board, i);
        if fabric_accesses::agrees(sl, address) && 0 < description_layout::shares_at(board, m, i) {
            return s;
        }
    }
    count
}

// The bit of master m in a mask, where it is on (rules 4.3, 4.13).
pub fn weight_of(on: bool, m: u32) -> u32
    requires { m < 8 }
    ensures { result ≡ cond on (2 ^ m) 0 }
{
    u32::from(on) << m
}

// The requests for each slave (rule 4.3): bit m is 1 where the transfer of master m is for it. One pass over the masters adds
// them all to an array of zeros; a target that is no slave adds 0, so that the pass has no branch.
#[tactic(auto, using(crate::proofs::TargetLaws::masks_none, crate::proofs::TargetLaws::masks_next, crate::proofs::TargetLaws::masks_fit, crate::proofs::TargetLaws::masks_all))]
pub fn request_masks(targets: &[u32; MASTERS], out: &mut [u32; SLAVES])
    requires { out.old ≡ replicate 16 0 }
    ensures { out.new ≡ table (request_mask targets.now) 16 }
{
    for m in 0..8 {
        let target = targets[m as usize];
        let i = (target % 16) as usize;
        out[i] += weight_of(target < 16, m);
    }
}

// What an unmapped transfer is refused for (rules 3.7, 7.16).
fn unmapped_refusal(default: bool) -> Result<(), Refusal>
    ensures { refusal_in result ≡ cond default 0 16 }
{
    if default {
        Ok(())
    } else {
        Err(Refusal::NotConnected)
    }
}

// What a transfer is refused for (rules 3.7, 7.13 to 7.17): of its master and the slave that it is for, that slave's number, or
// the count of slaves where it is for none, and whether the board has the line `default`. A width is a power of two, so that a mask leaves
// what is over a multiple of it.
#[tactic(auto, using(fabric_transfer::proofs::PowerLaws::over_width, fabric_transfer::proofs::AccessLaws::width_pos, fabric_transfer::proofs::AccessLaws::width_le, crate::proofs::RefusalLaws::bytes_most), unfolding(fabric_state::specs::Posting::transfer_refusal_by, fabric_state::specs::Posting::wrong_beats, fabric_state::specs::Posting::unaligned, fabric_state::specs::Posting::wrong_lanes, fabric_state::specs::Posting::unmapped, fabric_state::specs::Posting::passes_end))]
pub fn transfer_refusal_by(
    posting: Posting,
    target: u32,
    count: u32,
    default: bool,
) -> Result<(), Refusal>
    requires { member posting.pair.master.width widths ≡ true }
    ensures { refusal_in result
        ≡ transfer_refusal_by posting.pair.master posting.pair.slave posting.transfer target count default }
{
    let Posting {
        pair: Pair { master, slave },
        transfer,
    } = posting;
    if (transfer.beats == 0) | (master.burst < transfer.beats) {
        return Err(Refusal::BadBeats);
    }
    if transfer.address & (master.width - 1) != 0 {
        return Err(Refusal::BadAddress);
    }
    if !fabric_lanes::post_lanes(master.width, transfer.lanes, transfer.beats) {
        return Err(Refusal::BadLanes);
    }
    if target == count {
        return unmapped_refusal(default);
    }
    // an end can pass the last address, so it is a u64
    let bytes = u64::from(transfer.beats) * u64::from(master.width);
    if u64::from(slave.base) + u64::from(slave.span) < u64::from(transfer.address) + bytes {
        return Err(Refusal::PastEnd);
    }
    Ok(())
}

// What the transfer t of master m is refused for (rules 7.13 to 7.17).
pub fn transfer_refusal(board: &[u32; BOARD_NUMBERS], m: usize, t: Transfer) -> Result<(), Refusal>
    requires { (board_refusal (board_in board.now) ≡ 0) × (m < (board_in board.now).master_count) }
    ensures { refusal_in result ≡ transfer_refusal (board_in board.now) m t }
{
    let at = target_of(board, m, t.address);
    // the number of slaves can be 16: what stands for no slave is looked up, and not used
    let slave = description_layout::slave_at(board, (at % 16) as usize);
    let master = description_layout::master_at(board, m);
    let posting = Posting {
        pair: Pair { master, slave },
        transfer: t,
    };
    let count = description_layout::slave_count(board);
    transfer_refusal_by(posting, at, count, description_layout::default_at(board))
}
