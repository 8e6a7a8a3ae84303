// Whether a state breaks a rule (rule 7.9), and what a call finds of a board and a state before it acts.
// That the board is accepted stays a `requires`: the board is lent as C lends it, and cannot carry the fact.
// Tests of numbers at hand are joined by & and |, not by && and ||: each part is safe by itself, and a proof meets the whole as one test.
// && stands in front of a test that goes through an array, as in `sound`.
#![tactic(auto)]

mod transfers;

ghost use Rattle.std.specs.Prelude.{◌≡◌, true, ◌<◌};
ghost use Rattle.common_laws.specs.Lists.{every};
ghost use Rattle.description_board.specs.Items.{board_refusal};
ghost use Rattle.fabric_transfer.specs.Code.Numbers.{Posted};
ghost use Rattle.fabric_state.specs.Soundness.{sound_transfer, sound_slot_by, sound_slot, sound};
ghost use Rattle.description_layout.specs.Layout.{board_in};
ghost use Rattle.fabric_layout.specs.Layout.{state_in};
ghost use Rattle.fabric_check.specs.Code.Checks.{latency_by, Held, Answered, Decoded, Preconditions};
ghost use Rattle.fabric_check.specs.Code.Targets.{unmapped_mask};

use common_numbers::{BOARD_NUMBERS, MASTERS, Refusal, STATE_NUMBERS};
use fabric_accesses::{Pair, Posting};
use fabric_state::Slot;
use fabric_transfer::Transfer;
pub use transfers::{request_masks, transfer_refusal, weight_of};

// The latency of a transfer at the slave of this number, which is the count of slaves where the transfer is unmapped: that has
// none (rules 4.16, 4.17).
#[tactic(auto, unfolding(crate::specs::Code::Checks::latency_by, fabric_state::specs::Posting::unmapped))]
fn latency_by(posting: Posting, target: u32, count: u32) -> u32
    ensures { result ≡ latency_by posting.pair.slave posting.transfer target count }
{
    if target == count {
        0
    } else {
        posting.latency_of()
    }
}

// Whether the transfer t of master m breaks no rule with so many latency clocks to pass (rule 7.9); where it breaks none, the slave
// that it is for is left in `targets`. The rules ask for that slave and so does the call that follows: an address is decoded once.
fn held_at(
    board: &[u32; BOARD_NUMBERS],
    m: usize,
    t: Transfer,
    late: u32,
    targets: &mut [u32; MASTERS],
) -> bool
    requires { (board_refusal (board_in board.now) ≡ 0) × (m < 8) }
    ensures { Held (board_in board.now) m t late result targets.old targets.new }
{
    let count = description_layout::slave_count(board);
    if !t.held {
        targets[m] = count;
        return late == 0;
    }
    if description_layout::master_count(board) as usize <= m {
        return false;
    }
    let target = transfers::target_of(board, m, t.address);
    targets[m] = target;
    // the number of slaves can be 16: what stands for no slave is looked up, and not used
    let slave = description_layout::slave_at(board, (target % 16) as usize);
    let master = description_layout::master_at(board, m);
    let posting = Posting {
        pair: Pair { master, slave },
        transfer: t,
    };
    let default = description_layout::default_at(board);
    let passed = transfers::transfer_refusal_by(posting, target, count, default);
    passed.is_ok() & (late <= latency_by(posting, target, count))
}

// Whether no transfer breaks a rule (rule 7.9); where none does, each one's slave is left in `targets`. One pass decodes and
// checks.
fn sound_transfers(
    board: &[u32; BOARD_NUMBERS],
    st: &[u32; STATE_NUMBERS],
    targets: &mut [u32; MASTERS],
) -> bool
    requires { board_refusal (board_in board.now) ≡ 0 }
    ensures { Answered (board_in board.now) (state_in st.now)
        (every (sound_transfer (board_in board.now) (state_in st.now)) 8) result targets.new }
{
    for m in 0..8 {
        let t = fabric_layout::transfer_at(st, m);
        let late = fabric_layout::late_at(st, m);
        if !held_at(board, m, t, late, targets) {
            return false;
        }
    }
    true
}

// Whether a slot whose owner is a master of the board breaks no rule (rule 7.9): of its owner's shares, whether its owner
// requests this slave, and the two and its transfer.
#[tactic(auto, using(crate::proofs::CheckLaws::slot_serving, crate::proofs::CheckLaws::slot_elsewhere, crate::proofs::CheckLaws::slot_resting, crate::proofs::CheckLaws::slot_over))]
fn sound_slot_by(slot: Slot, share: u32, here: bool, posting: Posting) -> bool
    requires { here ≡ true → Posted posting.pair.master posting.pair.slave posting.transfer }
    ensures { result ≡ sound_slot_by share here posting.pair.master posting.pair.slave posting.transfer slot }
{
    let granted = (slot.remaining == 0) | (slot.remaining < share);
    if !granted {
        return false;
    }
    if !slot.serving {
        return (slot.done == 0) & (slot.waited == 0);
    }
    if !here {
        return false;
    }
    let left = u64::from(slot.done) < posting.accesses();
    left & (slot.waited <= posting.wait_of())
}

// Whether no slot breaks a rule (rule 7.9). Each slot is read once.
fn sound_slots(
    board: &[u32; BOARD_NUMBERS],
    st: &[u32; STATE_NUMBERS],
    targets: &[u32; MASTERS],
) -> bool
    requires { Decoded (board_in board.now) (state_in st.now) targets.now }
    ensures { result ≡ every (sound_slot (board_in board.now) (state_in st.now))
        (board_in board.now).slave_count }
{
    let masters = description_layout::master_count(board);
    for s in 0..description_layout::slave_count(board) {
        let i = s as usize;
        let slot = fabric_layout::slot_at(st, i);
        if masters <= slot.owner {
            return false;
        }
        let owner = slot.owner as usize;
        let share = description_layout::shares_at(board, owner, i);
        let master = description_layout::master_at(board, owner);
        let slave = description_layout::slave_at(board, i);
        let transfer = fabric_layout::transfer_at(st, owner);
        let posting = Posting {
            pair: Pair { master, slave },
            transfer,
        };
        let late = fabric_layout::late_at(st, owner);
        let target = targets[owner];
        if !sound_slot_by(slot, share, (late == 0) & (target == s), posting) {
            return false;
        }
    }
    true
}

// Whether the state breaks no rule (rule 7.9); where it breaks none, the slave of each transfer is left in `targets`.
#[tactic(auto, unfolding(fabric_state::specs::Soundness::sound, fabric_state::specs::Soundness::sound_log))]
fn sound(
    board: &[u32; BOARD_NUMBERS],
    st: &[u32; STATE_NUMBERS],
    targets: &mut [u32; MASTERS],
) -> bool
    requires { board_refusal (board_in board.now) ≡ 0 }
    ensures { Answered (board_in board.now) (state_in st.now)
        (sound (board_in board.now) (state_in st.now)) result targets.new }
{
    sound_transfers(board, st, targets)
        && sound_slots(board, st, targets)
        && fabric_layout::log_count(st) <= 8
}

// The masters that hold an unmapped transfer (rule 4.17): bit m for master m. Without the line `default` there is none in a state that
// breaks no rule, and no master is looked at.
#[tactic(auto, using(crate::proofs::UnmappedMask::unmapped_next, crate::proofs::UnmappedMask::unmapped_fits, crate::proofs::UnmappedMask::unmapped_all, crate::proofs::UnmappedMask::unmapped_none), unfolding(common_laws::specs::Lists::sum))]
pub fn unmapped_mask(
    board: &[u32; BOARD_NUMBERS],
    st: &[u32; STATE_NUMBERS],
    targets: &[u32; MASTERS],
) -> u32
    requires { Decoded (board_in board.now) (state_in st.now) targets.now }
    ensures { result ≡ unmapped_mask (board_in board.now) (state_in st.now) }
{
    if !description_layout::default_at(board) {
        return 0;
    }
    let count = description_layout::slave_count(board);
    let mut mask: u32 = 0;
    for m in 0..8 {
        let t = fabric_layout::transfer_at(st, m as usize);
        let target = targets[m as usize];
        mask += transfers::weight_of(t.held & (target == count), m);
    }
    mask
}

// The board and the state checked once a call: the board's refusal first (rules 8.4, 8.5), then whether the state breaks no rule (rule
// 7.9). Where it breaks none, the slave of each master's transfer is left in `targets`: the array is the caller's, so that none is
// copied.
#[tactic(auto, using(crate::proofs::CheckLaws::board_refused))]
pub fn ready(
    board: &[u32; BOARD_NUMBERS],
    st: &[u32; STATE_NUMBERS],
    targets: &mut [u32; MASTERS],
) -> Result<bool, Refusal>
    ensures { Preconditions (board_in board.now) (state_in st.now) result targets.new }
{
    description_check::board_refusal(board)?;
    Ok(sound(board, st, targets))
}
