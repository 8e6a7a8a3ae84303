// Rule 1 at one slave of a lent board and a lent state (rules 4.3 to 4.7): the grant, the slave's arbiter after it, and its slot.
#![tactic(auto)]

ghost use Rattle.std.specs.Prelude.{◌≡◌, ◌<◌};
ghost use Rattle.description_layout.specs.Layout.{board_in};
ghost use Rattle.fabric_arbiter.specs.Granting.{arbiter_after};
ghost use Rattle.fabric_state.specs.Records.{arbiter_of};
ghost use Rattle.fabric_state.specs.Control.{slot_by};
ghost use Rattle.fabric_layout.specs.Layout.{state_in};
ghost use Rattle.fabric_grant.specs.Code.Asking.{grant_chosen, arbitrated, slot_asked};

use common_numbers::{BOARD_NUMBERS, STATE_NUMBERS};
use fabric_arbiter::{Arbiter, Winner};
use fabric_state::Slot;

// A slave's arbiter after rule 1, and its grant (rules 4.3 to 4.6).
#[derive(Clone, Copy)]
pub struct Arbitrated {
    pub arbiter: Arbiter,
    pub grant: Option<Arbiter>,
}

// The choice (rules 4.3 to 4.6): the grant of slave s, whose arbiter is `last`, by a mask of who requests it. Shares and beats are read
// once it is known whose. Slave and mask are two of five arguments that differ in kind, each with its bound; a record of them would say
// no more than the `requires`.
fn choose(
    last: Arbiter,
    board: &[u32; BOARD_NUMBERS],
    st: &[u32; STATE_NUMBERS],
    s: usize,
    mask: u32,
) -> Option<Arbiter>
    requires { (s < 16) × (mask < 256) }
    ensures { result ≡ grant_chosen last (board_in board.now) (state_in st.now) s mask }
{
    let w = fabric_arbiter::winner_of(description_layout::master_count(board), mask, last);
    match w {
        Winner::Again => {
            fabric_arbiter::grant_by(last, w, 0, fabric_layout::beats_at(st, last.owner as usize))
        }
        Winner::First(m) => fabric_arbiter::grant_by(
            last,
            w,
            description_layout::shares_at(board, m as usize, s),
            fabric_layout::beats_at(st, m as usize),
        ),
        Winner::NoOne => None,
    }
}

// Rule 1 on the slave's own arbiter (rules 4.3 to 4.6): it is lent, the choice is asked for the grant, and the arbiter after the grant is
// stored in it.
fn arbitrate_record(
    a: &mut Arbiter,
    board: &[u32; BOARD_NUMBERS],
    st: &[u32; STATE_NUMBERS],
    s: usize,
    mask: u32,
) -> Option<Arbiter>
    requires { (s < 16) × (mask < 256) }
    ensures { (result ≡ grant_chosen a.old (board_in board.now) (state_in st.now) s mask)
        × (a.new ≡ arbiter_after a.old result) }
{
    let last = *a;
    let grant = choose(last, board, st, s, mask);
    *a = fabric_arbiter::arbiter_after(last, grant);
    grant
}

// The arbiter is lent to rule 1 (rules 4.3 to 4.6), and answered as it comes back, with the grant.
#[tactic(auto, unfolding(crate::specs::Code::Asking::arbitrated))]
fn arbitrate(
    mut a: Arbiter,
    board: &[u32; BOARD_NUMBERS],
    st: &[u32; STATE_NUMBERS],
    s: usize,
    mask: u32,
) -> Arbitrated
    requires { (s < 16) × (mask < 256) }
    ensures { result ≡ arbitrated a (grant_chosen a (board_in board.now) (state_in st.now) s mask) }
{
    let grant = arbitrate_record(&mut a, board, st, s, mask);
    Arbitrated { arbiter: a, grant }
}

// The slave's arbiter (rule 4.1). No `From`: it would have to stand in fabric_state, which has no function, so that edits of its rules
// are cheap.
fn arbiter_of(slot: Slot) -> Arbiter
    ensures { result ≡ arbiter_of slot }
{
    let Slot {
        owner,
        remaining,
        ..
    } = slot;
    Arbiter { owner, remaining }
}

// The slot by its arbiter after a grant, or after none (rule 4.7).
#[tactic(auto, unfolding(fabric_state::specs::Control::slot_by))]
fn slot_by(slot: Slot, a: Arbiter, g: Option<Arbiter>) -> Slot
    ensures { result ≡ slot_by slot a g }
{
    let Arbiter { owner, remaining } = a;
    match g {
        Some(_) => Slot {
            owner,
            remaining,
            serving: true,
            done: 0,
            waited: 0,
        },
        None => Slot {
            owner,
            remaining,
            serving: false,
            ..slot
        },
    }
}

// The slot of slave s after rule 1 (rules 4.3 to 4.7), by a mask of who requests it. A slave that serves keeps its slot.
pub fn slot_asked(
    board: &[u32; BOARD_NUMBERS],
    st: &[u32; STATE_NUMBERS],
    s: usize,
    mask: u32,
) -> Slot
    requires { (s < 16) × (mask < 256) }
    ensures { result ≡ slot_asked (board_in board.now) (state_in st.now) s mask }
{
    let slot = fabric_layout::slot_at(st, s);
    if slot.serving {
        return slot;
    }
    let Arbitrated { arbiter, grant } = arbitrate(arbiter_of(slot), board, st, s, mask);
    slot_by(slot, arbiter, grant)
}
