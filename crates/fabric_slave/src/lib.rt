// One slave's clock after rule 1: the wait or the access, and the line that it shows (rules 4.8, 4.9, 4.13).
#![tactic(auto)]

ghost use Rattle.std.specs.Prelude.{◌≡◌};
ghost use Rattle.fabric_transfer.specs.Code.Reaching.{Reached};
ghost use Rattle.fabric_state.specs.Control.{line_of, waits, served};
ghost use Rattle.fabric_slave.specs.Code.Serving.{Asked, Serves, Served, carried_from};

use fabric_accesses::Posting;
use fabric_state::{ACCESS, Line, Slot, Step, WAITING};

// A slave that serves, in one clock: its owner's transfer there and the slot, with what is asked of them once, for the step, the
// line and the bytes: how many accesses there are, which one is in hand, and whether it has still to wait.
#[derive(Clone, Copy)]
struct Service {
    posting: Posting,
    slot: Slot,
    total: u64,
    access: u32,
    waiting: bool,
}

// Rule 2 (rule 4.8): whether the access in hand has still to wait. Each access waits anew: waits passed are 0 again behind it.
fn waits(posting: Posting, slot: Slot) -> bool
    ensures { result ≡ waits posting.pair.slave posting.transfer slot }
{
    slot.waited < posting.wait_of()
}

impl Service {
    // What the slave shows of the access in hand (rule 4.13).
    fn line_of(self, phase: u32) -> Line
        requires { Asked self }
        ensures { result ≡ line_of self.posting.pair.master self.posting.pair.slave self.posting.transfer self.slot phase }
    {
        let Service {
            posting,
            slot,
            total,
            access,
            ..
        } = self;
        let offset = posting.word_offset(access);
        let lanes = posting.slave_lanes(access);
        let run = posting.run_of(total, slot.done);
        let place = posting.pair.place_of(slot.done);
        Line {
            phase,
            owner: slot.owner,
            offset: offset as u32,
            lanes,
            run,
            place,
        }
    }

    // Rules 2 and 3 (rules 4.8, 4.9).
    fn served(self) -> Step
        requires { Asked self }
        ensures { result ≡ served self.posting.pair.master self.posting.pair.slave self.posting.transfer self.slot }
    {
        let slot = self.slot;
        if self.waiting {
            return Step {
                slot: Slot {
                    waited: slot.waited + 1,
                    ..slot
                },
                line: self.line_of(WAITING),
                last: false,
            };
        }
        let line = self.line_of(ACCESS);
        let done = slot.done + 1;
        if u64::from(done) < self.total {
            return Step {
                slot: Slot {
                    done,
                    waited: 0,
                    ..slot
                },
                line,
                last: false,
            };
        }
        Step {
            slot: Slot {
                serving: false,
                done: 0,
                waited: 0,
                ..slot
            },
            line,
            last: true,
        }
    }

    // The bytes of the access in hand, if the slave carries it out in this clock (rule 4.8); its span starts at `start`.
    fn carry_from(self, start: usize, memory: &mut [u8], buffer: &mut [u8])
        requires { (Asked self)
            × Reached self.posting.pair.master self.posting.pair.slave self.posting.transfer self.slot.owner start
            self.access (record { memory = memory.old; buffer = buffer.old }) }
        ensures { record { memory = memory.new; buffer = buffer.new }
            ≡ carried_from self.posting.pair.master self.posting.pair.slave self.posting.transfer self.slot start
            (record { memory = memory.old; buffer = buffer.old }) }
    {
        if self.waiting {
            return;
        }
        let m = self.slot.owner as usize;
        fabric_bytes::carry_access(self.posting, m, start, self.access, memory, buffer);
    }
}

// One clock of a slave that serves (rules 4.8, 4.9). How many accesses there are, which one is in hand and whether the slave waits
// are asked once, for its step, its line and its bytes.
pub fn serve(
    posting: Posting,
    slot: Slot,
    start: usize,
    memory: &mut [u8],
    buffer: &mut [u8],
) -> Step
    requires { Serves posting.pair.master posting.pair.slave posting.transfer slot start
        (record { memory = memory.old; buffer = buffer.old }) }
    ensures { Served posting.pair.master posting.pair.slave posting.transfer slot start
        (record { memory = memory.old; buffer = buffer.old })
        (record { memory = memory.new; buffer = buffer.new }) result }
{
    let service = Service {
        posting,
        slot,
        total: posting.accesses(),
        access: posting.access_number(slot.done),
        waiting: waits(posting, slot),
    };
    service.carry_from(start, memory, buffer);
    service.served()
}
