// Wait and serve of a pair: singles, longest transfers, turns and their sum (rules 5.1 to 5.7).
#![tactic(auto)]

ghost use Rattle.std.specs.Prelude.{◌≡◌, ◌≤◌, ◌<◌};
ghost use Rattle.description_board.specs.Legal.{LegalMaster, LegalSlave, Legal};
ghost use Rattle.description_layout.specs.Layout.{board_in};
ghost use Rattle.wait_turns.specs.Waits.{longest_access, single_access, most_beats, single, serve, turn};
ghost use Rattle.wait_turns.specs.Sums.{turn_at, turns_at};
ghost use Rattle.wait_turns.specs.Code.Pairs.{LegalBoth, SlaveOf, PairOf, figures_of, slave_turns};

use common_numbers::BOARD_NUMBERS;
use description_board::Slave;
use fabric_accesses::Pair;

// Wait and serve of a pair, in clocks (rules 5.5, 5.7).
#[derive(Clone, Copy)]
pub struct Quote {
    pub wait: u64,
    pub serve: u64,
}

// The clocks of a single's access at a slave, its v, and the turns of all masters there (rules 5.1, 5.6, 5.7).
#[derive(Clone, Copy)]
pub struct Turns {
    pub single: u32,
    pub v: u32,
    pub sum: u64,
}

// v, the clocks of one access at most (rule 5.1).
#[tactic(auto, unfolding(crate::specs::Waits::longest_access))]
pub fn longest_access(sl: Slave) -> u32
    requires { LegalSlave sl }
    ensures { result ≡ longest_access sl }
{
    1 + sl.read_wait.max(sl.write_wait)
}

// The clocks of one access of a single that is not the last transfer of a turn (rule 5.6), by the slave's v. Where the slave has
// latency a read ends its master's turn, so that such a single is a write.
#[tactic(auto, using(crate::proofs::AccessLaws::single_access_plain, crate::proofs::AccessLaws::single_access_late))]
pub fn single_access(sl: Slave, v: u32) -> u32
    requires { LegalSlave sl × (v ≡ longest_access sl) }
    ensures { result ≡ single_access sl }
{
    if sl.latency == 0 {
        v
    } else {
        1 + sl.write_wait
    }
}

// n, the most beats of one transfer (rule 5.3).
#[tactic(auto, unfolding(crate::specs::Waits::most_beats))]
pub fn most_beats(pair: Pair) -> u32
    requires { LegalMaster pair.master }
    ensures { result ≡ most_beats pair.master pair.slave }
{
    let Pair { master, slave } = pair;
    let words = fabric_accesses::quotient(slave.span, master.width);
    master.burst.min(words)
}

// A master and a slave whose values are in their lists and ranges (rules 1.6, 1.7).
#[derive(Clone, Copy)]
pub struct LegalPair {
    pub pair: Pair,
    pub ghost legal: { LegalBoth pair.master pair.slave },
}

impl LegalPair {
    // The clocks of a transfer of one beat, by those of an access (rules 5.5, 5.6). A ratio is at most 8, a burst 64, and a and v
    // have 32 bits: no product here wraps.
    #[tactic(auto, unfolding(crate::specs::Waits::single))]
    pub fn single(self, a: u32) -> u64
        ensures { result ≡ single self.pair.master self.pair.slave a }
    {
        u64::from(self.pair.ratio()) * u64::from(a)
    }

    // The clocks of the longest transfer, the serve (rule 5.5).
    #[tactic(auto, unfolding(crate::specs::Waits::serve))]
    pub fn serve(self, v: u32) -> u64
        ensures { result ≡ serve self.pair.master self.pair.slave v }
    {
        let beats = u64::from(most_beats(self.pair));
        let each = u64::from(self.pair.ratio());
        beats * each * u64::from(v)
    }

    // The clocks of a turn (rule 5.6): a single for every share but one, with accesses of a clocks, and the longest transfer.
    #[tactic(auto, unfolding(crate::specs::Waits::turn))]
    pub fn turn(self, shares: u32, a: u32, v: u32) -> u64
        requires { shares ≤ 100 }
        ensures { result ≡ turn self.pair.master self.pair.slave shares a v }
    {
        let singles = shares.saturating_sub(1);
        u64::from(singles) * self.single(a) + self.serve(v)
    }
}

// A slave, read once for all masters, and what its turns are made of: the clocks of a single's access and v (rules 5.1, 5.6).
#[derive(Clone, Copy)]
struct AtSlave {
    s: u32,
    slave: Slave,
    single: u32,
    v: u32,
}

// The turn of master k at a slave (rule 5.6); 0 where they are not connected.
#[tactic(auto, using(crate::proofs::TurnSums::turn_none, crate::proofs::TurnSums::turn_some, crate::proofs::TurnSums::shares_legal))]
fn turn_at(board: &[u32; BOARD_NUMBERS], at: AtSlave, k: u32) -> u64
    requires { SlaveOf (board_in board.now) at.slave at.s × (k < (board_in board.now).master_count) }
    ensures { result ≡ turn_at (board_in board.now) at.single at.v at.s k }
{
    let shares = description_layout::shares_at(board, k as usize, at.s as usize);
    if shares == 0 {
        return 0;
    }
    let master = description_layout::master_at(board, k as usize);
    let pair = Pair {
        master,
        slave: at.slave,
    };
    LegalPair { pair }.turn(shares, at.single, at.v)
}

// The turns at a slave, added up over its masters (rule 5.7). The clocks of a single's access and v are handed in, and the sum is
// right whatever they are: with 32 bits a turn is below 2 ^ 50, so that 8 of them fit.
#[tactic(auto, using(crate::proofs::TurnSums::turns_none, crate::proofs::TurnSums::turns_more, crate::proofs::TurnSums::turns_all))]
fn turns_at(board: &[u32; BOARD_NUMBERS], at: AtSlave) -> u64
    requires { SlaveOf (board_in board.now) at.slave at.s }
    ensures { result ≡ turns_at (board_in board.now) at.single at.v at.s }
{
    let mut sum = 0;
    for k in 0..description_layout::master_count(board) {
        sum += turn_at(board, at, k);
    }
    sum
}

// The clocks of a single's access at slave s, its v, and the turns there (rules 5.1, 5.6, 5.7). Which wait is the longer one and
// whether the slave has latency is asked here once, and not again for each master.
#[tactic(auto, using(crate::proofs::TurnSums::turns_of_slave))]
pub fn slave_turns(board: &[u32; BOARD_NUMBERS], s: u32) -> Turns
    requires { Legal (board_in board.now) × (s < (board_in board.now).slave_count) }
    ensures { result ≡ slave_turns (board_in board.now) s }
{
    let slave = description_layout::slave_at(board, s as usize);
    let v = longest_access(slave);
    let single = single_access(slave, v);
    let at = AtSlave {
        s,
        slave,
        single,
        v,
    };
    Turns {
        single,
        v,
        sum: turns_at(board, at),
    }
}

// Wait and serve of master m at slave s (rules 5.5, 5.7), by the turns there: its own is taken off.
#[tactic(auto, using(crate::proofs::TurnSums::slave_of_lem, crate::proofs::TurnSums::both_legal, crate::proofs::TurnSums::own_within))]
pub fn figures_by(board: &[u32; BOARD_NUMBERS], t: Turns, m: u32, s: u32) -> Quote
    requires { PairOf (board_in board.now) m s × (t ≡ slave_turns (board_in board.now) s) }
    ensures { result ≡ figures_of (board_in board.now) m s }
{
    let slave = description_layout::slave_at(board, s as usize);
    let at = AtSlave {
        s,
        slave,
        single: t.single,
        v: t.v,
    };
    let own = turn_at(board, at, m);
    let wait = t.sum - own;
    let master = description_layout::master_at(board, m as usize);
    let pair = Pair { master, slave };
    Quote {
        wait,
        serve: LegalPair { pair }.serve(t.v),
    }
}

// Wait and serve of master m at slave s (rules 5.5, 5.7).
pub fn figures_of(board: &[u32; BOARD_NUMBERS], m: u32, s: u32) -> Quote
    requires { PairOf (board_in board.now) m s }
    ensures { result ≡ figures_of (board_in board.now) m s }
{
    figures_by(board, slave_turns(board, s), m, s)
}
