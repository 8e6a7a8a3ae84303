// One pair of master and slave: accesses, lanes, runs; address decoding (rules 3.6, 4.10 to 4.14).
// Widths, bursts and spans are powers of two (rule 1.6), so that shifts and masks do what divisions would.
#![tactic(auto)]

ghost use Rattle.std.specs.Prelude.{◌≡◌, true, ◌*◌, ◌-◌, ◌/◌, ◌%◌, ◌≤◌, ◌<◌};
ghost use Rattle.common_laws.specs.Lists.{member};
ghost use Rattle.description_board.specs.Rules.{widths, bursts};
ghost use Rattle.fabric_transfer.specs.Decoding.{agrees};
ghost use Rattle.fabric_transfer.specs.Code.Pairs.{Span};
ghost use Rattle.description_board.specs.Records.{is_native};
ghost use Rattle.fabric_transfer.specs.Alignment.{ratio, leaves_out, lane_bytes, access_bytes};
ghost use Rattle.fabric_transfer.specs.Accesses.{first_byte, access_offset, word_offset, write_lanes, slave_lanes};
ghost use Rattle.fabric_transfer.specs.Accesses.{accesses, access_number, wait_of, latency_of, own_length};
ghost use Rattle.fabric_transfer.specs.Runs.{run_limit, place_of, run_of};
ghost use Rattle.fabric_transfer.specs.Code.Pairs.{Widths, InWord};
ghost use Rattle.fabric_transfer.specs.Code.Numbers.{Posted, first_access, beat_accesses};

use description_board::{Master, Slave};
use fabric_transfer::Transfer;

// A master and a slave.
#[derive(Clone, Copy)]
pub struct Pair {
    pub master: Master,
    pub slave: Slave,
}

// A transfer that the pair's master posts at its slave. What a method requires is no ghost field, here or of `Pair`, since whoever
// makes one would be asked for it: some methods ask for nothing (lane_bytes, wait_of, ..), some for legal widths alone, some for a
// legal burst alone, and none is to ask for more (docs/PROMISES.md).
#[derive(Clone, Copy)]
pub struct Posting {
    pub pair: Pair,
    pub transfer: Transfer,
}

// The words of this width in so many bytes (rules 4.10, 5.3).
pub fn quotient(bytes: u32, width: u32) -> u32
    requires { member width widths ≡ true }
    ensures { result ≡ bytes / width }
{
    bytes >> u32::trailing_zeros(width)
}

// What is over a multiple of this width.
pub fn over_width(at: u64, width: u32) -> u64
    requires { member width widths ≡ true }
    ensures { result ≡ at % width }
{
    at & u64::from(width - 1)
}

// The bits of a number of weight span and above (rule 3.6): a span is a power of two, and the bits below it are masked out.
fn above_span(n: u32, span: u32) -> u32
    requires { Span span }
    ensures { result ≡ n / span * span }
{
    n - (n & (span - 1))
}

// Whether an address has the same bits of weight span and above as the slave's base (rule 3.6).
pub fn agrees(sl: Slave, address: u32) -> bool
    requires { Span sl.span }
    ensures { result ≡ agrees sl address }
{
    above_span(address, sl.span) == above_span(sl.base, sl.span)
}

// Whether the slave has native alignment (rule 1.6).
#[tactic(auto, unfolding(description_board::specs::Records::is_native))]
pub fn is_native(sl: Slave) -> bool
    ensures { result ≡ is_native sl }
{
    sl.native == 1
}

impl Pair {
    // The bytes of an access that have a lane in the slave (rule 4.10).
    #[tactic(auto, unfolding(fabric_transfer::specs::Alignment::lane_bytes))]
    pub fn lane_bytes(self) -> u32
        ensures { result ≡ lane_bytes self.master self.slave }
    {
        self.master.width.min(self.slave.width)
    }

    // The bytes of the transfer that fall to one access (rule 4.10).
    pub fn access_bytes(self) -> u32
        ensures { result ≡ access_bytes self.master self.slave }
    {
        if is_native(self.slave) {
            return self.master.width;
        }
        self.lane_bytes()
    }

    // r, the accesses of one beat (rules 4.10, 5.2).
    pub fn ratio(self) -> u32
        requires { Widths self.master self.slave }
        ensures { result ≡ ratio self.master self.slave }
    {
        let bytes = self.access_bytes();
        quotient(self.master.width, bytes)
    }

    // Where the bytes of access a begin among those of the transfer (rule 4.10).
    pub fn first_byte(self, a: u32) -> u64
        ensures { result ≡ first_byte self.master self.slave a }
    {
        let bytes = self.access_bytes();
        u64::from(a) * u64::from(bytes)
    }

    // The most accesses of one run (rule 4.12).
    #[tactic(auto, unfolding(fabric_transfer::specs::Runs::run_limit))]
    pub fn run_limit(self) -> u32
        ensures { result ≡ run_limit self.master self.slave }
    {
        if self.master.width < self.slave.width {
            1
        } else {
            self.slave.burst
        }
    }

    // The place in its run of the access that is carried out behind k others (rule 4.13).
    pub fn place_of(self, k: u32) -> u32
        requires { member self.slave.burst bursts ≡ true }
        ensures { result ≡ place_of self.master self.slave k }
    {
        let limit = self.run_limit();
        k & (limit - 1)
    }
}

impl Posting {
    // Whether the transfer leaves out those accesses of its beats that have no enabled lane (rule 4.10).
    #[tactic(auto, unfolding(fabric_transfer::specs::Alignment::leaves_out))]
    fn leaves_out(self) -> bool
        ensures { result ≡ leaves_out self.pair.slave self.transfer }
    {
        self.transfer.write && !is_native(self.pair.slave)
    }

    // The number of the first access that is carried out (rule 4.10): the one that has the lowest lane. Legal lanes stand side by
    // side, and so do the accesses that have one.
    fn first_access(self) -> u32
        requires { Posted self.pair.master self.pair.slave self.transfer }
        ensures { result ≡ first_access self.pair.master self.pair.slave self.transfer }
    {
        if self.leaves_out() {
            let bytes = self.pair.access_bytes();
            let low = u32::trailing_zeros(self.transfer.lanes);
            return quotient(low, bytes);
        }
        0
    }

    // The accesses of one beat that are carried out (rule 4.10): those that the enabled lanes fill, or the one that has them all.
    fn beat_accesses(self) -> u32
        requires { Posted self.pair.master self.pair.slave self.transfer }
        ensures { result ≡ beat_accesses self.pair.master self.pair.slave self.transfer }
    {
        if self.leaves_out() {
            let bytes = self.pair.access_bytes();
            let lanes = u32::count_ones(self.transfer.lanes);
            return quotient(lanes + (bytes - 1), bytes);
        }
        self.pair.ratio()
    }

    // The accesses of a transfer (rule 4.10).
    pub fn accesses(self) -> u64
        requires { Posted self.pair.master self.pair.slave self.transfer }
        ensures { result ≡ accesses self.pair.master self.pair.slave self.transfer }
    {
        let each = self.beat_accesses();
        u64::from(self.transfer.beats) * u64::from(each)
    }

    // The number, among the accesses of all beats, of the one that is carried out behind k others (rule 4.10).
    pub fn access_number(self, k: u32) -> u32
        requires { (Posted self.pair.master self.pair.slave self.transfer)
            × (k < accesses self.pair.master self.pair.slave self.transfer)
            × (accesses self.pair.master self.pair.slave self.transfer ≤ 512) }
        ensures { result ≡ access_number self.pair.master self.pair.slave self.transfer k }
    {
        let first = self.first_access();
        first + k
    }

    // Where access a begins within the slave (rule 4.10): at a native slave a word of the slave for each word of the master. A
    // difference stops at 0, as that of the definitions does: no caller has to rule out an address below the base.
    pub fn access_offset(self, a: u32) -> u64
        requires { Widths self.pair.master self.pair.slave }
        ensures { result ≡ access_offset self.pair.master self.pair.slave self.transfer a }
    {
        let start = self.transfer.address.saturating_sub(self.pair.slave.base);
        if is_native(self.pair.slave) {
            let word = quotient(start, self.pair.master.width);
            return (u64::from(word) + u64::from(a)) * u64::from(self.pair.slave.width);
        }
        u64::from(start) + self.pair.first_byte(a)
    }

    // Where the slave word of access a begins within the slave (rule 4.13).
    pub fn word_offset(self, a: u32) -> u64
        requires { Widths self.pair.master self.pair.slave }
        ensures { result ≡ word_offset self.pair.master self.pair.slave self.transfer a }
    {
        let at = self.access_offset(a);
        let over = over_width(at, self.pair.slave.width);
        at - over
    }

    // The lanes of the master's word that access a writes, on the slave's lanes (rules 2.3, 4.10, 4.14).
    fn write_lanes(self, a: u32) -> u32
        requires { (Widths self.pair.master self.pair.slave)
            × (InWord self.pair.master self.pair.slave self.transfer a) }
        ensures { result ≡ write_lanes self.pair.master self.pair.slave self.transfer a }
    {
        let bytes = self.pair.lane_bytes();
        let first = self.pair.first_byte(a);
        let at = self.access_offset(a);
        let from = over_width(first, self.pair.master.width);
        let to = over_width(at, self.pair.slave.width);
        let mask = fabric_lanes::all_lanes(bytes);
        ((self.transfer.lanes >> from) & mask) << to
    }

    // The slave's lanes in access a (rule 4.14): of a read the whole slave word.
    pub fn slave_lanes(self, a: u32) -> u32
        requires { (Widths self.pair.master self.pair.slave)
            × (InWord self.pair.master self.pair.slave self.transfer a) }
        ensures { result ≡ slave_lanes self.pair.master self.pair.slave self.transfer a }
    {
        if self.transfer.write {
            return self.write_lanes(a);
        }
        fabric_lanes::all_lanes(self.pair.slave.width)
    }

    // The slave's wait for the transfer's direction (rule 4.8).
    #[tactic(auto, unfolding(fabric_transfer::specs::Accesses::wait_of))]
    pub fn wait_of(self) -> u32
        ensures { result ≡ wait_of self.pair.slave self.transfer }
    {
        if self.transfer.write {
            self.pair.slave.write_wait
        } else {
            self.pair.slave.read_wait
        }
    }

    // The clocks between a transfer's last access and its finish (rule 4.16): a write has none.
    #[tactic(auto, unfolding(fabric_transfer::specs::Accesses::latency_of))]
    pub fn latency_of(self) -> u32
        ensures { result ≡ latency_of self.pair.slave self.transfer }
    {
        if self.transfer.write {
            0
        } else {
            self.pair.slave.latency
        }
    }

    // The clocks that a transfer takes once it has its first cycle (rule 5.4): every access that is carried out has the wait.
    pub fn own_length(self) -> u64
        requires { (Posted self.pair.master self.pair.slave self.transfer)
            × (wait_of self.pair.slave self.transfer ≤ 255) }
        ensures { result ≡ own_length self.pair.master self.pair.slave self.transfer }
    {
        let count = self.accesses();
        let wait = self.wait_of();
        count * (1 + u64::from(wait))
    }

    // The length of the run of the access that is carried out behind k others (rules 4.12, 4.13), of so many accesses in total: the
    // last run has what is left.
    pub fn run_of(self, total: u64, k: u32) -> u32
        requires { (total ≡ accesses self.pair.master self.pair.slave self.transfer)
            × (member self.pair.slave.burst bursts ≡ true) }
        ensures { result ≡ run_of self.pair.master self.pair.slave self.transfer k }
    {
        let limit = self.pair.run_limit();
        let place = self.pair.place_of(k);
        let start = k - place;
        let rest = total.saturating_sub(u64::from(start));
        u64::from(limit).min(rest) as u32
    }
}
