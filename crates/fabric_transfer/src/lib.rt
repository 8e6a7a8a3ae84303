// A transfer at the slave that it is for: its accesses, their lanes, runs, waits and bytes; address decoding (rules 3.6, 4.8, 4.10 to
// 4.16).
#![tactic(auto)]

// What a master posted (rule 3.1). Where `held` is false the master holds nothing and the other fields say nothing; a reset and a
// finish leave the zero record (rules 4.2, 4.9). It is no `Option`: the lent array gives these numbers for each master (`state_in` of
// fabric_layout), and what stands beside a `held` that is false is put back as it was.
#[derive(Clone, Copy)]
pub struct Transfer {
    pub held: bool,
    pub write: bool,
    pub address: u32,
    pub lanes: u32,
    pub beats: u32,
}

// The zero record.
pub const NO_TRANSFER: Transfer = Transfer {
    held: false,
    write: false,
    address: 0,
    lanes: 0,
    beats: 0,
};
