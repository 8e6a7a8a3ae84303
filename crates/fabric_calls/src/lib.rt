// What the calls on a board's fabric answer (rules 3.3, 4.2, 4.13, 4.15, 4.19).
#![tactic(auto)]

use fabric_state::State;

// What the definitions of reset and post answer: a refusal's number, or 0, and the state. The calls are lent the state, and answer the
// refusal alone (rules 3.3, 4.2).
#[derive(Clone, Copy)]
pub struct Changed {
    pub number: u32,
    pub state: State,
}
