// Arbitration by shares at one slave: rule 1, the grant (rules 4.3 to 4.6).
#![tactic(auto)]

ghost use Rattle.std.specs.Prelude.{◌≡◌};
ghost use Rattle.common_laws.specs.Bits.{bit};
ghost use Rattle.fabric_arbiter.specs.Choosing.{next_master, first_requester};
ghost use Rattle.fabric_arbiter.specs.Granting.{kept, arbiter_after};
ghost use Rattle.fabric_arbiter.specs.Code.Winning.{winner_of, grant_by};

// What a slave remembers of its grants (rule 4.1): the last owner, and the grants that remain to it. A grant is answered as the arbiter
// that it leaves, of the master granted with the grants that then remain to it; where nobody is granted there is none.
#[derive(Clone, Copy)]
pub struct Arbiter {
    pub owner: u32,
    pub remaining: u32,
}

// Who is granted, before shares and beats are read: the last owner by a grant that remains to it (rule 4.4), the first requester
// by its shares (rule 4.5), nobody (rule 4.3).
#[derive(Clone, Copy)]
pub enum Winner {
    Again,
    First(u32),
    NoOne,
}

// Whether bit m of the mask of requests is 1 (rule 4.3). This test of a bit is one expression, and is written in each crate that reads a
// mask: a function for all would have this guard, or ask for what each of them knows.
fn is_requesting(requests: u32, m: u32) -> bool
    ensures { result ≡ bit requests m }
{
    if 32 <= m {
        return false;
    }
    (requests >> m) % 2 == 1
}

// The master that is tried behind m, of n: the next above it, or 0 (rule 4.5).
#[tactic(auto, unfolding(crate::specs::Choosing::next_master))]
fn next_master(n: u32, m: u32) -> u32
    ensures { result ≡ next_master n m }
{
    if m < n.saturating_sub(1) { m + 1 } else { 0 }
}

// The first requester (rule 4.5), if there is one: masters above the last owner first, then from 0, the owner at the end. The form, a
// loop that is left by `break`, is named in docs/DECISIONS.md.
fn first_requester(requests: u32, n: u32, owner: u32) -> Option<u32>
    ensures { result ≡ first_requester (bit requests) n owner }
{
    let mut m = owner;
    let mut left = n;
    loop {
        if left == 0 {
            break None;
        }
        m = next_master(n, m);
        if is_requesting(requests, m) {
            break Some(m);
        }
        left -= 1;
    }
}

// Who is granted a slave that does not serve (rules 4.3 to 4.5). Most slaves of a large board are idle: no empty mask is
// searched.
pub fn winner_of(n: u32, requests: u32, a: Arbiter) -> Winner
    ensures { result ≡ winner_of n (bit requests) a }
{
    if requests == 0 {
        return Winner::NoOne;
    }
    if is_requesting(requests, a.owner) && 0 < a.remaining {
        return Winner::Again;
    }
    match first_requester(requests, n, a.owner) {
        Some(m) => Winner::First(m),
        None => Winner::NoOne,
    }
}

// With two or more beats no grant remains (rule 4.6).
#[tactic(auto, unfolding(crate::specs::Granting::kept))]
fn kept(beats: u32, remaining: u32) -> u32
    ensures { result ≡ kept beats remaining }
{
    if 1 < beats { 0 } else { remaining }
}

// The winner's grant, by its shares at this slave and the beats of its transfer (rules 4.4 to 4.6).
#[tactic(auto, unfolding(crate::specs::Code::Winning::grant_by))]
pub fn grant_by(a: Arbiter, w: Winner, shares: u32, beats: u32) -> Option<Arbiter>
    ensures { result ≡ grant_by a w shares beats }
{
    let (owner, grants) = match w {
        Winner::Again => (a.owner, a.remaining),
        Winner::First(m) => (m, shares),
        Winner::NoOne => return None,
    };
    let remaining = kept(beats, grants.saturating_sub(1));
    Some(Arbiter { owner, remaining })
}

// The slave's arbiter after the grant (rule 4.6); with none, no grant remains (rule 4.3).
#[tactic(auto, unfolding(crate::specs::Granting::arbiter_after))]
pub fn arbiter_after(a: Arbiter, g: Option<Arbiter>) -> Arbiter
    ensures { result ≡ arbiter_after a g }
{
    g.unwrap_or(Arbiter { remaining: 0, ..a })
}
