// The theory of the wait at one slave, over functions of a master's number: upper bound and exact history.
#![tactic(auto)]
