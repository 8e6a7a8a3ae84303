// What is claimed of every list of calls from a reset (docs/RULES.md, rules 6.1 to 6.11), and its proof.
#![tactic(auto)]
