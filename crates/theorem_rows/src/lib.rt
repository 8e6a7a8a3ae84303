// The examples of docs/RULES.md, section 9, proved about the definitions.
#![tactic(auto)]
