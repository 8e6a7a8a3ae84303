// Laws of lists, sums and finite tests; none is about the bus.
#![tactic(auto)]
