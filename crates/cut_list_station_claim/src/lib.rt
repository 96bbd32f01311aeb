// No code: what holds of every list of operations on a list of stamps, and of the cuts that go into one, stated of the calls that a station
// makes (RULES 17.14), and its proof.
#![tactic(auto)]
