// No code: what holds of every list of operations on a list of stamps, of the cuts that go into one, and of its readers together (RULES 17.10
// to 17.13), stated and proved of the definitions of the operations.
#![tactic(auto)]
