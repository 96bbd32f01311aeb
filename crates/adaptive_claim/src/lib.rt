// No code: what holds of every list of adaptive calls (RULES 14.12, 14.13), stated and proved of the definition of a call.
#![tactic(auto)]
