// No code: what holds of every list of content calls (RULES 14.10, 14.11 and 14.13), stated and proved of the definition of a call.
#![tactic(auto)]
