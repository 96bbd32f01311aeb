// No code: promise 3, the spacing theorem, stated of the calls that a station makes (RULES 14.14), and its proof.
#![tactic(auto)]
