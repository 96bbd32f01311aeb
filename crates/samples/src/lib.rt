// No code: the samples that are proved of the definitions (RULES 13.1).
#![tactic(auto)]
