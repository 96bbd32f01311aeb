// No code: the definitions that the crates share are in specs/, and the laws that their proofs cite in proofs/.
#![tactic(auto)]
