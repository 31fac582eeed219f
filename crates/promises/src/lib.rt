// The theory only: the promises as statements about the calls, in specs/, and their proofs, in proofs/.
#![tactic(auto)]
