// The theory only: what the arrays of a site mean, in specs/, and the laws of that, in proofs/.
#![tactic(auto)]
