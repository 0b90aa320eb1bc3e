// No code: what it is to be close stands in specs/, the theorems in proofs/.
#![tactic(auto)]
