// No code: what an accepted sheet is stands in specs/, the theorems in proofs/.
#![tactic(auto)]
