// No code: the statements stand in specs/, the theorems in proofs/.
#![tactic(auto)]
