// No code: what it is to be the first number that a test holds of stands in specs/, its theorems in proofs/.
#![tactic(auto)]
