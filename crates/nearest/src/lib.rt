// No code: what it is to be the f64 nearest to a root stands in specs/, its theorems in proofs/.
#![tactic(auto)]
