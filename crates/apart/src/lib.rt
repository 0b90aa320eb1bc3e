// No code: proofs/ shows that each row of an evening is a single solve.
#![tactic(auto)]
