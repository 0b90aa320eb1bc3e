// No code: proofs/ shows what a good sheet reads as once a row of demands stands in it.
#![tactic(auto)]
