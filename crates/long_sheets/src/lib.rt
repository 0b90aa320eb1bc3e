// No code: proofs/ shows that the reading byte by byte of crate stream agrees with crate sheet's.
#![tactic(auto)]
