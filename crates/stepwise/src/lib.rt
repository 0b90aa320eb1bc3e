// No code: proofs/ shows that a solve taken one trial at a time is the whole solve.
#![tactic(auto)]
