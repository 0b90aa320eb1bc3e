// No code: proofs/ shows what the list of links at each node holds, and what an edit of one link leaves.
#![tactic(auto)]
