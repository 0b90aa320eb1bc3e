// Theorems alone: what the reading of an EPANET text may be relied on for.
#![tactic(auto)]
