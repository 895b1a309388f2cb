#![tactic(auto)]

// Theory only: finite sums, remainders, and lists put one after the other. There is no function here; `specs/` has the definitions and `proofs/` their laws.
