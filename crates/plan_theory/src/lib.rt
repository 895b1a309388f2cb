#![tactic(auto)]

// Theory only: plans, what reading and writing them answers and leaves, and what that means. There is no function here; `specs/` has the
// definitions and `proofs/` their laws.
