#![tactic(auto)]

// Theory only: paths, cycles and the number of paths. There is no function here; `specs/` has the definitions and `proofs/` their laws.
