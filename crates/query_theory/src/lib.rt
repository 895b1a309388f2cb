#![tactic(auto)]

// Theory only: the questions of a sheet, the order of paths, and what the answers mean. There is no function here; `specs/` has the
// definitions and `proofs/` their laws.
