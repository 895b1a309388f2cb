#![tactic(auto)]

// Theory only: lists of edits and the theorem about them. There is no function here; `specs/` has the definitions and `proofs/` their laws.
