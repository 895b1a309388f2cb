#![tactic(auto)]

// Theory only: what `recount` and `validate` answer and leave, and what that means.
// There is no function here; `specs/` has the definitions and `proofs/` their laws.
