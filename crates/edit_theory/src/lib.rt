#![tactic(auto)]

// Theory only: the edits, the reference model, and what one edit does. There is no function here; `specs/` has the definitions and `proofs/`
// their laws.
