#![tactic(auto)]

// Theory only: the listing of a plan: its lines, and what they say.
// There is no function here; `specs/` has the definitions and `proofs/` their laws.
