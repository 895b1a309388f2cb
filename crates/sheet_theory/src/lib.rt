#![tactic(auto)]

// Theory only: the sheet: its layout, when it is valid, the conditions that calls share, and what `empty` and `path_count` answer.
// There is no function here; `specs/` has the definitions and `proofs/` their laws.
